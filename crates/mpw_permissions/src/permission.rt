//! Operations, the objects that they are on, and grants of them.
use mpw_geom::Name;

/// What a session may do on an object (OPS).
#[derive(Clone, Copy, PartialEq, Eq)]
pub enum Operation {
    /// Submit versions of the cell.
    Submit,
    /// Submit libraries that refer to the cell by a name outside them.
    Use,
    /// See the cell in listings: its present submission, the shapes that come from it, and the markers that touch it.
    Read,
    /// Place the cell on the wafer, and remove its placements.
    Place,
    /// Change users, roles, grants and sets of separation of duty, on the desk.
    Admin,
    /// Upload a deck, on the desk.
    Deck,
    /// Begin a run and cancel it, on the desk.
    Run,
    /// Ask for the waiver of a marker, on the desk.
    Waive,
    /// Sign a waiver that was asked for, on the desk.
    Sign,
    /// See the verdict of a finished run, on the desk.
    Verdict,
    /// List the trail, on the desk.
    Audit,
}

/// What an operation is on (OBS): a cell, which need not exist, or the desk.
#[derive(Clone, PartialEq, Eq)]
pub enum Object {
    /// The cell of that name, which is submitted, used, read or placed.
    Cell(Name),
    /// The desk itself, for all other operations.
    Desk,
}

impl Drop for Object {
    fn drop(self) {
        match self {
            Object::Cell(name) => drop(name),
            Object::Desk => {}
        }
    }
}

/// The permission for an operation on an object, granted to a role (PA).
#[derive(Clone, PartialEq, Eq)]
pub struct Grant {
    /// The operation. It may come with an object of the other kind, which no request needs.
    pub operation: Operation,
    /// The object: a cell for submit, use, read and place, and the desk for all others.
    pub object: Object,
    /// The role. A session has the permission if a role at or above this one is active in it.
    pub role: Name,
}

impl Drop for Grant {
    fn drop(self) {
        let Grant {
            operation: _,
            object,
            role,
        } = self;
        drop(object);
        drop(role);
    }
}
