//! Counts the entries in a core's window by kind and size.

use crate::room::Room;
use crate::view::View;
use mpw_columns_contents::{Array, Thing};

/// A core with at most this many flat shapes is checked without cuts.
const FEW: u64 = 24;

/// The most flat shapes of a core with instances that is checked without cuts.
const MOST: u64 = 1000;

/// Instances with fewer flat shapes than this on average aren't worth separating.
const LIGHT: u64 = 16;

/// Arrays with at least this many instances are cut off.
const LARGE: u64 = 16;

/// The counts of entries.
#[derive(Clone, Copy)]
pub(crate) struct Tally {
    /// An estimate of how many flat shapes they have.
    pub shown: u64,
    /// How many are arrays. Each array counts once.
    pub instances: usize,
    /// How many of those lie mostly in the core. An array of more than one instance counts twice.
    pub inside: u64,
    /// How many arrays have at least [`LARGE`] instances, so that they are cut off.
    pub large: usize,
    /// The array of more than one instance with the most flat shapes, if there is one.
    pub greatest: Option<Greatest>,
}

/// The array of more than one instance with the most flat shapes.
#[derive(Clone, Copy)]
pub(crate) struct Greatest {
    /// The positions of its instances.
    pub room: Room,
    /// An estimate of how many flat shapes they have.
    pub shown: u64,
    /// How many shapes and references the structure of one has itself.
    pub own: u64,
}

/// Whether an array has at least [`LARGE`] instances, so that it is cut off.
pub(crate) fn is_large(room: &Room) -> bool {
    room.count() >= LARGE
}

impl Tally {
    /// No entries.
    fn none() -> Tally {
        Tally {
            shown: 0,
            instances: 0,
            inside: 0,
            large: 0,
            greatest: None,
        }
    }

    /// Counts an array of more than one instance, whose structure has `own` shapes and references.
    fn add_several(&mut self, room: Room, shown: u64, own: u64) {
        self.inside = self.inside.saturating_add(2);
        if is_large(&room) {
            self.large = self.large.saturating_add(1);
        }
        let is_greatest = match self.greatest {
            Some(greatest) => greatest.shown < shown,
            None => true,
        };
        if is_greatest {
            self.greatest = Some(Greatest { room, shown, own });
        }
    }

    /// Counts an array.
    fn add_array(&mut self, view: &View<'_>, array: &Array) {
        let Some(room) = view.array_room(array) else {
            return;
        };
        let count = room.count();
        let shown = view.shown_by_each(array).saturating_mul(count);
        self.shown = self.shown.saturating_add(shown);
        self.instances = self.instances.saturating_add(1);
        if count >= 2 {
            self.add_several(room, shown, view.own_of_each(array));
        } else if view.is_mostly_inside(&room.first) {
            self.inside = self.inside.saturating_add(1);
        }
    }

    /// The counts of the entries in a core's window. Cost: linear in their number.
    pub fn of(view: &View<'_>, things: &[Thing]) -> Tally {
        let mut tally = Tally::none();
        for thing in things {
            match thing {
                Thing::Shape(_) => tally.shown = tally.shown.saturating_add(1),
                Thing::Array(array) => tally.add_array(view, array),
            }
        }
        tally
    }

    /// Whether the instances are small ones, and few.
    fn is_light(&self) -> bool {
        let instances = self.instances as u64;
        self.greatest.is_none()
            && self.shown <= MOST / 2
            && self.shown < instances.saturating_mul(LIGHT)
    }

    /// Whether at most one instance lies mostly in the core, and there are few flat shapes.
    pub fn is_at_rest(&self) -> bool {
        self.inside <= 1 && self.shown <= MOST
    }

    /// Whether a core with these entries should be checked without cuts.
    pub fn is_leaf(&self) -> bool {
        if self.instances == 0 || self.shown <= FEW {
            return true;
        }
        if self.shown > MOST {
            return false;
        }
        self.inside == 0 || (self.instances == 1 && self.inside == 1) || self.is_light()
    }

    /// The array with at least half of all flat shapes, if there is one.
    pub fn half(&self) -> Option<Greatest> {
        self.greatest
            .filter(|greatest| greatest.shown.saturating_mul(2) >= self.shown)
    }
}
