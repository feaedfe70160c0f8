//! The conditions under which a store is opened, and the decision by what is found.
ghost use Rattle.std.specs.Prelude.{◌≡◌};
ghost use Rattle.mpw_store.specs.Terms.{exposure, has_bare_log, is_fresh, misplaced, opening, reading, refusal};

use crate::file_fault::FileFault;
use crate::found::{EMPTY_LOG, Found, Kind};

/// The conditions under which the file of a store is opened.
#[derive(Clone, Copy, PartialEq, Eq, Debug)]
pub struct Terms {
    /// The store must exist: none is made.
    pub is_existing: bool,
    /// There must be no file of its name: one is made.
    pub is_new: bool,
    /// Neither the group nor others may read or write the file.
    pub is_private: bool,
}

/// Whether a log would be lost: it is next to no file, or it may have changes and is next to an empty one.
fn has_bare_log(found: Found) -> bool
    ensures { result ≡ has_bare_log found.kind found.log }
{
    match found.kind {
        Kind::Nothing => found.log > 0,
        Kind::Empty => found.log > EMPTY_LOG,
        Kind::Filled | Kind::Linked | Kind::Else => false,
    }
}

/// Why a file is refused by what it is, if it is.
fn refusal(found: Found) -> Option<FileFault>
    ensures { result ≡ refusal found }
{
    match found.kind {
        Kind::Else => Some(FileFault::NoFile),
        Kind::Linked => Some(FileFault::Linked),
        Kind::Nothing | Kind::Empty | Kind::Filled if has_bare_log(found) => Some(
            FileFault::BareLog,
        ),
        Kind::Nothing | Kind::Empty | Kind::Filled => None,
    }
}

/// Why a file is refused because it is there, or isn't, if it is.
fn misplaced(terms: Terms, kind: Kind) -> Option<FileFault>
    ensures { result ≡ misplaced terms kind }
{
    match kind {
        Kind::Nothing if terms.is_existing => Some(FileFault::Missing),
        Kind::Empty if terms.is_existing => Some(FileFault::Empty),
        Kind::Empty | Kind::Filled if terms.is_new => Some(FileFault::Taken),
        _ => None,
    }
}

/// Why a file is refused by who may read or write it, if it is.
fn exposure(terms: Terms, found: Found) -> Option<FileFault>
    ensures { result ≡ exposure terms found }
{
    if terms.is_private & found.is_shared {
        Some(FileFault::Shared)
    } else {
        None
    }
}

/// Whether the store has still to be made.
fn is_fresh(kind: Kind) -> bool
    ensures { result ≡ is_fresh kind }
{
    match kind {
        Kind::Nothing | Kind::Empty => true,
        Kind::Filled | Kind::Linked | Kind::Else => false,
    }
}

/// Whether a store that is opened under these conditions is new.
///
/// # Errors
/// `NoFile` and `Linked`; then `BareLog`; then `Missing`, `Empty` or `Taken`; then `Shared`.
pub fn opening(terms: Terms, found: Found) -> Result<bool, FileFault>
    ensures { result ≡ opening terms found }
{
    let fault = refusal(found)
        .or(misplaced(terms, found.kind))
        .or(exposure(terms, found));
    match fault {
        Some(fault) => Err(fault),
        None => Ok(is_fresh(found.kind)),
    }
}

/// Whether there is a store to read.
///
/// # Errors
/// `NoFile` and `Linked`, then `BareLog`, then `Missing`.
pub fn reading(found: Found) -> Result<(), FileFault>
    ensures { result ≡ reading found }
{
    match (refusal(found), found.kind) {
        (Some(fault), _) => Err(fault),
        (None, Kind::Nothing) => Err(FileFault::Missing),
        (None, _) => Ok(()),
    }
}
