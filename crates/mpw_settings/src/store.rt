//! The file of a store, and the options that name it.
ghost use Rattle.std.specs.Prelude.{IfOk, IfErr};
ghost use Rattle.clap.specs.Words.{App, found_of, rows_of};
ghost use Rattle.mpw_settings.specs.Forms.{HasForm, with_store};
ghost use Rattle.mpw_settings.specs.Settings.{GivesNone, GivesStore, IsFaultOf};

use crate::fault::SettingsFault;
use crate::options::{flag, free_option, given, is_given, usage, with_option};
use clap::{ArgMatches, Command};
use std::alloc::{AllocError, Global};

/// The file in which a desk's changes are stored, and the conditions under which it is opened. It isn't both existing and new.
#[derive(Drop)]
pub struct Store {
    /// The file's name.
    pub path: String,
    /// Whether the file must exist, so that none is made.
    pub is_existing: bool,
    /// Whether the file must not exist, so that one is made.
    pub is_new: bool,
    /// Whether a file is refused that its group or others may read or write.
    pub is_private: bool,
}

/// The subcommand with the options of a store.
///
/// # Errors
/// If memory runs out.
pub fn with_store<'a>(alloc: Global, command: Command<'a>) -> Result<Command<'a>, AllocError>
    ensures { IfOk result (λ with. (app : App) → HasForm app command.entry → HasForm (with_store app) with) }
{
    let store = free_option(
        alloc,
        "store",
        "FILE",
        "Stores each change in a database, and goes on from those that it has",
    );
    let existing = flag(
        alloc,
        "existing",
        "Refuses to make the store's file if it doesn't exist",
    );
    let new = flag(alloc, "new", "Refuses the store's file if it exists");
    let private = flag(
        alloc,
        "private",
        "Refuses the store's file if its group or others may read or write it",
    );
    let command = with_option(with_option(command, store)?, existing)?;
    with_option(with_option(command, new)?, private)
}

/// The fault of a flag that needs a store.
fn no_store(alloc: Global) -> SettingsFault {
    usage(String::from_str(
        alloc,
        "error: --existing, --new and --private are about the file of --store: add --store FILE, or leave them out",
    ))
}

/// The fault of a file that is to exist and not to exist.
fn both(alloc: Global) -> SettingsFault {
    usage(String::from_str(
        alloc,
        "error: --existing and --new exclude each other: give --existing for a store that is there, or --new to make one",
    ))
}

/// The store that the options give, if they name its file.
///
/// # Errors
/// `Usage` if a flag of a store is given without a file, or `--existing` with `--new`; and `Memory`.
pub fn read_store(alloc: Global, options: &ArgMatches<'_>) -> Result<Option<Store>, SettingsFault>
    ensures ok { IfOk result (GivesStore (rows_of (found_of options.now))) }
    ensures refused { IfErr result (IsFaultOf (GivesNone (GivesStore (rows_of (found_of options.now))))) }
{
    let is_existing = is_given(options, "existing");
    let is_new = is_given(options, "new");
    let is_private = is_given(options, "private");
    match given(options, "store") {
        None if is_existing => Err(no_store(alloc)),
        None if is_new => Err(no_store(alloc)),
        None if is_private => Err(no_store(alloc)),
        None => Ok(None),
        Some(_) if is_existing & is_new => Err(both(alloc)),
        Some(file) => Ok(Some(Store {
            path: String::from_str(alloc, file)?,
            is_existing,
            is_new,
            is_private,
        })),
    }
}
