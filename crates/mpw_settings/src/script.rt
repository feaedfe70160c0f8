//! What a script is to do, and the options that say it.
ghost use Rattle.std.specs.Prelude.{IfOk, IfErr};
ghost use Rattle.clap.specs.Words.{found_of, rows_of};
ghost use Rattle.mpw_settings.specs.Forms.{HasForm, script_app};
ghost use Rattle.mpw_settings.specs.Settings.{GivesNone, GivesScript, IsFaultOf};

use crate::fault::SettingsFault;
use crate::officer::{Officer, read_officer, with_officer};
use crate::options::new_command;
use crate::store::{Store, read_store, with_store};
use clap::{ArgMatches, Command};
use std::alloc::{AllocError, Global};

/// What a script is to do.
#[derive(Drop)]
pub struct Script {
    /// The first user of its desk.
    pub officer: Officer,
    /// The file in which its desk's changes are stored, if they are.
    pub store: Option<Store>,
}

/// The subcommand `script`.
///
/// # Errors
/// If memory runs out.
pub fn script_command<'a>(alloc: Global) -> Result<Command<'a>, AllocError>
    ensures { IfOk result (HasForm script_app) }
{
    let command = new_command(alloc, "script", "Serves the lines of the standard input");
    with_store(alloc, with_officer(alloc, command)?)
}

/// The script that the options give.
///
/// # Errors
/// `Usage` if they give none, and `Memory`.
pub fn read_script(alloc: Global, options: &ArgMatches<'_>) -> Result<Script, SettingsFault>
    ensures ok { IfOk result (GivesScript (rows_of (found_of options.now))) }
    ensures refused { IfErr result (IsFaultOf (GivesNone (GivesScript (rows_of (found_of options.now))))) }
{
    let store = read_store(alloc, options)?;
    let officer = read_officer(alloc, options)?;
    Ok(Script { officer, store })
}
