//! The command line.
ghost use Rattle.std.specs.Prelude.{◌≡◌, ◌≢◌, IfOk, IfErr, map};
ghost use Rattle.clap.specs.Words.{app_of, kind_of, subcommand_rows_of};
ghost use Rattle.mpw_settings.specs.Forms.{program_app};
ghost use Rattle.mpw_settings.specs.Settings.{AreGiven, AreOf, GiveNone, GivesNone, IsFaultOf};

use crate::fault::SettingsFault;
use crate::options::usage;
use crate::script::{Script, read_script, script_command};
use crate::service::Service;
use crate::service_options::{read_service, serve_command};
use clap::error::ErrorKind;
use clap::{ArgMatches, Command, Error};
use std::alloc::{AllocError, Global};

/// What the command line asks for.
#[derive(Drop)]
pub enum Settings {
    /// Serve the standard input to the standard output.
    Script(Script),
    /// Serve connections that share a desk.
    Serve(Service),
    /// Print this help.
    Help(String),
}

/// The command line's form.
#[tactic(auto, unfolding(crate::specs::Forms::program_app))]
fn program_command<'a>(alloc: Global) -> Result<Command<'a>, AllocError>
    ensures { IfOk result (λ command. app_of command ≡ program_app) }
{
    Command::new(alloc, "mpw")
        .about("The sign-off desk of a multi-project wafer run")
        .subcommand_required(true)
        .subcommand(script_command(alloc)?)?
        .subcommand(serve_command(alloc)?)
}

/// The settings of the subcommand that the words name.
fn settings_of(alloc: Global, matches: &ArgMatches<'_>) -> Result<Settings, SettingsFault>
    ensures ok { IfOk result (AreOf (subcommand_rows_of matches.now)) }
    ensures refused { IfErr result (IsFaultOf (GivesNone (AreOf (subcommand_rows_of matches.now)))) }
{
    match matches.subcommand() {
        Some((name, options)) if name == "script" => Ok(Settings::Script(read_script(
            alloc, options,
        )?)),
        Some((name, options)) if name == "serve" => Ok(Settings::Serve(read_service(
            alloc, options,
        )?)),
        _ => Err(usage(String::from_str(
            alloc,
            "error: a subcommand has to be given: script or serve",
        ))),
    }
}

/// The help, which `clap` returns as an error.
fn help_of(alloc: Global, error: &Error) -> Result<String, SettingsFault>
    ensures ok { IfOk result (λ _. kind_of error.now ≡ ErrorKind.DisplayHelp) }
    ensures refused { IfErr result (IsFaultOf ((kind_of error.now ≢ ErrorKind.OutOfMemory) × (kind_of error.now ≢ ErrorKind.DisplayHelp))) }
{
    match error.kind() {
        ErrorKind::OutOfMemory => Err(SettingsFault::Memory),
        ErrorKind::DisplayHelp => Ok(error.to_string(alloc)?),
        _ => Err(SettingsFault::Usage(error.to_string(alloc)?)),
    }
}

/// The settings that the words of a command line give, the program's name first. One pass over the words.
///
/// # Errors
/// `Usage`, only if the words give no settings, with a text that says what is wrong and what is accepted; and `Memory`.
pub fn read_settings<'a>(alloc: Global, words: &'a [&'a str]) -> Result<Settings, SettingsFault>
    ensures ok { IfOk result (λ settings. AreGiven settings (map (λ word. word.now) words.entry.now)) }
    ensures refused { IfErr result (IsFaultOf (GiveNone (map (λ word. word.now) words.entry.now))) }
{
    match program_command(alloc)?.try_get_matches_from(words) {
        Ok(matches) => settings_of(alloc, &matches),
        Err(error) => Ok(Settings::Help(help_of(alloc, &error)?)),
    }
}
