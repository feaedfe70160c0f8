//! The command line, in `specs/Settings.antt` by what `clap` finds.
ghost use Rattle.std.specs.Prelude.{◌≡◌, ◌≢◌, ◌↔◌, None, codes, IsTrue, map, option_map, IfOk, IfErr};
ghost use Rattle.std.specs.String.{string_bytes};
ghost use Rattle.clap.specs.Words.{App, Rule, app_of, first_of, found_of, kind_of, new_app, rows_of, subcommand_rows_of, with_rule, with_subcommand};
ghost use Rattle.mpw_auditor.specs.Forms.{HasForm, IsArgument, payload_rule, program_app, store_app, top_app, trail_app, word_rule};
ghost use Rattle.mpw_auditor.specs.Settings.{AreGiven, AreOf, AsksNoPlace, AsksNothing, AsksPlace, AsksStore, AsksTrail, GiveNone, Gives, IsFaultOf, IsMisuse};

use crate::fault::AuditFault;
use clap::error::ErrorKind;
use clap::{Arg, ArgAction, ArgMatches, Command, Error};
use mpw_store_rows::MAX_ROWS;
use mpw_text::read_number;
use std::alloc::{AllocError, Global};

/// What the command line asks for.
#[derive(Drop)]
pub enum Asked {
    /// The rows of a store.
    Rows { file: String },
    /// The payload of a row.
    Payload { file: String, place: u32 },
    /// Whether a store is sound.
    Check { file: String },
    /// This help.
    Help(String),
}

/// A word that has to be given.
fn word<'a>(alloc: Global, name: &'a str, value: &'a str, help: &'a str) -> Arg<'a>
    ensures { IsArgument (word_rule name.entry.now) result }
{
    Arg::new(alloc, name)
        .value_name(value)
        .required(true)
        .action(ArgAction::Set)
        .help(help)
}

/// The option that names a row.
fn payload_option<'a>(alloc: Global) -> Arg<'a>
    ensures { IsArgument payload_rule result }
{
    Arg::new(alloc, "payload")
        .long("payload")
        .value_name("K")
        .action(ArgAction::Set)
        .help("Writes the payload of row K in place of the rows")
}

/// A subcommand without arguments.
fn new_command<'a>(alloc: Global, name: &'a str, about: &'a str) -> Command<'a>
    ensures { HasForm (new_app name.entry.now) result }
{
    Command::new(alloc, name).about(about)
}

/// The subcommand with one more argument.
fn with_argument<'a>(command: Command<'a>, argument: Arg<'a>) -> Result<Command<'a>, AllocError>
    ensures { IfOk result (λ with. (app : App) (rule : Rule) → HasForm app command.entry → IsArgument rule argument.entry → HasForm (with_rule app rule) with) }
{
    command.arg(argument)
}

/// The subcommand `trail`.
fn trail_command<'a>(alloc: Global) -> Result<Command<'a>, AllocError>
    ensures { IfOk result (HasForm trail_app) }
{
    let about = "Lists what a store holds, as comma-separated fields";
    let command = new_command(alloc, "trail", about);
    let file = word(alloc, "file", "FILE", "The file of the store");
    with_argument(with_argument(command, file)?, payload_option(alloc))
}

/// The subcommand `store`.
fn store_command<'a>(alloc: Global) -> Result<Command<'a>, AllocError>
    ensures { IfOk result (HasForm store_app) }
{
    let about = "Says whether a store is sound: mpw store check FILE";
    let command = new_command(alloc, "store", about);
    let task = word(alloc, "task", "check", "What is done");
    let file = word(alloc, "file", "FILE", "The file of the store");
    with_argument(with_argument(command, task)?, file)
}

/// The command line's form without a subcommand.
fn top_command<'a>(alloc: Global) -> Command<'a>
    ensures { app_of result ≡ top_app }
{
    Command::new(alloc, "mpw")
        .about("What a store holds")
        .subcommand_required(true)
}

/// The command line with the subcommand `trail`.
fn with_trail<'a>(alloc: Global, command: Command<'a>) -> Result<Command<'a>, AllocError>
    ensures { IfOk result (λ with. app_of with ≡ with_subcommand (app_of command.entry) trail_app.top) }
{
    command.subcommand(trail_command(alloc)?)
}

/// The command line with the subcommand `store`.
fn with_store<'a>(alloc: Global, command: Command<'a>) -> Result<Command<'a>, AllocError>
    ensures { IfOk result (λ with. app_of with ≡ with_subcommand (app_of command.entry) store_app.top) }
{
    command.subcommand(store_command(alloc)?)
}

/// The command line's form.
#[tactic(auto, unfolding(crate::specs::Forms::program_app))]
fn program_command<'a>(alloc: Global) -> Result<Command<'a>, AllocError>
    ensures { IfOk result (λ command. app_of command ≡ program_app) }
{
    with_store(alloc, with_trail(alloc, top_command(alloc))?)
}

/// A fault of the command line, with its text.
fn usage(alloc: Global, text: &str) -> AuditFault
    ensures { IsMisuse result }
{
    match String::from_str(alloc, text) {
        Ok(text) => AuditFault::Usage(text),
        Err(_) => AuditFault::Memory,
    }
}

/// The fault of words that can't be read: memory ran out, or one of them isn't UTF-8.
pub fn misread(alloc: Global, is_memory: bool) -> AuditFault
    ensures memory { IsTrue is_memory → result ≡ AuditFault.Memory }
    ensures usage { IsMisuse result }
{
    if is_memory {
        return AuditFault::Memory;
    }
    usage(alloc, "error: an argument is not valid UTF-8")
}

/// The value of an argument, if it has one.
fn given<'a>(options: &ArgMatches<'a>, name: &str) -> Option<&'a str>
    ensures { option_map (λ text. text.now) result ≡ first_of name.now (rows_of (found_of options.now)) }
{
    options.get_str(name)
}

/// The file that is given.
fn file_of(alloc: Global, options: &ArgMatches<'_>) -> Result<String, AuditFault>
    ensures ok { IfOk result (λ file. Gives (codes "file") (rows_of (found_of options.now)) (string_bytes file)) }
    ensures refused { IfErr result (IsFaultOf (first_of (codes "file") (rows_of (found_of options.now)) ≡ None)) }
{
    match given(options, "file") {
        Some(file) => Ok(String::from_str(alloc, file)?),
        None => Err(usage(alloc, "error: a file has to be given")),
    }
}

/// The place of a row whose payload is asked for, if one is.
#[tactic(auto, using(std::proofs::lemmas::Bool::Decides::nat_tests))]
fn place_of(alloc: Global, options: &ArgMatches<'_>) -> Result<Option<u32>, AuditFault>
    ensures ok { IfOk result (AsksPlace (rows_of (found_of options.now))) }
    ensures refused { IfErr result (IsFaultOf (AsksNoPlace (rows_of (found_of options.now)))) }
{
    let Some(text) = given(options, "payload") else {
        return Ok(None);
    };
    match read_number(text.as_bytes(), 1, MAX_ROWS) {
        Some(place) => Ok(Some(place)),
        None => Err(usage(
            alloc,
            "error: --payload takes the number of a row, from 1 to 2097152",
        )),
    }
}

/// What `trail` asks for.
fn trail_of(alloc: Global, options: &ArgMatches<'_>) -> Result<Asked, AuditFault>
    ensures ok { IfOk result (AsksTrail (rows_of (found_of options.now))) }
    ensures refused { IfErr result (IsFaultOf (AsksNothing (AsksTrail (rows_of (found_of options.now))))) }
{
    let file = file_of(alloc, options)?;
    match place_of(alloc, options)? {
        None => Ok(Asked::Rows { file }),
        Some(place) => Ok(Asked::Payload { file, place }),
    }
}

/// Whether the task is the one that there is.
fn is_task(options: &ArgMatches<'_>) -> bool
    ensures { IsTrue result ↔ Gives (codes "task") (rows_of (found_of options.now)) (codes "check") }
{
    match given(options, "task") {
        Some(task) => task == "check",
        None => false,
    }
}

/// What `store` asks for.
fn store_of(alloc: Global, options: &ArgMatches<'_>) -> Result<Asked, AuditFault>
    ensures ok { IfOk result (AsksStore (rows_of (found_of options.now))) }
    ensures refused { IfErr result (IsFaultOf (AsksNothing (AsksStore (rows_of (found_of options.now))))) }
{
    if !is_task(options) {
        return Err(usage(alloc, "error: a store can be checked: mpw store check FILE"));
    }
    let file = file_of(alloc, options)?;
    Ok(Asked::Check { file })
}

/// What the subcommand that the words name asks for.
fn asked_of(alloc: Global, matches: &ArgMatches<'_>) -> Result<Asked, AuditFault>
    ensures ok { IfOk result (AreOf (subcommand_rows_of matches.now)) }
    ensures refused { IfErr result (IsFaultOf (AsksNothing (AreOf (subcommand_rows_of matches.now)))) }
{
    match matches.subcommand() {
        Some((name, options)) if name == "trail" => trail_of(alloc, options),
        Some((name, options)) if name == "store" => store_of(alloc, options),
        _ => Err(usage(alloc, "error: a subcommand has to be given: trail or store")),
    }
}

/// The help that `clap` reports as an error, or the fault.
fn help_of(alloc: Global, error: &Error) -> Result<String, AuditFault>
    ensures ok { IfOk result (λ _. kind_of error.now ≡ ErrorKind.DisplayHelp) }
    ensures refused { IfErr result (IsFaultOf ((kind_of error.now ≢ ErrorKind.OutOfMemory) × (kind_of error.now ≢ ErrorKind.DisplayHelp))) }
{
    match error.kind() {
        ErrorKind::OutOfMemory => Err(AuditFault::Memory),
        ErrorKind::DisplayHelp => Ok(error.to_string(alloc)?),
        _ => Err(AuditFault::Usage(error.to_string(alloc)?)),
    }
}

/// What the words of a command line ask for, the program's name first. One pass over the words.
///
/// # Errors
/// `Usage`, only if the words ask for nothing, with a text that says what is wrong and what is accepted; and `Memory`.
pub fn read_settings<'a>(alloc: Global, words: &'a [&'a str]) -> Result<Asked, AuditFault>
    ensures ok { IfOk result (λ asked. AreGiven asked (map (λ word. word.now) words.entry.now)) }
    ensures refused { IfErr result (IsFaultOf (GiveNone (map (λ word. word.now) words.entry.now))) }
{
    match program_command(alloc)?.try_get_matches_from(words) {
        Ok(matches) => asked_of(alloc, &matches),
        Err(error) => Ok(Asked::Help(help_of(alloc, &error)?)),
    }
}
