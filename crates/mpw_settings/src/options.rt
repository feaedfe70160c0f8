//! The options of a subcommand: their forms, and their values.
ghost use Rattle.std.specs.Prelude.{◌≡◌, ◌≤◌, IfOk, IfErr, None, is_some, option_map};
ghost use Rattle.clap.specs.Words.{App, Rule, first_of, found_of, new_app, rows_of, with_rule};
ghost use Rattle.mpw_settings.specs.Forms.{HasForm, IsOption, flag, free_option, required_option};
ghost use Rattle.mpw_settings.specs.Settings.{Gives, GivesFlag, GivesNone, GivesNumber, GivesNumberOr, IsFaultOf};

use crate::fault::SettingsFault;
use clap::{Arg, ArgAction, ArgMatches, Command};
use mpw_text::read_number;
use std::alloc::{AllocError, Global};

/// A subcommand without options.
pub fn new_command<'a>(alloc: Global, name: &'a str, about: &'a str) -> Command<'a>
    ensures { HasForm (new_app name.entry.now) result }
{
    Command::new(alloc, name).about(about)
}

/// An option that may be given, with one value.
pub fn free_option<'a>(alloc: Global, name: &'a str, value: &'a str, help: &'a str) -> Arg<'a>
    ensures { IsOption (free_option name.entry.now) result }
{
    Arg::new(alloc, name)
        .long(name)
        .value_name(value)
        .action(ArgAction::Set)
        .help(help)
}

/// An option that has to be given, with one value.
pub fn required_option<'a>(alloc: Global, name: &'a str, value: &'a str, help: &'a str) -> Arg<'a>
    ensures { IsOption (required_option name.entry.now) result }
{
    free_option(alloc, name, value, help).required(true)
}

/// An option without a value.
pub fn flag<'a>(alloc: Global, name: &'a str, help: &'a str) -> Arg<'a>
    ensures { IsOption (flag name.entry.now) result }
{
    Arg::new(alloc, name)
        .long(name)
        .action(ArgAction::SetTrue)
        .help(help)
}

/// The subcommand with one more option.
///
/// # Errors
/// If memory runs out.
pub fn with_option<'a>(command: Command<'a>, option: Arg<'a>) -> Result<Command<'a>, AllocError>
    ensures { IfOk result (λ with. (app : App) (rule : Rule) → HasForm app command.entry → IsOption rule option.entry → HasForm (with_rule app rule) with) }
{
    command.arg(option)
}

/// A fault of the command line, with its text.
pub fn usage(text: Result<String, AllocError>) -> SettingsFault {
    match text {
        Ok(text) => SettingsFault::Usage(text),
        Err(_) => SettingsFault::Memory,
    }
}

/// The value of an option, if it has one.
pub fn given<'a>(options: &ArgMatches<'a>, name: &str) -> Option<&'a str>
    ensures { option_map (λ text. text.now) result ≡ first_of name.now (rows_of (found_of options.now)) }
{
    options.get_str(name)
}

/// Whether an option has a value.
pub fn has_value(options: &ArgMatches<'_>, name: &str) -> bool
    ensures { result ≡ is_some (first_of name.now (rows_of (found_of options.now))) }
{
    given(options, name).is_some()
}

/// The value of an option that has to be given.
///
/// # Errors
/// `Usage` if it isn't, and `Memory`.
pub fn value_of<'a>(
    alloc: Global,
    options: &ArgMatches<'a>,
    name: &str,
) -> Result<&'a str, SettingsFault>
    ensures ok { IfOk result (λ text. Gives name.now (rows_of (found_of options.now)) text.now) }
    ensures refused { IfErr result (IsFaultOf (first_of name.now (rows_of (found_of options.now)) ≡ None)) }
{
    match given(options, name) {
        Some(text) => Ok(text),
        None => Err(usage(format!(in alloc; "error: --{name} has to be given"))),
    }
}

/// The number that is given for an option, decimal without a sign or a leading zero.
///
/// # Errors
/// `Usage` if none from `least` to `most` is, and `Memory`.
#[tactic(auto, using(std::proofs::lemmas::Bool::Decides::nat_tests))]
pub fn number_of(
    alloc: Global,
    options: &ArgMatches<'_>,
    name: &str,
    least: u32,
    most: u32,
) -> Result<u32, SettingsFault>
    ensures within { IfOk result (λ number. (least ≤ number) × (number ≤ most)) }
    ensures ok { IfOk result (GivesNumber name.now least most (rows_of (found_of options.now))) }
    ensures refused { IfErr result (IsFaultOf (GivesNone (GivesNumber name.now least most (rows_of (found_of options.now))))) }
{
    let text = value_of(alloc, options, name)?;
    match read_number(text.as_bytes(), least, most) {
        Some(number) => Ok(number),
        None => Err(usage(format!(in alloc;
            "error: --{name} takes a number from {least} to {most}"
        ))),
    }
}

/// The number that is given for an option, or else another one of its range.
///
/// # Errors
/// `Usage` if the option has a text that is no number from `range.0` to `range.1`, and `Memory`.
pub fn number_or(
    alloc: Global,
    options: &ArgMatches<'_>,
    name: &str,
    range: (u32, u32),
    default: u32,
) -> Result<u32, SettingsFault>
    requires least { range.0 ≤ default }
    requires most { default ≤ range.1 }
    ensures within { IfOk result (λ number. (range.0 ≤ number) × (number ≤ range.1)) }
    ensures ok { IfOk result (GivesNumberOr default name.now range.0 range.1 (rows_of (found_of options.now))) }
    ensures refused { IfErr result (IsFaultOf (GivesNone (GivesNumberOr default name.now range.0 range.1 (rows_of (found_of options.now))))) }
{
    if has_value(options, name) {
        number_of(alloc, options, name, range.0, range.1)
    } else {
        Ok(default)
    }
}

/// Whether a flag is given.
pub fn is_given(options: &ArgMatches<'_>, name: &str) -> bool
    ensures { GivesFlag name.now (rows_of (found_of options.now)) result }
{
    match given(options, name) {
        Some(text) => text == "true",
        None => false,
    }
}
