//! The command line.
ghost use Rattle.std.specs.Prelude.{◌≡◌, ◌∷◌, ◌||◌, Some, option_map, slice_get, IfOk, IfErr};
ghost use Rattle.std.specs.List.{list_any};
ghost use Rattle.std.specs.String.{string_bytes};
ghost use Rattle.mpw_geom.specs.Names.{name_eq};
ghost use Rattle.clap.specs.Words.{found_of};
ghost use Rattle.mpw_firm_options.specs.Given.{IsGiven};
ghost use Rattle.mpw_firm_options.specs.Commands.{IsOfCheck, IsOfWord, IsToldBy, telling_of};
ghost use Rattle.mpw_firm_messages.specs.Told.{IsMisuse, Misuses};

use crate::choices::{Portion, read_portion, with_choices};
use crate::out_file::{free_option, is_among, out_file};
use crate::picture_options::{Wanted, read_wanted, with_picture};
use crate::stitch_options::{StitchOptions, read_stitch};
use clap::error::ErrorKind;
use clap::{Arg, ArgAction, ArgMatches, Command, Error};
use mpw_firm_messages::{FirmFault, misuse};
use mpw_geom::{Name, NameFault};
use std::alloc::{AllocError, Global};

/// The version that `--version` prints, as the file VERSION has it.
pub const VERSION: &str = "0.9.0";

/// A check that the command line asks for. A file `-` is the standard input.
#[derive(Drop)]
pub struct Options {
    /// The file of the deck.
    pub deck: String,
    /// The structure that is checked; without one that which nothing places.
    pub top: Option<Name>,
    /// The file of the library.
    pub file: String,
    /// The file that the report is written to, if one is wanted.
    pub report: Option<String>,
    /// The picture, if one is wanted.
    pub picture: Option<Wanted>,
    /// What is checked of the layout.
    pub portion: Portion,
    /// Whether a layout is refused of which a rule looks at nothing.
    pub strict: bool,
}

/// A text that a command line asks for in place of what a command does.
#[derive(Clone, Copy, Drop)]
pub enum Telling {
    /// What a command's words are.
    Help,
    /// The version.
    Version,
}

/// What the command line asks for.
#[derive(Drop)]
pub enum Asked {
    /// A check.
    Check(Options),
    /// Parts, stitched.
    Stitch(StitchOptions),
    /// The help or the version, with its text.
    Told(String),
}

/// The command line's form.
fn command<'a>(alloc: Global) -> Result<Command<'a>, AllocError> {
    let deck = free_option(
        alloc,
        "deck",
        "DECK",
        "The file of the rules, - for the standard input",
    )
    .required(true);
    let top = free_option(
        alloc,
        "top",
        "STRUCTURE",
        "The structure that is checked; by default the only one that no other structure places",
    );
    let file = Arg::new(alloc, "file")
        .value_name("FILE")
        .required(true)
        .action(ArgAction::Set)
        .help("The GDSII library, - for the standard input");
    let report = free_option(
        alloc,
        "report",
        "OUT",
        "A file for the markers as a report database, which KLayout opens",
    );
    let strict = Arg::new(alloc, "strict")
        .long("strict")
        .action(ArgAction::SetTrue)
        .help("Refuses a deck without rules, and a rule on whose layers there is no shape");
    let command = Command::new(alloc, "mpw check")
        .version(VERSION)
        .about("Checks a structure of a GDSII library under a deck, and lists its markers")
        .arg(deck)?
        .arg(top)?
        .arg(report)?;
    with_choices(alloc, with_picture(alloc, command)?)?
        .arg(strict)?
        .arg(file)
}

/// A fault of the command line, with its text.
pub fn usage(alloc: Global, text: &str) -> FirmFault
    ensures { Misuses text.now result }
{
    misuse(String::from_str(alloc, text))
}

/// The name of a structure that a text is, if there is one.
fn read_top(alloc: Global, text: Option<&str>) -> Result<Option<Name>, FirmFault>
    ensures top { IfOk result (λ top. option_map (λ text. text.now) text.entry ≡ top) }
    ensures refused { IfErr result IsMisuse }
{
    let Some(text) = text else {
        return Ok(None);
    };
    match Name::read(alloc, text.as_bytes()) {
        Ok(top) => Ok(Some(top)),
        Err(NameFault::BadName) => Err(usage(
            alloc,
            "error: --top takes a name of 1 to 255 visible ASCII characters",
        )),
        Err(NameFault::Memory) => Err(FirmFault::Memory),
    }
}

/// What the command line's words give.
fn options_in(alloc: Global, matches: &ArgMatches<'_>) -> Result<Options, FirmFault>
    ensures given { IfOk result (IsGiven (found_of matches.now)) }
    ensures refused { IfErr result IsMisuse }
{
    let (Some(deck), Some(file)) = (matches.get_str("deck"), matches.get_str("file")) else {
        return Err(usage(alloc, "error: --deck and a file have to be given"));
    };
    if deck == "-" && file == "-" {
        return Err(usage(
            alloc,
            "error: the deck and the library can't both be the standard input",
        ));
    }
    let (report, picture) = (matches.get_str("report"), matches.get_str("picture"));
    let portion = read_portion(alloc, matches)?;
    let files = [deck, file, report.unwrap_or("-")];
    let picture = read_wanted(alloc, picture, matches.get_str("marker"), &files)?;
    let over = "the deck or the library";
    let report = out_file(alloc, "report", report, &files[..2], over)?;
    let top = read_top(alloc, matches.get_str("top"))?;
    Ok(Options {
        deck: String::from_str(alloc, deck)?,
        top,
        file: String::from_str(alloc, file)?,
        report,
        picture,
        portion,
        strict: matches.get_flag("strict"),
    })
}

/// What is printed about an error of `clap`.
pub fn misuse_of(alloc: Global, error: Error) -> FirmFault
    ensures { IsMisuse result }
{
    if error.kind() == ErrorKind::OutOfMemory {
        return FirmFault::Memory;
    }
    match error.to_string(alloc) {
        Ok(text) => FirmFault::Usage(text),
        Err(_) => FirmFault::Memory,
    }
}

/// Whether one of the words is the option of that name or of that letter.
fn asks(words: &[&str], name: &str, letter: &str) -> bool
    ensures { result ≡ (list_any (λ word. name_eq word.now name.now) words.now || list_any (λ word. name_eq word.now letter.now) words.now) }
{
    is_among(name, words) | is_among(letter, words)
}

/// The text that the words ask for in place of what a command does. The help goes before the version.
fn telling_of(words: &[&str]) -> Option<Telling>
    ensures { result ≡ telling_of (λ word. word.now) words.now }
{
    if asks(words, "--help", "-h") {
        Some(Telling::Help)
    } else if asks(words, "--version", "-V") {
        Some(Telling::Version)
    } else {
        None
    }
}

/// The text that a command of that name and form is asked for.
#[tactic(auto, unfolding(crate::specs::Commands::version_text))]
pub fn told_by(
    alloc: Global,
    telling: Telling,
    name: &str,
    command: Command<'_>,
) -> Result<String, AllocError>
    ensures { IfOk result (λ text. IsToldBy name.now telling (string_bytes text)) }
{
    let mut command = command;
    match telling {
        Telling::Help => command.render_help(),
        Telling::Version => format!(in alloc; "{name} {VERSION}\n"),
    }
}

/// The words of a command, with its name first.
pub fn command_words<'a>(
    alloc: Global,
    name: &'a str,
    words: &[&'a str],
) -> Result<Vec<&'a str>, AllocError>
    ensures { IfOk result (λ named. named.items ≡ name.entry ∷ words.now) }
{
    let mut named = Vec::new(alloc);
    named.push(name)?;
    named.extend_from_slice(words)?;
    Ok(named)
}

/// The options that the words after `check` give.
fn options_of(alloc: Global, words: &[&str]) -> Result<Options, FirmFault>
    ensures { IfErr result IsMisuse }
{
    let words = command_words(alloc, "mpw check", words)?;
    match command(alloc)?.try_get_matches_from(words.as_slice()) {
        Ok(matches) => options_in(alloc, &matches),
        Err(error) => Err(misuse_of(alloc, error)),
    }
}

/// What the words after `check` ask for; they may ask for a text instead of a check.
fn read_check(alloc: Global, telling: Option<Telling>, words: &[&str]) -> Result<Asked, FirmFault>
    ensures asked { IfOk result (IsOfCheck telling) }
    ensures refused { IfErr result IsMisuse }
{
    match telling {
        None => Ok(Asked::Check(options_of(alloc, words)?)),
        Some(telling) => Ok(Asked::Told(told_by(alloc, telling, "mpw check", command(alloc)?)?)),
    }
}

/// What the words after a command's name ask for.
fn read_command(
    alloc: Global,
    telling: Option<Telling>,
    name: &str,
    words: &[&str],
) -> Result<Asked, FirmFault>
    ensures asked { IfOk result (IsOfWord (Some name.now) telling) }
    ensures refused { IfErr result IsMisuse }
{
    if name == "check" {
        return read_check(alloc, telling, words);
    }
    if name == "stitch" {
        return read_stitch(alloc, telling, words);
    }
    Err(usage(alloc, "error: the first word is check or stitch"))
}

/// What the words of a command line ask for: the program's name, `check` or `stitch`, and the words of that command. If one of
/// the words is `--help` or `-h`, or else `--version` or `-V`, it is that text, whatever the others are. Three passes over the words.
///
/// # Errors
/// `Usage`, with a text that says what is wrong and what is accepted; and `Memory`.
pub fn read_options(alloc: Global, words: &[&str]) -> Result<Asked, FirmFault>
    ensures asked { IfOk result (IsOfWord (option_map (λ word. word.now) (slice_get words.now 1)) (telling_of (λ word. word.now) words.now)) }
    ensures refused { IfErr result IsMisuse }
{
    let telling = telling_of(words);
    match words {
        [_, first, rest @ ..] => read_command(alloc, telling, first, rest),
        _ => Err(usage(alloc, "error: the first word is check or stitch")),
    }
}
