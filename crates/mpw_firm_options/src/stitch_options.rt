//! The command line of `mpw stitch`.
ghost use Rattle.std.specs.Prelude.{◌≡◌, map, IfOk, IfErr};
ghost use Rattle.std.specs.String.{string_bytes};
ghost use Rattle.clap.specs.Words.{found_of};
ghost use Rattle.mpw_firm_options.specs.Commands.{IsOfStitch};
ghost use Rattle.mpw_firm_options.specs.Given.{IsGivenParts};
ghost use Rattle.mpw_firm_messages.specs.Told.{IsMisuse};

use crate::choices::read_limit;
use crate::options::{Asked, Telling, VERSION, command_words, misuse_of, told_by, usage};
use crate::out_file::{free_option, out_file};
use clap::{Arg, ArgAction, ArgMatches, Command};
use mpw_firm_messages::FirmFault;
use std::alloc::{AllocError, Global};

/// Parts that the command line names. A file `-` is the standard input.
#[derive(Drop)]
pub struct StitchOptions {
    /// The files of the parts.
    pub files: Vec<String>,
    /// The file that the report is written to, if one is wanted.
    pub report: Option<String>,
    /// How many markers of each rule are listed and written at most.
    pub limit: Option<u32>,
}

/// The command line's form.
fn command<'a>(alloc: Global) -> Result<Command<'a>, AllocError> {
    let report = free_option(
        alloc,
        "report",
        "OUT",
        "A file for the markers as a report database, which KLayout opens",
    );
    let limit = free_option(
        alloc,
        "limit",
        "N",
        "Lists and writes the first N markers of each rule at most",
    );
    let files = Arg::new(alloc, "part")
        .value_name("PART")
        .required(true)
        .num_args(1..)
        .action(ArgAction::Append)
        .help("A part that 'mpw check --tiles' printed, - for the standard input");
    Command::new(alloc, "mpw stitch")
        .version(VERSION)
        .about(
            "Stitches the parts of a check that have each column once, and lists the markers of the \
            whole",
        )
        .arg(report)?
        .arg(limit)?
        .arg(files)
}

/// How many of these are the standard input.
fn inputs(words: &[&str]) -> usize {
    words.iter().filter(|word| **word == "-").count()
}

/// The texts, each copied.
fn copies_of(alloc: Global, words: &[&str]) -> Result<Vec<String>, AllocError>
    ensures { IfOk result (λ texts. map string_bytes texts.items ≡ map (λ word. word.now) words.now) }
{
    let mut texts = Vec::new(alloc);
    for word in words {
        texts.push(String::from_str(alloc, word)?)?;
    }
    Ok(texts)
}

/// What the command line's words give.
fn options_in(alloc: Global, matches: &ArgMatches<'_>) -> Result<StitchOptions, FirmFault>
    ensures given { IfOk result (IsGivenParts (found_of matches.now)) }
    ensures refused { IfErr result IsMisuse }
{
    let Some(files) = matches.get_strs("part") else {
        return Err(usage(alloc, "error: a part has to be given"));
    };
    if inputs(files) > 1 {
        return Err(usage(alloc, "error: only one part can be the standard input"));
    }
    let report = out_file(alloc, "report", matches.get_str("report"), files, "a part")?;
    Ok(StitchOptions {
        files: copies_of(alloc, files)?,
        report,
        limit: read_limit(alloc, matches.get_str("limit"))?,
    })
}

/// The options that the words after `stitch` give.
fn options_of(alloc: Global, words: &[&str]) -> Result<StitchOptions, FirmFault>
    ensures { IfErr result IsMisuse }
{
    let words = command_words(alloc, "mpw stitch", words)?;
    match command(alloc)?.try_get_matches_from(words.as_slice()) {
        Ok(matches) => options_in(alloc, &matches),
        Err(error) => Err(misuse_of(alloc, error)),
    }
}

/// What the words after `stitch` ask for; they may ask for a text instead. One pass over the words.
///
/// # Errors
/// `Usage`, with a text that says what is wrong and what is accepted; and `Memory`.
pub fn read_stitch(
    alloc: Global,
    telling: Option<Telling>,
    words: &[&str],
) -> Result<Asked, FirmFault>
    ensures asked { IfOk result (IsOfStitch telling) }
    ensures refused { IfErr result IsMisuse }
{
    match telling {
        None => Ok(Asked::Stitch(options_of(alloc, words)?)),
        Some(telling) => Ok(Asked::Told(told_by(alloc, telling, "mpw stitch", command(alloc)?)?)),
    }
}
