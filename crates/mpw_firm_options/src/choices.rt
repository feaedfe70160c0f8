//! What a command line chooses of a check beside its files: some of its columns, or the whole with what is chosen of it.
ghost use Rattle.std.specs.Prelude.{◌≡◌, ◌^◌, ◌-◌, None, Some, false, option_map, IfOk, IfErr};
ghost use Rattle.clap.specs.Words.{found_of};
ghost use Rattle.mpw_firm_spread.specs.Ranges.{range_of};
ghost use Rattle.mpw_text.specs.Text.{number_of};
ghost use Rattle.mpw_firm_options.specs.Given.{IsAlone, IsPortion, IsSkipped};
ghost use Rattle.mpw_firm_messages.specs.Told.{IsMisuse};

use crate::options::usage;
use crate::out_file::free_option;
use clap::{Arg, ArgAction, ArgMatches, Command};
use mpw_firm_choices::{TileSide, read_layers};
use mpw_firm_messages::FirmFault;
use mpw_firm_spread::{ColumnRange, read_range};
use mpw_geom::Layer;
use mpw_text::read_number;
use std::alloc::{AllocError, Global};

/// What is chosen of a check of the whole.
#[derive(Drop)]
pub struct Choices {
    /// The side of the tiles, instead of the deck's.
    pub tile: Option<TileSide>,
    /// The layers whose elements are left out before the library is read.
    pub skip: Vec<Layer>,
    /// Whether the structures that the checked one doesn't reach are left out.
    pub unreached: bool,
    /// Whether the elements that have a fault of their own are left out.
    pub faultless: bool,
    /// How many markers of each rule are listed, written and drawn at most.
    pub limit: Option<u32>,
    /// Whether all faults of the library's elements are printed, if it has one.
    pub faults: bool,
    /// Whether the numbers of markers by rule are printed instead of the listing.
    pub summary: bool,
}

/// What is checked of a layout.
#[derive(Drop)]
pub enum Portion {
    /// The whole.
    Whole(Choices),
    /// Some columns, whose part is wanted in place of the markers of the whole.
    Columns(ColumnRange),
}

/// An option without a value.
fn flag<'a>(alloc: Global, name: &'a str, help: &'a str) -> Arg<'a> {
    Arg::new(alloc, name)
        .long(name)
        .action(ArgAction::SetTrue)
        .help(help)
}

/// The command line's form, with those of these options that have no value.
fn with_flags<'a>(alloc: Global, command: Command<'a>) -> Result<Command<'a>, AllocError> {
    let unreached = flag(
        alloc,
        "skip-unreached",
        "With --top, leaves out the structures that it doesn't reach, and prints their faults",
    );
    let faulty = flag(
        alloc,
        "skip-faulty",
        "Leaves out the elements with a fault of their own, and prints each; the status is then never 0",
    );
    let faults = flag(
        alloc,
        "faults",
        "Prints the fault of each element, and not only the first",
    );
    let summary = flag(
        alloc,
        "summary",
        "Prints the number of markers of each rule and of all, instead of their listing",
    );
    command
        .arg(unreached)?
        .arg(faulty)?
        .arg(faults)?
        .arg(summary)
}

/// The command line's form, with these options.
pub fn with_choices<'a>(alloc: Global, command: Command<'a>) -> Result<Command<'a>, AllocError> {
    let tiles = free_option(
        alloc,
        "tiles",
        "TILES",
        "Checks some columns, and prints their part for 'mpw stitch': K/N, the K-th of N shares; \
        or A-B, from column A to column B, both included and counted from 0",
    );
    let tile = free_option(
        alloc,
        "tile",
        "SIDE",
        "The side of the tiles in nm, 256 to 2^30, instead of the deck's: the markers are the same",
    );
    let skip = free_option(
        alloc,
        "skip-layers",
        "L/D,..",
        "Leaves out the elements on these layers, with their faults",
    );
    let limit = free_option(
        alloc,
        "limit",
        "N",
        "Lists, writes and draws the first N markers of each rule at most",
    );
    let command = command.arg(tiles)?.arg(tile)?.arg(skip)?.arg(limit)?;
    with_flags(alloc, command)
}

/// The columns that a word names.
fn read_columns(alloc: Global, columns: &str) -> Result<ColumnRange, FirmFault>
    ensures read { IfOk result (λ range. range_of columns.now ≡ Some range) }
    ensures refused { IfErr result IsMisuse }
{
    match read_range(alloc, columns.as_bytes())? {
        Some(range) => Ok(range),
        None => Err(usage(
            alloc,
            "error: --tiles takes K/N, the K-th of N shares, N up to 4096; or A-B, from column A to \
            column B, both included and counted from 0",
        )),
    }
}

/// The side that a word names, if there is one.
fn read_tile(alloc: Global, tile: Option<&str>) -> Result<Option<TileSide>, FirmFault>
    ensures read { IfOk result (λ read. option_map (number_of 256 (2 ^ 30)) (option_map (λ text. text.now) tile.entry) ≡ option_map Some read) }
    ensures refused { IfErr result IsMisuse }
{
    let Some(tile) = tile else {
        return Ok(None);
    };
    match TileSide::read(tile.as_bytes()) {
        Some(side) => Ok(Some(side)),
        None => Err(usage(
            alloc,
            "error: --tile takes the side of the tiles in nm, from 256 to 1073741824",
        )),
    }
}

/// The layers that a word names, if there is one.
fn read_skip(alloc: Global, skip: Option<&str>) -> Result<Vec<Layer>, FirmFault>
    ensures read { IfOk result (λ layers. IsSkipped (option_map (λ text. text.now) skip.entry) layers.items) }
    ensures refused { IfErr result IsMisuse }
{
    let Some(skip) = skip else {
        return Ok(Vec::new(alloc));
    };
    match read_layers(alloc, skip.as_bytes())? {
        Some(layers) => Ok(layers),
        None => Err(usage(
            alloc,
            "error: --skip-layers takes layers with commas between them, as 63/0,63/1: each is two \
            numbers to 65535 with a slash between them",
        )),
    }
}

/// The limit that a word names, if there is one.
pub(crate) fn read_limit(alloc: Global, limit: Option<&str>) -> Result<Option<u32>, FirmFault>
    ensures read { IfOk result (λ read. option_map (number_of 1 (2 ^ 32 - 1)) (option_map (λ text. text.now) limit.entry) ≡ option_map Some read) }
    ensures refused { IfErr result IsMisuse }
{
    let Some(limit) = limit else {
        return Ok(None);
    };
    match read_number(limit.as_bytes(), 1, u32::MAX) {
        Some(limit) => Ok(Some(limit)),
        None => Err(usage(
            alloc,
            "error: --limit takes a number of markers, from 1 to 4294967295",
        )),
    }
}

/// Refuses an option beside `--tiles`.
fn alone(alloc: Global, other: Option<&str>, text: &str) -> Result<(), FirmFault>
    ensures none { IfOk result (λ _. option_map (λ text. text.now) other.entry ≡ None) }
    ensures refused { IfErr result IsMisuse }
{
    match other {
        None => Ok(()),
        Some(_) => Err(usage(alloc, text)),
    }
}

/// Refuses a flag beside `--tiles`.
fn unflagged(alloc: Global, flag: bool, text: &str) -> Result<(), FirmFault>
    ensures none { IfOk result (λ _. flag ≡ false) }
    ensures refused { IfErr result IsMisuse }
{
    if flag {
        Err(usage(alloc, text))
    } else {
        Ok(())
    }
}

/// Refuses what a part can't have.
fn columns_alone(alloc: Global, matches: &ArgMatches<'_>) -> Result<(), FirmFault>
    ensures alone { IfOk result (λ _. IsAlone (found_of matches.now)) }
    ensures refused { IfErr result IsMisuse }
{
    let report = "error: a part has no report: give --report to 'mpw stitch'";
    alone(alloc, matches.get_str("report"), report)?;
    let picture = "error: a part has no picture: draw it with a check of all columns";
    alone(alloc, matches.get_str("picture"), picture)?;
    let tile = "error: a part is of columns, and has no tiles: --tile is for a check of all";
    alone(alloc, matches.get_str("tile"), tile)?;
    let skip = "error: a part is of the whole library: --skip-layers is for a check of all";
    alone(alloc, matches.get_str("skip-layers"), skip)?;
    let limit = "error: a part has all markers of its columns: give --limit to 'mpw stitch'";
    alone(alloc, matches.get_str("limit"), limit)?;
    let unreached = "error: a part is of the whole library: --skip-unreached is for a check of all";
    unflagged(alloc, matches.get_flag("skip-unreached"), unreached)?;
    let faulty = "error: a part is of the whole library: --skip-faulty is for a check of all";
    unflagged(alloc, matches.get_flag("skip-faulty"), faulty)?;
    let faults = "error: a part is of a library without faults: give --faults to a check of all";
    unflagged(alloc, matches.get_flag("faults"), faults)?;
    let summary = "error: a part has all markers of its columns: --summary is for a check of all";
    unflagged(alloc, matches.get_flag("summary"), summary)
}

/// What the command line's words choose.
///
/// # Errors
/// `Usage`, with a text that says what is wrong; and `Memory`.
pub fn read_portion(alloc: Global, matches: &ArgMatches<'_>) -> Result<Portion, FirmFault>
    ensures portion { IfOk result (IsPortion (found_of matches.now)) }
    ensures refused { IfErr result IsMisuse }
{
    match matches.get_str("tiles") {
        Some(columns) => {
            columns_alone(alloc, matches)?;
            Ok(Portion::Columns(read_columns(alloc, columns)?))
        }
        None => Ok(Portion::Whole(Choices {
            tile: read_tile(alloc, matches.get_str("tile"))?,
            skip: read_skip(alloc, matches.get_str("skip-layers"))?,
            unreached: matches.get_flag("skip-unreached"),
            faultless: matches.get_flag("skip-faulty"),
            limit: read_limit(alloc, matches.get_str("limit"))?,
            faults: matches.get_flag("faults"),
            summary: matches.get_flag("summary"),
        })),
    }
}
