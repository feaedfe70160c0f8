//! What is checked, of the texts of a deck and a library. `specs/Drawings.antt` has what contracts say of it.
ghost use Rattle.std.specs.Prelude.{◌≡◌, ℕ, List, None, false, map, option_map, IfOk, IfErr};
ghost use Rattle.std.specs.String.{string_bytes};
ghost use Rattle.mpw_check.specs.Drawn.{IsDrawnFrom};
ghost use Rattle.mpw_firm_choices.specs.Tops.{only_top};
ghost use Rattle.mpw_firm.specs.Drawings.{above, IsDeckOf, IsDrawnBy, IsDrawnOf, IsOfDrawing, IsOfNoTop, IsOfSource, IsOfTexts, IsReadBy, IsTopOf, no_top_text};
ghost use Rattle.mpw_firm_messages.specs.ToldFaults.{IsOfDeck, check_told};
ghost use Rattle.mpw_firm_sources.specs.Seen.{told_left_out, told_seen};
ghost use Rattle.mpw_firm_sources.specs.Sources.{kept_text};
ghost use Rattle.mpw_firm_messages.specs.Told.{Refuses, Tells};

use crate::checked::Drawn;
use crate::faulty::{faulty, tell_skipped};
use crate::grid::{GridDeck, grid_deck, grid_of, library_on, whole_option};
use mpw_check::{CheckFault, read_layout};
use mpw_deck::Deck;
use mpw_elements::ReadError;
use mpw_firm_choices::{TileSide, only_top, with_side};
use mpw_firm_grid::Parts;
use mpw_firm_messages::{FirmFault, check_fault, library_fault, refusal};
use mpw_firm_options::{Choices, Options};
use mpw_firm_outputs::Outputs;
use mpw_firm_sources::{
    Content, Source, Target, deck_of, left_out_seen, read_file, read_library, tell_left_out,
    tell_tops,
};
use mpw_geom::Name;
use mpw_hier::HierFault;
use mpw_tiles::Snapshot;
use std::alloc::Global;

/// Whether a library has no structure of the name that is asked for.
fn is_of_top(fault: &CheckFault) -> bool {
    matches!(fault, CheckFault::Structure(HierFault::NoTop))
}

/// What is printed about a library of that text that isn't checked.
pub fn refusal_of(
    rt: &HostRuntime,
    target: &Target<'_>,
    fault: &CheckFault,
    text: &[u8],
) -> FirmFault
    ensures { Tells (check_told target.now.file.now target.now.top.now fault.now text.now) result }
{
    check_fault(rt.alloc(), target.file, target.top.as_str(), fault, text)
}

/// What is printed about a library if no structure is named, and not just one isn't placed.
#[tactic(auto, unfolding(crate::specs::Drawings::no_top_text))]
fn several_tops(alloc: Global, file: &str) -> FirmFault
    ensures { Refuses (no_top_text file.now) result }
{
    refusal(format!(in alloc;
        "{file}: not just one structure is placed by no other: name the one to check with --top"
    ))
}

/// The same, or what is printed about its first fault, if it has one.
fn no_top(rt: &HostRuntime, file: &str, source: &Source<'_>) -> FirmFault
    requires { only_top (kept_text source.now) ≡ None }
    ensures { IsOfNoTop file.now source.now result }
{
    match mpw_library::read_shared(rt.alloc(), source.shared()) {
        Ok(_) => {
            let _ = tell_tops(rt, file, source.kept());
            several_tops(rt.alloc(), file)
        }
        Err(ReadError::Fault(fault)) => {
            library_fault(rt.alloc(), file, source.moved_fault(fault), source.text())
        }
        Err(ReadError::Memory) => FirmFault::Memory,
    }
}

/// The name of the structure that is checked.
fn top_of(rt: &HostRuntime, options: &Options, source: &Source<'_>) -> Result<Name, FirmFault>
    ensures top { IfOk result (IsTopOf options.now.top (kept_text source.now)) }
    ensures refused { IfErr result (IsOfNoTop (string_bytes options.now.file) source.now) }
{
    match &options.top {
        Some(top) => Ok(top.copy()?),
        None => match only_top(rt.alloc(), source.kept())? {
            Some(top) => Ok(top),
            None => Err(no_top(rt, options.file.as_str(), source)),
        },
    }
}

/// The structure of that name under a deck.
fn drawn_at(
    rt: &HostRuntime,
    target: &Target<'_>,
    deck: Deck,
    source: &Source<'_>,
) -> Result<Snapshot, FirmFault>
    ensures drawn { IfOk result (IsDrawnFrom deck target.now.top.now (kept_text source.now)) }
    ensures refused { IfErr result (IsOfSource target.now.file.now target.now.top.now source.now) }
{
    match read_layout(rt.alloc(), deck, target.top, source.shared()) {
        Ok(layout) => Ok(layout),
        Err(fault) => {
            if is_of_top(&fault) {
                let _ = tell_tops(rt, target.file, source.kept());
            }
            Err(refusal_of(rt, target, &source.moved(fault), source.text()))
        }
    }
}

/// The same, with its name, and with the elements that are left out for their faults.
fn drawn_with(
    rt: &HostRuntime,
    file: &str,
    top: Name,
    grid: GridDeck,
    source: &Source<'_>,
) -> Result<Drawn, FirmFault>
    ensures top { IfOk result (λ drawn. drawn.top ≡ top) }
    ensures drawn { IfOk result (λ drawn. IsDrawnFrom grid.deck top (kept_text source.now) drawn.layout) }
    ensures left { IfOk result (λ drawn. map told_seen drawn.left_out.items ≡ told_left_out source.now top) }
    ensures counts { IfOk result (λ drawn. drawn.parts ≡ grid.parts) }
    ensures refused { IfErr result (IsOfSource file.now top source.now) }
{
    let left_out = left_out_seen(rt.alloc(), source, &top)?;
    let target = Target { file, top: &top };
    let GridDeck { deck, parts } = grid;
    match drawn_at(rt, &target, deck, source) {
        Ok(layout) => Ok(Drawn {
            top,
            layout,
            left_out,
            parts,
        }),
        Err(fault) => Err(fault),
    }
}

/// The structure that is checked, under a deck. If it isn't there, the names of those that nothing places are printed on the standard error.
///
/// # Errors
/// `Refused` if the library's text has a fault, or the structure can't be checked; and `Memory`.
fn drawn_under(
    rt: &HostRuntime,
    options: &Options,
    grid: GridDeck,
    source: &Source<'_>,
) -> Result<Drawn, FirmFault>
    ensures drawn { IfOk result (IsDrawnBy options.now.top grid.deck source.now) }
    ensures counts { IfOk result (λ drawn. drawn.parts ≡ grid.parts) }
    ensures refused { IfErr result (IsOfDrawing (string_bytes options.now.file) options.now.top source.now) }
{
    match top_of(rt, options, source) {
        Ok(top) => drawn_with(rt, options.file.as_str(), top, grid, source),
        Err(fault) => Err(fault),
    }
}

/// The deck of a text, with that side of its tiles if there is one.
fn deck_under(
    alloc: Global,
    options: &Options,
    side: &Option<TileSide>,
    text: &[u8],
) -> Result<Deck, FirmFault>
    ensures deck { IfOk result (IsDeckOf side.now text.now) }
    ensures refused { IfErr result (IsOfDeck (string_bytes options.now.deck) text.now) }
{
    match deck_of(alloc, options.deck.as_str(), text) {
        Ok(deck) => Ok(with_side(deck, side)?),
        Err(fault) => Err(fault),
    }
}

/// What is checked, of the texts of a deck and a library, with that side of the tiles if there is one.
///
/// # Errors
/// `Refused` if the deck's text has a fault, and if it hasn't, as [`drawn_under`]; and `Memory`.
pub fn drawn_of(
    rt: &HostRuntime,
    options: &Options,
    side: &Option<TileSide>,
    text: &[u8],
    source: &Source<'_>,
) -> Result<Drawn, FirmFault>
    ensures drawn { IfOk result (IsDrawnOf options.now.top side.now text.now source.now) }
    ensures refused { IfErr result (IsOfTexts options.now side.now text.now source.now) }
{
    match deck_under(rt.alloc(), options, side, text) {
        Ok(deck) => {
            let parts = Parts::whole();
            drawn_under(rt, options, GridDeck { deck, parts }, source)
        }
        Err(fault) => Err(fault),
    }
}

/// The structure which has to reach what is read, if that is asked for.
fn above<'a>(options: &'a Options, choices: &Choices) -> Option<&'a Name>
    ensures { option_map (λ name. name.now) result ≡ above choices.now.unreached options.entry.now.top }
{
    match &options.top {
        Some(top) if choices.unreached => Some(top),
        _ => None,
    }
}

/// What is checked of the whole, of the files that the command line names. What is left out of the library is printed on the standard
/// error, and, if that is asked for, each fault of its elements, which are reported too.
///
/// # Errors
/// A file that can't be read, a deck or a library with a fault, a structure that can't be checked, a report of faults that can't be
/// written, or out of memory.
pub fn drawn_by<O: Outputs>(
    rt: &HostRuntime,
    outputs: &mut O,
    options: &Options,
    choices: &Choices,
) -> Result<Drawn, FirmFault>
    ensures read { IfOk result (λ drawn. (deck library : List ℕ) × IsReadBy options.now.top choices.now deck library drawn) }
    ensures kept { IfOk result (λ _. O.kept outputs.new ≡ O.kept outputs.old) }
    ensures unfaulty { choices.now.faults ≡ false → O.kept outputs.new ≡ O.kept outputs.old }
{
    let text = read_file(rt, options.deck.as_str(), Content::Deck)?;
    let library = read_library(rt, options.file.as_str())?;
    let option = whole_option(options, choices);
    let grid = grid_of(rt.alloc(), options.file.as_str(), option, &library)?;
    let library = library_on(rt.alloc(), &grid, library)?;
    let above = above(options, choices);
    let (skip, faultless) = (choices.skip.as_slice(), choices.faultless);
    let source = Source::new(rt.alloc(), skip, above, faultless, library)?;
    let _ = tell_left_out(rt, options.file.as_str(), &source);
    let _ = tell_skipped(rt, options, &source);
    let deck = deck_under(rt.alloc(), options, &choices.tile, &text)?;
    let rules = deck.rules().copy()?;
    let deck = grid_deck(rt.alloc(), deck, grid)?;
    match drawn_under(rt, options, deck, &source) {
        Ok(drawn) => Ok(drawn),
        Err(fault) => {
            if choices.faults {
                let rules = rules.as_slice();
                return Err(faulty(rt, outputs, options, rules, &source, fault));
            }
            Err(fault)
        }
    }
}
