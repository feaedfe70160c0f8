//! The check of some columns, whose part is printed.
ghost use Rattle.std.specs.Prelude.{◌≡◌, ◌≤◌, ◌^◌, length, IfOk, IfErr};
ghost use Rattle.mpw_firm_spread.specs.Spread.{IsPartOf};
ghost use Rattle.mpw_firm.specs.Came.{IsPartChecked};
ghost use Rattle.mpw_firm.specs.Drawings.{IsReadFrom};
ghost use Rattle.mpw_firm.specs.Ranges.{HasColumnsOf, IsOfRange};
ghost use Rattle.mpw_firm_outputs.specs.Outputs.{AreApart};
ghost use Rattle.mpw_firm.specs.Uses.{check_inputs, check_outputs};

use crate::drawing::drawn_of;
use crate::grid::grid_of;
use crate::line::Line;
use crate::progress::{count_of, tell_part};
use mpw_columns_keys::Column;
use mpw_firm_messages::{FirmFault, beyond_plan};
use mpw_firm_options::Options;
use mpw_firm_outputs::{Outputs, Place, Text, put};
use mpw_firm_parts::Part;
use mpw_firm_sources::{
    Content, Source, Target, look, notes_of, read_file, read_library, tell_notes,
};
use mpw_firm_spread::{ColumnRange, Plan, check_part, columns_for_shares, subject_of};
use mpw_tiles::Snapshot;
use rayon::current_num_threads;
use std::alloc::{AllocError, Global};
use std::thread::Threads;

/// A structure of which some columns are checked, and the texts that it was read of.
#[derive(Clone, Copy, Drop)]
pub struct PartAsked<'a> {
    /// The library's file, and the structure.
    pub target: Target<'a>,
    /// The structure under the deck.
    pub layout: &'a Snapshot,
    /// The deck's text.
    pub deck: &'a [u8],
    /// The library's text.
    pub library: &'a [u8],
}

/// The same bytes.
fn copy_of(alloc: Global, bytes: &[u8]) -> Result<Vec<u8>, AllocError>
    ensures { IfOk result (λ copy. copy.items ≡ bytes.now) }
{
    let mut copy = Vec::new(alloc);
    copy.extend_from_slice(bytes)?;
    Ok(copy)
}

/// How many columns there are.
fn count(columns: &[Column]) -> u32
    requires { length columns.now ≤ 2 ^ 22 }
    ensures { result ≡ length columns.now }
{
    columns.len() as u32
}

/// The part of the columns that are asked for.
fn part_of(
    rt: &HostRuntime,
    threads: &(impl Threads + Sync),
    asked: &PartAsked<'_>,
    range: ColumnRange,
    line: &mut Line<'_>,
) -> Result<Part, FirmFault>
    requires { IsReadFrom asked.now.deck.now asked.now.target.top.now asked.now.library.now asked.now.layout.now }
    ensures made { IfOk result (IsPartOf (record { deck = asked.now.deck.now; top = asked.now.target.top.now; library = asked.now.library.now })) }
    ensures asked { IfOk result (HasColumnsOf asked.now.layout.now range) }
    ensures refused { IfErr result (IsOfRange asked.now.layout.now range) }
{
    let (alloc, snapshot) = (rt.alloc(), asked.layout);
    line.tell_read(snapshot, true);
    let columns = columns_for_shares(alloc, snapshot)?;
    let columns = columns.as_slice();
    let total = count(columns);
    let plan = Plan { snapshot, columns };
    let found = plan.span(alloc, range)?;
    let Some(span) = found else {
        return Err(beyond_plan(alloc, total));
    };
    let (deck, top) = (copy_of(alloc, asked.deck)?, asked.target.top.copy()?);
    let subject = subject_of(asked.library, deck, top, snapshot.extent(), total);
    let part = check_part(threads, alloc, subject, plan, span, line);
    line.end();
    Ok(part?)
}

/// Checks the columns that the command line asks for, prints their part and returns how many markers they have.
///
/// # Errors
/// Columns that the layout hasn't, a file that can't be read, a library or a deck with a fault, a device that failed, or out of memory.
#[tactic(auto, using(crate::proofs::Flat::part_read, crate::proofs::Flat::part_named))]
pub fn check_range<O: Outputs>(
    rt: &HostRuntime,
    threads: &(impl Threads + Sync),
    outputs: &mut O,
    options: &Options,
    range: ColumnRange,
) -> Result<usize, FirmFault>
    requires apart { AreApart (O.files outputs.old) (check_inputs options.now) (check_outputs options.now) }
    ensures { IfOk result (IsPartChecked options.now range (O.kept outputs.old) (O.kept outputs.new)) }
{
    let mut line = Line::new(rt, current_num_threads(threads));
    let deck = read_file(rt, options.deck.as_str(), Content::Deck)?;
    let library = read_library(rt, options.file.as_str())?;
    let _ = grid_of(rt.alloc(), options.file.as_str(), Some("--tiles"), &library)?;
    let source = Source::new(rt.alloc(), &[], None, false, library)?;
    let drawn = drawn_of(rt, options, &None, &deck, &source)?;
    let target = Target {
        file: options.file.as_str(),
        top: &drawn.top,
    };
    let notes = notes_of(rt.alloc(), &drawn.layout)?;
    let told = notes.as_slice();
    let _ = tell_notes(rt, told);
    look(rt.alloc(), options.strict, &target, &drawn.layout)?;
    let asked = PartAsked {
        target,
        layout: &drawn.layout,
        deck: deck.as_slice(),
        library: source.text(),
    };
    let part = part_of(rt, threads, &asked, range, &mut line)?;
    let _ = tell_part(rt, &drawn.layout, &part, &line);
    put(outputs, rt.alloc(), Place::Standard, &Text::Part(&part))?;
    line.tell_times();
    Ok(count_of(part.lists()))
}
