//! What is printed on the standard error about a check that has ended.
ghost use Rattle.std.specs.Prelude.{◌≡◌, nat_lt};
ghost use Rattle.std.specs.List.{list_any};
ghost use Rattle.mpw_firm.specs.Counts.{count_of, has_some};

use crate::checked::Checked;
use crate::line::Line;
use crate::memory::peak;
use mpw_check::checked_tiles;
use mpw_columns_keys::ColumnKeys;
use mpw_firm_outputs::left_out_text;
use mpw_firm_parts::Part;
use mpw_tiles::Snapshot;
use std::io;

/// The most shapes of a submission to a desk.
const MAX_ON_DESK: u64 = 1 << 20;

/// Prints how many markers there are, and how many of each rule.
pub fn tell_markers(rt: &HostRuntime, checked: &Checked<'_>) -> io::Result<()> {
    eprint!(rt; "{} markers", checked.found.all)?;
    for (rule, count) in checked.rules.iter().zip(checked.found.counts.iter()) {
        eprint!(rt; ", {} {count}", rule.name.as_str())?;
    }
    Ok(())
}

/// Prints the time that was taken, if the clock can be read, and the greatest memory, if the system says it.
fn tell_taken(rt: &HostRuntime, taken: Option<u64>) -> io::Result<()> {
    if let Some(taken) = taken {
        eprint!(rt; ", {taken} ms")?;
    }
    if let Some(peak) = peak(rt) {
        eprint!(rt; ", {peak} MB")?;
    }
    Ok(())
}

/// Ends a line with the memory that a check was estimated to take, if the system said what reading took.
fn tell_estimate(
    rt: &HostRuntime,
    layout: &Snapshot,
    checked: &Checked<'_>,
    line: &Line<'_>,
) -> io::Result<()> {
    // A check by tiles has the whole book first.
    let held = match checked_tiles(layout) {
        Some(_) => checked.found.all,
        None => checked.found.markers().len(),
    };
    if let Some(most) = line.estimated(layout, held) {
        eprint!(rt; " of an estimated {most} MB")?;
    }
    eprintln!(rt; "")
}

/// Prints in how many tiles a layout was checked, or that columns were.
fn tell_way(rt: &HostRuntime, snapshot: &Snapshot) -> io::Result<()> {
    match checked_tiles(snapshot) {
        Some(tiles) => eprint!(rt; "{tiles} tiles, "),
        None => eprint!(rt; "by columns, "),
    }
}

/// Prints how many elements are left out for their faults.
fn tell_left(rt: &HostRuntime, checked: &Checked<'_>) -> io::Result<()> {
    let left = checked.faults.len();
    if left == 0 {
        return Ok(());
    }
    eprintln!(rt; "note: elements left out for their faults: {left}: the desk refuses this file")
}

/// Prints the unit, if it is a part of a nanometre.
fn tell_unit(rt: &HostRuntime, checked: &Checked<'_>) -> io::Result<()> {
    let parts = checked.parts.count();
    if parts == 1 {
        return Ok(());
    }
    eprintln!(rt; "note: the unit is 1/{parts} nm: the desk refuses this file")
}

/// Prints what was checked and found, the time and the memory that it took; and what the desk refuses of the layout.
pub fn tell_summary(
    rt: &HostRuntime,
    layout: &Snapshot,
    checked: &Checked<'_>,
    line: &Line<'_>,
) -> io::Result<()> {
    let shapes = layout.shelf().count(0);
    eprint!(rt; "{shapes} shapes, ")?;
    tell_way(rt, layout)?;
    tell_markers(rt, checked)?;
    tell_taken(rt, line.taken())?;
    tell_estimate(rt, layout, checked, line)?;
    tell_unit(rt, checked)?;
    tell_left(rt, checked)?;
    if shapes > MAX_ON_DESK {
        eprintln!(rt; "note: more than 1048576 shapes: the desk takes no more")?;
    }
    tell_limit(rt, checked)
}

/// Prints of which rules markers are left out, and how many.
///
/// # Errors
/// Out of memory, or that of the standard error.
pub fn tell_limit(rt: &HostRuntime, checked: &Checked<'_>) -> io::Result<()> {
    let counts = checked.found.counts.as_slice();
    let notes = left_out_text(rt.alloc(), checked.rules, counts, checked.limit)?;
    eprint!(rt; "{}", notes.as_str())
}

/// How many markers the lists have together, up to 2^64 - 1.
pub fn count_of(lists: &[ColumnKeys]) -> usize
    ensures count { result ≡ count_of lists.now }
    ensures some { nat_lt 0 result ≡ list_any has_some lists.now }
{
    let mut count = 0usize;
    for list in lists {
        count = count.saturating_add(list.len());
    }
    count
}

/// Prints which of the columns were checked, how many markers these have, and the time and the memory that it took.
pub fn tell_part(
    rt: &HostRuntime,
    snapshot: &Snapshot,
    part: &Part,
    line: &Line<'_>,
) -> io::Result<()> {
    let (columns, checked) = (part.subject().columns(), part.lists().len());
    let shapes = snapshot.shelf().count(0);
    eprint!(rt;
        "{shapes} shapes, {checked} of {columns} columns from {}, {} markers in them",
        part.first(),
        count_of(part.lists())
    )?;
    tell_taken(rt, line.taken())?;
    eprintln!(rt; "")
}
