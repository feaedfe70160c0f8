//! Parts stitched, and the markers of the whole.
ghost use Rattle.std.specs.Prelude.{◌≡◌, List, Some, IfOk, IfErr};
ghost use Rattle.mpw_firm_parts.specs.Parts.{Found};
ghost use Rattle.mpw_firm_parts.specs.Reading.{begins_as_part, is_older, part_of};
ghost use Rattle.mpw_firm.specs.Came.{IsStitched};
ghost use Rattle.mpw_firm_outputs.specs.Outputs.{AreApart};
ghost use Rattle.mpw_firm_messages.specs.Told.{Refuses};
ghost use Rattle.mpw_firm.specs.Stitched.{IsOfFile, IsWholeOf, unread_text};
ghost use Rattle.mpw_firm.specs.Uses.{stitch_inputs, stitch_outputs};

use crate::checked::Checked;
use crate::found::Findings;
use crate::progress::{tell_limit, tell_markers};
use crate::report::write_listed;
use crate::whole::{Whole, whole_of};
use mpw_firm_grid::Parts;
use mpw_firm_messages::{FirmFault, PartFile, damaged_part, no_part, older_part};
use mpw_firm_options::StitchOptions;
use mpw_firm_outputs::Outputs;
use mpw_firm_parts::{Part, begins_as_part, is_older_part, read_part};
use mpw_firm_sources::{Content, read_file, rule_notes};
use std::alloc::{AllocError, Global};
use std::io;
use std::thread::Threads;

/// The sentence about a file whose text is no part.
fn unread_part(alloc: Global, file: &str, text: &[u8]) -> FirmFault
    ensures { Refuses (unread_text (is_older text.now) (begins_as_part text.now) file.now) result }
{
    if is_older_part(text) {
        older_part(alloc, file)
    } else if begins_as_part(text) {
        damaged_part(alloc, file)
    } else {
        no_part(alloc, file)
    }
}

/// The part that a file's text is.
fn part_in(alloc: Global, file: &str, text: &[u8]) -> Result<Part, FirmFault>
    ensures part { IfOk result (λ part. part_of text.now ≡ Some part) }
    ensures refused { IfErr result (IsOfFile file.now text.now) }
{
    match read_part(alloc, text) {
        Ok(Some(part)) => Ok(part),
        Ok(None) => Err(unread_part(alloc, file, text)),
        Err(_) => Err(FirmFault::Memory),
    }
}

/// The whole of the parts of files, in order.
fn whole_in(rt: &HostRuntime, names: &[String]) -> Result<Whole, FirmFault>
    ensures { IfOk result (λ whole. (parts : List Found) × IsWholeOf parts whole) }
{
    let alloc = rt.alloc();
    let mut parts = Vec::new(alloc);
    let mut files = Vec::new(alloc);
    for name in names {
        let text = read_file(rt, name.as_str(), Content::Part)?;
        let part = part_in(alloc, name.as_str(), &text)?;
        files
            .push(PartFile::of(name.as_str(), &part))
            .map_err(AllocError::from)?;
        parts.push(part).map_err(AllocError::from)?;
    }
    whole_of(alloc, files.as_slice(), parts)
}

/// Prints of how many parts the markers were stitched, how many these are, and of which rules some are left out.
fn tell_stitched(
    rt: &HostRuntime,
    parts: usize,
    columns: u32,
    checked: &Checked<'_>,
) -> io::Result<()> {
    eprint!(rt; "{parts} parts, {columns} columns, ")?;
    tell_markers(rt, checked)?;
    eprintln!(rt; "")?;
    tell_limit(rt, checked)
}

/// Stitches the parts that the command line names, prints the markers, writes the report and returns how many markers there are.
///
/// # Errors
/// A file that can't be read or written, one that is no part, parts that don't fit, a device that failed, or out of memory.
pub fn stitch<O: Outputs>(
    rt: &HostRuntime,
    threads: &(impl Threads + Sync),
    outputs: &mut O,
    options: &StitchOptions,
) -> Result<usize, FirmFault>
    requires apart { AreApart (O.files outputs.old) (stitch_inputs options.now) (stitch_outputs options.now) }
    ensures { IfOk result (IsStitched options.now (O.kept outputs.old) (O.kept outputs.new)) }
{
    let alloc = rt.alloc();
    let Whole {
        top,
        columns,
        deck,
        book,
    } = whole_in(rt, options.files.as_slice())?;
    let rules = deck.rules().as_slice();
    let notes = rule_notes(alloc, rules)?;
    let many = book.len();
    let found = Findings::of_book(alloc, rules, book)?;
    let whole = Parts::whole();
    let checked = Checked {
        top: &top,
        rules,
        parts: &whole,
        found: &found,
        original: None,
        limit: options.limit,
        notes: notes.as_slice(),
        summary: false,
        faults: &[],
    };
    let _ = tell_stitched(rt, options.files.len(), columns, &checked);
    write_listed(threads, outputs, alloc, &options.report, &checked)?;
    Ok(many)
}
