//! A check of a whole layout, done.
ghost use Rattle.std.specs.Prelude.{List, IfOk};
ghost use Rattle.mpw_firm.specs.Came.{IsChecked, PutsAll};
ghost use Rattle.mpw_firm.specs.Held.{enough_for, IsOfBook};
ghost use Rattle.mpw_firm.specs.Shown.{shown_of};
ghost use Rattle.mpw_firm.specs.Uses.{check_inputs, check_outputs};
ghost use Rattle.mpw_markers.specs.declared.marker.Marker.{Marker};
ghost use Rattle.mpw_firm_outputs.specs.Outputs.{AreApart};
ghost use Rattle.mpw_firm_sources.specs.Looks.{IsLookedAt};

use crate::checked::{Checked, Drawn};
use crate::drawing::drawn_by;
use crate::found::{enough_for, found_in};
use crate::laws::markers_are_flat;
use crate::line::Line;
use crate::picture::{drawn_in, put_picture, view_of};
use crate::progress::tell_summary;
use crate::report::write_listed;
use mpw_firm_messages::FirmFault;
use mpw_firm_options::{Choices, Options};
use mpw_firm_outputs::Outputs;
use mpw_firm_sources::{Target, look, notes_of, report_faults, tell_notes};
use mpw_tiles::Snapshot;
use rayon::current_num_threads;
use std::alloc::Global;
use std::thread::Threads;

/// Prints the markers or their numbers, and writes the report and the picture. If what is held is enough for all that is wanted, they are
/// those of all markers.
fn write_all<O: Outputs>(
    means: (&(impl Threads + Sync), Global),
    outputs: &mut O,
    options: &Options,
    layout: &Snapshot,
    checked: &Checked<'_>,
) -> Result<(), FirmFault>
    ensures { (book : List Marker) → IsOfBook (enough_for options.now checked.now.summary checked.now.limit) checked.now book
        → IfOk result (λ _. PutsAll options.now layout.now (shown_of checked.now book) (O.kept outputs.old) (O.kept outputs.new)) }
{
    let (threads, alloc) = means;
    let Some(wanted) = &options.picture else {
        return write_listed(threads, outputs, alloc, &options.report, checked);
    };
    let view = view_of(alloc, wanted, layout, checked)?;
    write_listed(threads, outputs, alloc, &options.report, checked)?;
    let drawn = drawn_in(alloc, layout, view, checked)?;
    put_picture(outputs, alloc, wanted.file.as_str(), checked, &drawn)
}

/// Refuses a check of which a rule looks at nothing, with `--strict`.
fn look_at(alloc: Global, options: &Options, drawn: &Drawn) -> Result<(), FirmFault>
    ensures { IfOk result (λ _. IsLookedAt options.now.strict drawn.now.layout) }
{
    let file = options.file.clone()?;
    let target = Target {
        file: file.as_str(),
        top: &drawn.top,
    };
    look(alloc, options.strict, &target, &drawn.layout)
}

/// Checks what the command line asks for, prints its markers or their numbers, writes its report and its picture and returns how many markers there
/// are, with the elements that are left out for their faults, up to 2^64 - 1. A key that no marker has is refused before anything is printed.
///
/// # Errors
/// A file that can't be read or written, a key that no marker has, a library or a deck with a fault, a device that failed, or want
/// of memory.
pub fn check<O: Outputs>(
    rt: &HostRuntime,
    threads: &(impl Threads + Sync),
    outputs: &mut O,
    options: &Options,
    choices: &Choices,
) -> Result<usize, FirmFault>
    requires apart { AreApart (O.files outputs.old) (check_inputs options.now) (check_outputs options.now) }
    ensures { IfOk result (IsChecked options.now choices.now (O.kept outputs.old) (O.kept outputs.new)) }
{
    let mut line = Line::new(rt, current_num_threads(threads));
    let drawn = drawn_by(rt, outputs, options, choices)?;
    let given = &drawn;
    let file = options.file.as_str();
    let notes = notes_of(rt.alloc(), &given.layout)?;
    let told = notes.as_slice();
    let _ = tell_notes(rt, told);
    look_at(rt.alloc(), options, given)?;
    let left_out = report_faults(rt.alloc(), given.left_out.as_slice())?;
    let faults = left_out.as_slice();
    let layout = &given.layout;
    let found = &found_in(rt, threads, layout, enough_for(options, choices), &mut line)?;
    let rules = layout.deck().rules().as_slice();
    let checked = Checked {
        top: &given.top,
        rules,
        parts: &given.parts,
        found,
        original: Some(file),
        limit: choices.limit,
        notes: told,
        summary: choices.summary,
        faults,
    };
    let _ = tell_summary(rt, layout, &checked, &line);
    markers_are_flat();
    write_all((threads, rt.alloc()), outputs, options, layout, &checked)?;
    line.tell_times();
    Ok(found.all.saturating_add(faults.len()))
}
