//! A library that is refused, with all faults of its elements printed and reported. `specs/Faulty.antt` has what contracts say of it.
ghost use Rattle.std.specs.Prelude.{◌≡◌, ◌∷◌, [], Some, map, option_map, IfOk, IfErr};
ghost use Rattle.std.specs.String.{string_bytes};
ghost use Rattle.mpw_firm.specs.Faulty.{IsToldFaulty, IsUnfaulty, faulty_content, faulty_texts, some_texts, top_for, top_texts};
ghost use Rattle.mpw_firm_outputs.specs.Outputs.{Grows, IsUnwritten, in_file};
ghost use Rattle.mpw_firm_report.specs.Report.{full_text};
ghost use Rattle.mpw_firm_sources.specs.Seen.{told_seen};
ghost use Rattle.mpw_firm_sources.specs.Sources.{kept_text};
ghost use Rattle.mpw_firm_messages.specs.Told.{CannotBeWritten};

use mpw_deck::Rule;
use mpw_firm_choices::only_top;
use mpw_firm_messages::FirmFault;
use mpw_firm_options::Options;
use mpw_firm_outputs::{Outputs, Place, Text, put};
use mpw_firm_report::{Note, Report};
use mpw_firm_sources::{SeenFault, Source, faults_seen, report_faults, tell_faults, tell_faulty};
use mpw_geom::Name;
use mpw_markers::Marker;
use std::alloc::{AllocError, Global};
use std::io;

/// What a report of faults has besides them: the library's file, the structure, and the deck's rules.
#[derive(Clone, Copy, Drop)]
pub struct Refused<'a> {
    /// The library's file.
    pub file: &'a str,
    /// The structure.
    pub top: &'a Name,
    /// The rules.
    pub rules: &'a [Rule],
}

/// The structure in whose coordinates faults are reported: the one that is named, or the only one that nothing places.
fn top_for(
    alloc: Global,
    options: &Options,
    source: &Source<'_>,
) -> Result<Option<Name>, AllocError>
    ensures { IfOk result (λ top. top ≡ top_for options.now.top (kept_text source.now)) }
{
    match &options.top {
        Some(top) => Ok(Some(top.copy()?)),
        None => only_top(alloc, source.kept()),
    }
}

/// Writes the report of faults into a file.
fn put_faults<O: Outputs>(
    outputs: &mut O,
    alloc: Global,
    file: &str,
    refused: &Refused<'_>,
    seen: &[SeenFault],
) -> Result<(), FirmFault>
    ensures kept { IfOk result (λ _. Grows (O.kept outputs.old) (O.kept outputs.new) (in_file file.now (full_text (faulty_content refused.now.file.now refused.now.top.now refused.now.rules.now (map told_seen seen.now))) ∷ [])) }
    ensures refused { IfErr result (CannotBeWritten file.now) }
{
    let faults = report_faults(alloc, seen)?;
    let markers: &[Marker] = &[];
    let notes = [Note::Unchecked];
    let report = Report {
        original: Some(refused.file),
        top: refused.top,
        rules: refused.rules,
        markers,
        counts: None,
        limit: usize::MAX,
        notes: &notes,
        faults: faults.as_slice(),
    };
    put(outputs, alloc, Place::File(file), &Text::Report(&report))
}

/// Writes the report of faults into a file, if there are some.
fn put_some<O: Outputs>(
    outputs: &mut O,
    alloc: Global,
    file: &str,
    refused: &Refused<'_>,
    seen: &[SeenFault],
) -> Result<(), FirmFault>
    ensures kept { IfOk result (λ _. Grows (O.kept outputs.old) (O.kept outputs.new) (some_texts file.now refused.now.file.now refused.now.top.now refused.now.rules.now (map told_seen seen.now))) }
    ensures refused { IfErr result (CannotBeWritten file.now) }
{
    match seen {
        [] => Ok(()),
        [..] => put_faults(outputs, alloc, file, refused, seen),
    }
}

/// Writes the report of a library's faults in the coordinates of a structure.
fn put_below<O: Outputs>(
    outputs: &mut O,
    alloc: Global,
    file: &str,
    refused: &Refused<'_>,
    source: &Source<'_>,
) -> Result<(), FirmFault>
    ensures kept { IfOk result (λ _. Grows (O.kept outputs.old) (O.kept outputs.new) (top_texts file.now refused.now.file.now (Some refused.now.top.now) refused.now.rules.now source.now)) }
    ensures refused { IfErr result (CannotBeWritten file.now) }
{
    let seen = faults_seen(alloc, source, refused.top)?;
    put_some(outputs, alloc, file, refused, seen.as_slice())
}

/// Writes the report of a library's faults, if a report is wanted, and there is a structure in whose coordinates they are reported.
fn put_wanted<O: Outputs>(
    outputs: &mut O,
    alloc: Global,
    options: &Options,
    rules: &[Rule],
    source: &Source<'_>,
    top: &Option<Name>,
) -> Result<(), FirmFault>
    ensures kept { IfOk result (λ _. Grows (O.kept outputs.old) (O.kept outputs.new) (faulty_texts options.now rules.now source.now top.now)) }
    ensures refused { IfErr result (IsUnwritten (option_map string_bytes options.now.report)) }
{
    match (&options.report, top) {
        (Some(file), Some(top)) => {
            let refused = Refused {
                file: options.file.as_str(),
                top,
                rules,
            };
            put_below(outputs, alloc, file.as_str(), &refused, source)
        }
        (Some(_), None) => Ok(()),
        (None, _) => Ok(()),
    }
}

/// The same in the coordinates of the structure that is asked for.
fn put_for<O: Outputs>(
    outputs: &mut O,
    alloc: Global,
    options: &Options,
    rules: &[Rule],
    source: &Source<'_>,
) -> Result<(), FirmFault>
    ensures kept { IfOk result (λ _. Grows (O.kept outputs.old) (O.kept outputs.new) (faulty_texts options.now rules.now source.now (top_for options.now.top (kept_text source.now)))) }
    ensures refused { IfErr result (IsUnfaulty options.now) }
{
    let top = top_for(alloc, options, source)?;
    put_wanted(outputs, alloc, options, rules, source, &top)
}

/// Prints each element that is left out of a library for its fault.
///
/// # Errors
/// Out of memory, or that of the standard error.
pub fn tell_skipped(rt: &HostRuntime, options: &Options, source: &Source<'_>) -> io::Result<()> {
    if source.faulty().is_empty() {
        return Ok(());
    }
    let top = top_for(rt.alloc(), options, source)?;
    tell_faulty(rt, options.file.as_str(), source, &top)
}

/// Prints each fault of a library.
fn tell_all(rt: &HostRuntime, options: &Options, source: &Source<'_>) -> io::Result<()> {
    let top = top_for(rt.alloc(), options, source)?;
    tell_faults(rt, options.file.as_str(), source, &top)
}

/// Prints each fault of a library that was refused, and writes the report of them that is wanted. What is printed about the whole is that fault
/// still; or that the report can't be written; or out of memory.
pub fn faulty<O: Outputs>(
    rt: &HostRuntime,
    outputs: &mut O,
    options: &Options,
    rules: &[Rule],
    source: &Source<'_>,
    fault: FirmFault,
) -> FirmFault
    ensures { IsToldFaulty options.now rules.now source.now (O.kept outputs.old) (O.kept outputs.new) fault result }
{
    let _ = tell_all(rt, options, source);
    match put_for(outputs, rt.alloc(), options, rules, source) {
        Ok(()) => fault,
        Err(unwritten) => unwritten,
    }
}
