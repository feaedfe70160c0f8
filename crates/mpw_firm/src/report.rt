//! The listing and the report of a check. KLayout's marker browser opens the latter.
ghost use Rattle.std.specs.Prelude.{◌≡◌, ◌∷◌, ◌⊎◌, [], List, true, false, option_map, IfOk, IfErr};
ghost use Rattle.std.specs.String.{string_bytes};
ghost use Rattle.mpw_firm.specs.Came.{listing_texts};
ghost use Rattle.mpw_firm.specs.Held.{enough_listed, IsOfBook};
ghost use Rattle.mpw_firm.specs.Shown.{held_content, held_limited, held_printed, held_report, markers_of, shown_of};
ghost use Rattle.mpw_firm_listing.specs.Limited as limits;
ghost use Rattle.mpw_firm_listing.specs.Listing as listing;
ghost use Rattle.mpw_markers.specs.declared.marker.Marker.{Marker};
ghost use Rattle.mpw_firm_outputs.specs.Outputs.{on_output, Grows, IsUnwritten};
ghost use Rattle.mpw_firm_report.specs.Content as told;
ghost use Rattle.mpw_firm_messages.specs.Told.{OutputFails};

use crate::checked::Checked;
use crate::found::Held;
use mpw_firm_listing::{Limited, Listing, first_markers_are_listed};
use mpw_firm_messages::FirmFault;
use mpw_firm_outputs::{Counts, Outputs, Place, Text, put, put_listing};
use mpw_firm_report::{Report, first_markers_have_the_items};
use std::alloc::Global;
use std::thread::Threads;

/// The listing of all markers that are held.
fn listing<'a>(checked: &Checked<'a>) -> Listing<'a>
    ensures { listing.listing_of result ≡ listing.listing_text checked.now.parts.now checked.now.top.now checked.now.rules.now (markers_of checked.now.found.now.held) }
{
    Listing {
        top: checked.top,
        rules: checked.rules,
        markers: checked.found.markers(),
        parts: checked.parts,
    }
}

/// The first markers of each rule.
fn limited<'a>(checked: &Checked<'a>) -> Limited<'a>
    ensures { limits.limited_of result ≡ held_limited checked.now }
{
    let limit = checked.most();
    Limited {
        top: checked.top,
        rules: checked.rules,
        markers: checked.found.markers(),
        limit,
        parts: checked.parts,
    }
}

/// The report of what was checked.
fn report_of<'a>(checked: &Checked<'a>) -> Report<'a>
    ensures { told.content_of result ≡ held_content checked.now }
{
    Report {
        original: checked.original,
        top: checked.top,
        rules: checked.rules,
        markers: checked.found.markers(),
        counts: Some(checked.found.counts.as_slice()),
        limit: checked.most(),
        notes: checked.notes,
        faults: checked.faults,
    }
}

/// Prints the markers: all, or the first of each rule if there is a limit or no more are held.
fn list_markers<O: Outputs>(
    threads: &(impl Threads + Sync),
    outputs: &mut O,
    alloc: Global,
    checked: &Checked<'_>,
) -> Result<(), FirmFault>
    ensures kept { IfOk result (λ _. Grows (O.kept outputs.old) (O.kept outputs.new) (on_output (held_printed checked.now false) ∷ [])) }
    ensures refused { IfErr result OutputFails }
{
    match (checked.limit, &checked.found.held) {
        (None, Held::All(_)) => {
            let listing = listing(checked);
            put_listing(threads, outputs, alloc, Place::Standard, &listing)
        }
        (None, Held::First(_)) | (Some(_), _) => {
            let listing = limited(checked);
            put(outputs, alloc, Place::Standard, &Text::Limited(&listing))
        }
    }
}

/// Prints how many markers each rule has, and how many there are.
fn list_counts<O: Outputs>(
    outputs: &mut O,
    alloc: Global,
    checked: &Checked<'_>,
) -> Result<(), FirmFault>
    ensures kept { IfOk result (λ _. Grows (O.kept outputs.old) (O.kept outputs.new) (on_output (held_printed checked.now true) ∷ [])) }
    ensures refused { IfErr result OutputFails }
{
    let counts = Counts {
        rules: checked.found.counts.as_slice(),
        all: checked.found.all,
    };
    let text = Text::Counts(checked.rules, &counts);
    put(outputs, alloc, Place::Standard, &text)
}

/// Prints the markers that are held; or how many each rule has, if that is asked for.
fn list<O: Outputs>(
    threads: &(impl Threads + Sync),
    outputs: &mut O,
    alloc: Global,
    checked: &Checked<'_>,
) -> Result<(), FirmFault>
    ensures kept { IfOk result (λ _. Grows (O.kept outputs.old) (O.kept outputs.new) (on_output (held_printed checked.now checked.now.summary) ∷ [])) }
    ensures refused { IfErr result OutputFails }
{
    if checked.summary {
        list_counts(outputs, alloc, checked)
    } else {
        list_markers(threads, outputs, alloc, checked)
    }
}

/// Writes the report that the command line asks for; nothing if it asks for none.
fn report<O: Outputs>(
    outputs: &mut O,
    alloc: Global,
    file: &Option<String>,
    checked: &Checked<'_>,
) -> Result<(), FirmFault>
    ensures kept { IfOk result (λ _. Grows (O.kept outputs.old) (O.kept outputs.new) (held_report (option_map string_bytes file.now) checked.now)) }
    ensures refused { IfErr result (IsUnwritten (option_map string_bytes file.now)) }
{
    match file {
        Some(file) => {
            let report = report_of(checked);
            let text = Text::Report(&report);
            put(outputs, alloc, Place::File(file.as_str()), &text)
        }
        None => Ok(()),
    }
}

/// Prints the markers on the standard output: all, or the first of each rule if there is a limit; or how many each rule has, if that is
/// asked for. Then it writes the report into a file, if one is named. If what is held is enough for both, they are those of all markers.
///
/// # Errors
/// `Device` if that failed or the file can't be written, and `Memory`.
pub fn write_listed<O: Outputs>(
    threads: &(impl Threads + Sync),
    outputs: &mut O,
    alloc: Global,
    file: &Option<String>,
    checked: &Checked<'_>,
) -> Result<(), FirmFault>
    ensures kept { (book : List Marker) → IsOfBook (enough_listed (option_map string_bytes file.now) checked.now.summary checked.now.limit) checked.now book
        → IfOk result (λ _. Grows (O.kept outputs.old) (O.kept outputs.new) (listing_texts (option_map string_bytes file.now) (shown_of checked.now book))) }
    ensures refused { IfErr result (λ fault. OutputFails fault ⊎ IsUnwritten (option_map string_bytes file.now) fault) }
{
    first_markers_are_listed();
    first_markers_have_the_items();
    list(threads, outputs, alloc, checked)?;
    report(outputs, alloc, file, checked)
}
