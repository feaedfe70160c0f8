//! The picture of a check.
ghost use Rattle.std.specs.Prelude.{◌≡◌, ◌++◌, ◌∷◌, [], None, length, map, option_map, IfOk, IfErr};
ghost use Rattle.std.specs.String.{string_bytes};
ghost use Rattle.mpw_geom.specs.Plane.{IsBoxInPlane};
ghost use Rattle.mpw_firm_picture.specs.Drawn.{IsDrawnWith};
ghost use Rattle.mpw_firm_picture.specs.Text.{picture_text};
ghost use Rattle.mpw_firm_outputs.specs.Outputs.{in_file, Grows};
ghost use Rattle.mpw_firm.specs.Keys.{IsOfKey, IsRound, IsUnknown, IsViewOf, unknown_text};
ghost use Rattle.mpw_firm.specs.Shown.{area_listed, areas_of, markers_of, most_of};
ghost use Rattle.mpw_firm_report.specs.Content.{fault_of};
ghost use Rattle.mpw_firm_messages.specs.Told.{CannotBeWritten, Misuses};

use crate::checked::Checked;
use crate::key::find_marker;
use mpw_firm_messages::{FirmFault, misuse};
use mpw_firm_options::Wanted;
use mpw_firm_outputs::{Outputs, Place, Text, put};
use mpw_firm_picture::{LeftOut, Picture, View, draw_with, marker_window, whole_window};
use mpw_firm_report::Fault;
use mpw_geom::Box2;
use mpw_tiles::Snapshot;
use std::alloc::{AllocError, Global};

/// What is printed about a key that no marker has.
#[tactic(auto, unfolding(crate::specs::Keys::unknown_text))]
fn unknown_marker(alloc: Global, key: &str) -> FirmFault
    ensures { Misuses (unknown_text key.now) result }
{
    misuse(format!(in alloc;
        "error: --marker {key}: no marker has this key: take a line of the listing up to the blank"
    ))
}

/// The view round the marker of that key.
fn view_round(alloc: Global, checked: &Checked<'_>, key: &str) -> Result<View, FirmFault>
    ensures plane { IfOk result (λ view. IsBoxInPlane view.window) }
    ensures round { IfOk result (IsRound checked.now.parts.now checked.now.rules.now key.now (markers_of checked.now.found.now.held) (most_of checked.now.limit)) }
    ensures refused { IfErr result (IsUnknown checked.now.parts.now checked.now.rules.now key.now (markers_of checked.now.found.now.held)) }
{
    let rules = checked.rules;
    match find_marker(alloc, rules, checked.parts, checked.found.markers(), key) {
        Ok(Some(marker)) => Ok(View {
            window: marker_window(rules, marker),
            wanted: Some(marker.key),
            limit: checked.most(),
        }),
        Ok(None) => Err(unknown_marker(alloc, key)),
        Err(_) => Err(FirmFault::Memory),
    }
}

/// The view of all.
fn whole_view(layout: &Snapshot, checked: &Checked<'_>) -> View
    ensures plane { IsBoxInPlane result.window }
    ensures view { IsViewOf None checked.now.parts.now checked.now.rules.now layout.now (markers_of checked.now.found.now.held) (most_of checked.now.limit) result }
{
    View {
        window: whole_window(layout),
        wanted: None,
        limit: checked.most(),
    }
}

/// The view of the picture that is asked for: round the marker of its key, or round all if it names none.
///
/// # Errors
/// `Usage` if no marker has the key, and `Memory`.
pub fn view_of(
    alloc: Global,
    wanted: &Wanted,
    layout: &Snapshot,
    checked: &Checked<'_>,
) -> Result<View, FirmFault>
    ensures plane { IfOk result (λ view. IsBoxInPlane view.window) }
    ensures view { IfOk result (IsViewOf (option_map string_bytes wanted.now.key) checked.now.parts.now checked.now.rules.now layout.now (markers_of checked.now.found.now.held) (most_of checked.now.limit)) }
    ensures refused { IfErr result (IsOfKey (option_map string_bytes wanted.now.key) checked.now.parts.now checked.now.rules.now (markers_of checked.now.found.now.held)) }
{
    match &wanted.key {
        Some(key) => view_round(alloc, checked, key.as_str()),
        None => Ok(whole_view(layout, checked)),
    }
}

/// Adds a box, if it is known.
fn add_area(areas: &mut Vec<Box2>, area: Option<Box2>) -> Result<(), AllocError>
    ensures { IfOk result (λ _. areas.new.items ≡ areas.old.items ++ area_listed area) }
{
    match area {
        Some(area) => Ok(areas.push(area)?),
        None => Ok(()),
    }
}

/// The boxes of elements that are left out for their faults, as far as they are known.
fn areas_of(alloc: Global, faults: &[Fault<'_>]) -> Result<Vec<Box2>, AllocError>
    ensures { IfOk result (λ areas. areas.items ≡ areas_of (map fault_of faults.now)) }
{
    let mut areas = Vec::new(alloc);
    for fault in faults {
        add_area(&mut areas, fault.area)?;
    }
    Ok(areas)
}

/// The picture of a view of a layout, with what was found in it.
///
/// # Errors
/// Out of memory.
pub fn drawn_in(
    alloc: Global,
    layout: &Snapshot,
    view: View,
    checked: &Checked<'_>,
) -> Result<Picture, AllocError>
    requires { IsBoxInPlane view.window }
    ensures { IfOk result (IsDrawnWith layout.now (markers_of checked.now.found.now.held) (areas_of (map fault_of checked.now.faults.now)) (length (map fault_of checked.now.faults.now)) view) }
{
    let areas = areas_of(alloc, checked.faults)?;
    let left = LeftOut {
        areas: areas.as_slice(),
        all: checked.faults.len(),
    };
    draw_with(alloc, layout, checked.found.markers(), left, view)
}

/// Writes a picture of what was checked into a file.
///
/// # Errors
/// `Device` if the file can't be written, and `Memory`.
pub fn put_picture<O: Outputs>(
    outputs: &mut O,
    alloc: Global,
    file: &str,
    checked: &Checked<'_>,
    drawn: &Picture,
) -> Result<(), FirmFault>
    ensures kept { IfOk result (λ _. Grows (O.kept outputs.old) (O.kept outputs.new) (in_file file.now (picture_text checked.now.rules.now checked.now.top.now drawn.now) ∷ [])) }
    ensures refused { IfErr result (CannotBeWritten file.now) }
{
    let text = Text::Picture(checked.rules, checked.top, drawn);
    put(outputs, alloc, Place::File(file), &text)
}
