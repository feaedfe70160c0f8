//! What is printed about what a check looks at: rules that look at nothing, and layers that no rule names. `specs/Notes.antt` has what
//! contracts say of it.
ghost use Rattle.std.specs.Prelude.{◌≡◌, ◌++◌, map, IfOk};
ghost use Rattle.std.specs.List.{flat_map};
ghost use Rattle.mpw_firm_report.specs.Content.{note_of};
ghost use Rattle.mpw_firm_sources.specs.Notes.{idle_note, idle_notes, notes_of, rule_notes, shapes_on, unnamed_layers, unnamed_note};

use crate::looked::empty_layer;
use mpw_deck::Rule;
use mpw_firm_layers::{Layers, layer_count};
use mpw_firm_report::Note;
use mpw_geom::Layer;
use mpw_tiles::Snapshot;
use std::alloc::{AllocError, Global};
use std::io;

/// The layers with shapes that no rule names, in the order in which they come, at most 64. It goes over the structures and their elements
/// once, and not over the shapes.
///
/// # Errors
/// Out of memory.
fn unnamed_layers(alloc: Global, snapshot: &Snapshot) -> Result<Layers, AllocError>
    ensures { IfOk result (λ layers. layers ≡ unnamed_layers snapshot.now) }
{
    let rules = snapshot.deck().rules().as_slice();
    mpw_firm_layers::unnamed_layers(alloc, snapshot.shelf(), snapshot.roots(), rules)
}

/// How many shapes on a layer a layout shows. It goes over the structures and their elements once, and not over the shapes.
///
/// # Errors
/// Out of memory.
fn shapes_on(alloc: Global, snapshot: &Snapshot, layer: Layer) -> Result<usize, AllocError>
    ensures { IfOk result (λ shapes. shapes ≡ shapes_on snapshot.now layer) }
{
    layer_count(alloc, snapshot.shelf(), snapshot.roots(), layer)
}

/// That a deck has no rules, if it has none.
///
/// # Errors
/// Out of memory.
pub fn rule_notes<'a>(alloc: Global, rules: &[Rule]) -> Result<Vec<Note<'a>>, AllocError>
    ensures { IfOk result (λ notes. map note_of notes.items ≡ rule_notes rules.now) }
{
    let mut notes = Vec::new(alloc);
    match rules {
        [] => notes.push(Note::NoRules)?,
        [..] => {}
    }
    Ok(notes)
}

/// Adds that a rule looks at nothing, if it does.
fn add_idle<'a>(
    notes: &mut Vec<Note<'a>>,
    rule: &'a Rule,
    empty: Option<Layer>,
) -> Result<(), AllocError>
    ensures { IfOk result (λ _. map note_of notes.new.items ≡ map note_of notes.old.items ++ idle_note rule.entry.now empty) }
{
    if let Some(layer) = empty {
        notes.push(Note::Idle(&rule.name, layer))?;
    }
    Ok(())
}

/// Those of these rules that look at nothing.
fn idle_notes<'a>(
    alloc: Global,
    snapshot: &Snapshot,
    rules: &'a [Rule],
) -> Result<Vec<Note<'a>>, AllocError>
    ensures { IfOk result (λ notes. map note_of notes.items ≡ flat_map (idle_notes snapshot.now) rules.entry.now) }
{
    let mut notes = Vec::new(alloc);
    for rule in rules {
        let empty = empty_layer(alloc, snapshot, rule.check)?;
        add_idle(&mut notes, rule, empty)?;
    }
    Ok(notes)
}

/// These layers, which no rule names.
fn unnamed_notes<'a>(
    alloc: Global,
    snapshot: &Snapshot,
    layers: &[Layer],
) -> Result<Vec<Note<'a>>, AllocError>
    ensures { IfOk result (λ notes. map note_of notes.items ≡ map (unnamed_note snapshot.now) layers.now) }
{
    let mut notes = Vec::new(alloc);
    for layer in layers {
        let shapes = shapes_on(alloc, snapshot, *layer)?;
        notes.push(Note::Unnamed(*layer, shapes))?;
    }
    Ok(notes)
}

/// What is printed about what a check of a layout looks at: that its deck has no rules; each rule that looks at nothing, with its layer that has no
/// shapes; and each layer that no rule names, with how many shapes are on it, at most 64.
///
/// It goes over the structures and their elements once for each layer of each rule and for each layer that no rule names, and once
/// besides, and not over the shapes, whatever the number of instances is. Memory for a number, or for 64 layers at most, each structure.
///
/// # Errors
/// Out of memory.
pub fn notes_of<'a>(alloc: Global, snapshot: &'a Snapshot) -> Result<Vec<Note<'a>>, AllocError>
    ensures { IfOk result (λ notes. map note_of notes.items ≡ notes_of snapshot.entry.now) }
{
    let rules = snapshot.deck().rules().as_slice();
    let layers = unnamed_layers(alloc, snapshot)?;
    let mut notes = rule_notes(alloc, rules)?;
    let idle = idle_notes(alloc, snapshot, rules)?;
    notes.extend_from_slice(idle.as_slice())?;
    let unnamed = unnamed_notes(alloc, snapshot, layers.as_slice())?;
    notes.extend_from_slice(unnamed.as_slice())?;
    Ok(notes)
}

/// Prints a note on the standard error.
fn tell_note(rt: &HostRuntime, note: &Note<'_>) -> io::Result<()> {
    match *note {
        Note::NoRules => eprintln!(rt; "note: the deck has no rules, so nothing is looked at"),
        Note::Idle(rule, Layer { layer, datatype }) => {
            let name = rule.as_str();
            eprintln!(rt;
                "note: rule {name} looks at nothing: layer {layer}/{datatype} has no shapes"
            )
        }
        Note::Unnamed(Layer { layer, datatype }, shapes) => {
            eprintln!(rt; "note: no rule names layer {layer}/{datatype}, which has {shapes} shapes")
        }
        Note::Unchecked => Ok(()),
    }
}

/// Prints notes on the standard error, a line each.
///
/// # Errors
/// That of the standard error.
pub fn tell_notes(rt: &HostRuntime, notes: &[Note<'_>]) -> io::Result<()> {
    for note in notes {
        tell_note(rt, note)?;
    }
    Ok(())
}
