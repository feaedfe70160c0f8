//! Writes the notes in the description, about what a check reads.
ghost use Rattle.std.specs.Prelude.{map};
ghost use Rattle.std.specs.List.{flat_map};
ghost use Rattle.mpw_firm_report.specs.Content.{note_of};
ghost use Rattle.mpw_firm_report.specs.Report.{idle_text, note_text, unnamed_text};
ghost use Rattle.mpw_text.specs.Writing.{Adds};

use crate::category::put_layer;
use crate::content::Note;
use crate::name::put_name;
use itoa::Buffer;
use mpw_geom::{Layer, Name};
use mpw_text::put;
use std::io::{self, Write};

/// Writes that a rule checks nothing.
#[tactic(auto, unfolding(crate::specs::Report::idle_text))]
fn put_idle<W: Write>(writer: &mut W, rule: &Name, layer: Layer) -> io::Result<()>
    ensures { Adds W.contents writer.old writer.new result (idle_text rule.now layer) }
{
    put(writer, &["; rule "])?;
    put_name(writer, rule)?;
    put(writer, &[" looks at nothing: layer"])?;
    put_layer(writer, layer)?;
    put(writer, &[" has no shapes"])
}

/// Writes that no rule names a layer.
#[tactic(auto, unfolding(crate::specs::Report::unnamed_text))]
fn put_unnamed<W: Write>(writer: &mut W, layer: Layer, shapes: usize) -> io::Result<()>
    ensures { Adds W.contents writer.old writer.new result (unnamed_text layer shapes) }
{
    let mut count = Buffer::new();
    put(writer, &["; no rule names layer"])?;
    put_layer(writer, layer)?;
    put(writer, &[", which has ", count.format(shapes), " shapes"])
}

/// Writes a note.
#[tactic(auto, unfolding(crate::specs::Report::note_text))]
fn put_note<W: Write>(writer: &mut W, note: &Note<'_>) -> io::Result<()>
    ensures { Adds W.contents writer.old writer.new result (note_text (note_of note.now)) }
{
    match *note {
        Note::NoRules => put(
            writer,
            &["; the deck has no rules, so nothing is looked at"],
        ),
        Note::Idle(rule, layer) => put_idle(writer, rule, layer),
        Note::Unnamed(layer, shapes) => put_unnamed(writer, layer, shapes),
        Note::Unchecked => put(writer, &["; the library has faults, so nothing is checked"]),
    }
}

/// Writes notes, in their order.
pub(crate) fn put_notes<W: Write>(writer: &mut W, notes: &[Note<'_>]) -> io::Result<()>
    ensures { Adds W.contents writer.old writer.new result (flat_map note_text (map note_of notes.now)) }
{
    for note in notes {
        put_note(writer, note)?;
    }
    Ok(())
}
