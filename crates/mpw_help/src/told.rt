//! Writes what the help says about a word.
ghost use Rattle.std.specs.Prelude.{◌≡◌};
ghost use Rattle.std.specs.List.{flat_map, list_any};
ghost use Rattle.mpw_help.specs.Help.{label_text, line_text, detail_text, entry_text, help_text, word_text, is_asked};
ghost use Rattle.mpw_text.specs.Writing.{Adds};

use crate::entry::{Detail, Entry};
use mpw_text::put;
use std::io::{self, Write};

/// Whether some entry has the word, or the number of a code. One pass.
pub fn has_word(entries: &[Entry], word: &str) -> bool
    ensures { result ≡ list_any (is_asked word.now) entries.now }
{
    entries.iter().any(|entry| entry.is_asked(word))
}

/// How a line after the meaning begins.
#[derive(Clone, Copy)]
pub(crate) enum Label {
    Tests,
    Reply,
    Statuses,
    Remedy,
}

/// The text of a label.
#[tactic(auto, unfolding(crate::specs::Help::label_text))]
fn text(label: &Label) -> &str
    ensures { result.now ≡ label_text label.now }
{
    match label {
        Label::Tests => "    Tests in order: ",
        Label::Reply => "    Reply: ",
        Label::Statuses => "    Exit status: ",
        Label::Remedy => "    What to do: ",
    }
}

/// Writes a line after the meaning.
#[tactic(auto, unfolding(crate::specs::Help::line_text))]
fn put_line<W: Write>(writer: &mut W, label: Label, line: &str) -> io::Result<()>
    ensures { Adds W.contents writer.old writer.new result (line_text label line.now) }
{
    put(writer, &[text(&label), line, "\n"])
}

/// Writes what comes after the meaning.
#[tactic(auto, unfolding(crate::specs::Help::detail_text))]
fn put_detail<W: Write>(writer: &mut W, detail: Detail) -> io::Result<()>
    ensures { Adds W.contents writer.old writer.new result (detail_text detail) }
{
    match detail {
        Detail::Request { tests, reply } => {
            put_line(writer, Label::Tests, tests)?;
            put_line(writer, Label::Reply, reply)
        }
        Detail::Command { statuses } => put_line(writer, Label::Statuses, statuses),
        Detail::Denial { remedy } => put_line(writer, Label::Remedy, remedy),
        Detail::Refusal { number: _, remedy } => put_line(writer, Label::Remedy, remedy),
    }
}

/// Writes an entry.
#[tactic(auto, unfolding(crate::specs::Help::entry_text))]
fn put_entry<W: Write>(writer: &mut W, entry: &Entry) -> io::Result<()>
    ensures { Adds W.contents writer.old writer.new result (entry_text entry.now) }
{
    put(writer, &[entry.form, "\n    ", entry.meaning, "\n"])?;
    put_detail(writer, entry.detail)
}

/// Writes an entry, if it has the word.
#[tactic(auto, unfolding(crate::specs::Help::help_text))]
fn put_asked<W: Write>(writer: &mut W, entry: &Entry, word: &str) -> io::Result<()>
    ensures { Adds W.contents writer.old writer.new result (help_text word.now entry.now) }
{
    if entry.is_asked(word) {
        put_entry(writer, entry)
    } else {
        Ok(())
    }
}

/// Writes the entries that have the word, or whose code has that number, in order. One pass.
///
/// # Errors
/// The writer's error. The writer then holds a part of the text.
pub fn write_help<W: Write>(writer: &mut W, entries: &[Entry], word: &str) -> io::Result<()>
    ensures { Adds W.contents writer.old writer.new result (flat_map (help_text word.now) entries.now) }
{
    for entry in entries {
        put_asked(writer, entry, word)?;
    }
    Ok(())
}

/// Writes a word in a list.
#[tactic(auto, unfolding(crate::specs::Help::word_text))]
fn put_word<W: Write>(writer: &mut W, entry: &Entry) -> io::Result<()>
    ensures { Adds W.contents writer.old writer.new result (word_text entry.now) }
{
    put(writer, &[" ", entry.word])
}

/// Writes the words of the entries in order, with a space before each.
///
/// # Errors
/// The writer's error. The writer then holds a part of the text.
pub fn write_words<W: Write>(writer: &mut W, entries: &[Entry]) -> io::Result<()>
    ensures { Adds W.contents writer.old writer.new result (flat_map word_text entries.now) }
{
    for entry in entries {
        put_word(writer, entry)?;
    }
    Ok(())
}
