//! The text of replies.
ghost use Rattle.std.specs.Prelude.{◌≡◌, IfOk, false};
ghost use Rattle.std.specs.List.{flat_map};
ghost use Rattle.mpw_reply_text.specs.Reply.{line_text, listed_text, accepted_text, refusal_words, refusal_text, reply_text, AreLedByFirstLines};
ghost use Rattle.mpw_wire.specs.Writing.{Writes};

use crate::first_line::{write_code, write_count, write_denial};
use crate::markers::write_markers;
use crate::reply_line::write_line;
use crate::shape::write_shapes;
use crate::trail::write_trail;
use crate::write::{flush, write_whole_line};
use mpw_devices::Sink;
use mpw_replies::{Kept, Line, Lines, Reply};
use mpw_wire::WireFault;

/// Writes stored lines.
fn write_stored<W: Sink>(writer: &mut W, lines: &[Line]) -> Result<(), WireFault>
    ensures { Writes W.contents W.failures writer.old writer.new result (flat_map line_text lines.now) }
{
    for line in lines {
        write_line(writer, line)?;
    }
    Ok(())
}

/// Writes the lines of an accepted request's reply.
fn write_lines<W: Sink>(writer: &mut W, lines: &Lines) -> Result<(), WireFault>
    ensures { Writes W.contents W.failures writer.old writer.new result (flat_map listed_text lines.now) }
{
    match lines.contents() {
        Kept::Stored(lines) => write_stored(writer, lines),
        Kept::Shapes(listing) => write_shapes(writer, listing),
        Kept::Markers(listing) => write_markers(writer, listing),
        Kept::Trail(listing) => write_trail(writer, listing),
    }
}

/// Writes the reply of an accepted request.
#[tactic(auto, unfolding(crate::specs::Reply::accepted_text))]
fn write_accepted<W: Sink>(writer: &mut W, lines: &Lines) -> Result<(), WireFault>
    ensures { Writes W.contents W.failures writer.old writer.new result (accepted_text lines.now) }
{
    write_count(writer, lines.len())?;
    write_lines(writer, lines)
}

/// A refusal before the desk is asked.
#[derive(Clone, Copy)]
pub enum LineRefusal {
    /// Memory ran out.
    Memory,
    /// The line is no request's text.
    Form,
    /// The line is too long, or its payload would be.
    Long,
    /// The input ends within the payload.
    Cut,
}

/// The number and the word of a refusal.
#[tactic(auto, unfolding(crate::specs::Reply::refusal_words))]
fn refusal_words(refusal: LineRefusal) -> &'static str
    ensures { result.now ≡ refusal_words refusal }
{
    match refusal {
        LineRefusal::Memory => "17 memory",
        LineRefusal::Form => "40 form",
        LineRefusal::Long => "41 long",
        LineRefusal::Cut => "42 cut",
    }
}

/// Writes a refusal, and flushes the sink. It takes no memory. Cost: the size of the text.
///
/// # Errors
/// `Write` if the sink failed.
#[tactic(auto, unfolding(crate::specs::Reply::refusal_text))]
pub fn write_refusal<W: Sink>(refusal: LineRefusal, writer: &mut W) -> Result<(), WireFault>
    ensures text { Writes W.contents W.failures writer.old writer.new result (refusal_text refusal) }
    ensures handed { IfOk result (λ _. W.pending writer.new ≡ false) }
{
    write_whole_line(writer, &["REFUSED ", refusal_words(refusal)])?;
    flush(writer)
}

/// Writes the text of a reply.
#[tactic(auto, unfolding(crate::specs::Reply::reply_text))]
fn write_text<W: Sink>(reply: &Reply, writer: &mut W) -> Result<(), WireFault>
    ensures { Writes W.contents W.failures writer.old writer.new result (reply_text reply.now) }
{
    match reply {
        Reply::Ok(lines) => write_accepted(writer, lines),
        Reply::Denied(denial) => write_denial(writer, denial),
        Reply::Refused(code) => write_code(writer, *code),
    }
}

/// Writes the text of a reply, each line with its line feed, and flushes the sink. It takes no memory. Cost: the size of the text.
///
/// # Errors
/// `Write` if the sink failed. It then has a front of the text.
pub fn write_reply<W: Sink>(reply: &Reply, writer: &mut W) -> Result<(), WireFault>
    ensures text { Writes W.contents W.failures writer.old writer.new result (reply_text reply.now) }
    ensures handed { IfOk result (λ _. W.pending writer.new ≡ false) }
{
    write_text(reply, writer)?;
    flush(writer)
}

/// The text of a reply begins with what the trail has of its request, and a line feed.
pub fn replies_begin_with_their_first_lines()
    ensures { AreLedByFirstLines }
{}
