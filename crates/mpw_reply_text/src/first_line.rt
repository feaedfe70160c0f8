//! The first line of a reply: how many lines follow, what the session lacks, or why the request is refused.
ghost use Rattle.std.specs.Prelude.{◌≡◌, ◌++◌};
ghost use Rattle.mpw_trail.specs.FirstLineText.{denial_text, fault_at, refused_text, count_text};
ghost use Rattle.mpw_reply_text.specs.Lines.{line_feed};
ghost use Rattle.mpw_wire.specs.Writing.{Writes};

use crate::write::write_whole_line;
use itoa::Buffer;
use mpw_devices::Sink;
use mpw_trail::{Code, Denial, code_words, denial_parts};
use mpw_wire::WireFault;

/// Writes how many lines follow.
pub(crate) fn write_count<W: Sink>(writer: &mut W, count: usize) -> Result<(), WireFault>
    ensures { Writes W.contents W.failures writer.old writer.new result (count_text count ++ line_feed) }
{
    write_whole_line(writer, &["OK ", Buffer::new().format(count)])
}

/// Writes what a session lacks.
pub(crate) fn write_denial<W: Sink>(writer: &mut W, denial: &Denial) -> Result<(), WireFault>
    ensures { Writes W.contents W.failures writer.old writer.new result (denial_text denial.now ++ line_feed) }
{
    write_whole_line(writer, &denial_parts(denial))
}

/// Writes a fault and its place.
fn write_fault<W: Sink>(writer: &mut W, words: &str, place: usize) -> Result<(), WireFault>
    ensures { Writes W.contents W.failures writer.old writer.new result (fault_at words.now place ++ line_feed) }
{
    write_whole_line(
        writer,
        &["REFUSED ", words, " ", Buffer::new().format(place)],
    )
}

/// Writes why a request is refused.
pub(crate) fn write_code<W: Sink>(writer: &mut W, code: Code) -> Result<(), WireFault>
    ensures { Writes W.contents W.failures writer.old writer.new result (refused_text code ++ line_feed) }
{
    let words = code_words(code);
    match code {
        Code::Read(fault) => write_fault(writer, words, fault.offset),
        Code::Deck(fault) => write_fault(writer, words, fault.line),
        _ => write_whole_line(writer, &["REFUSED ", words]),
    }
}
