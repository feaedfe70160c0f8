//! Writing all of some bytes to a sink.
ghost use Rattle.std.specs.Prelude.{◌≡◌, [], ◌++◌, IfOk, false};
ghost use Rattle.std.specs.List.{flat_map};
ghost use Rattle.mpw_reply_text.specs.Lines.{line_feed};
ghost use Rattle.mpw_wire.specs.Writing.{Writes};

use mpw_devices::Sink;
use mpw_wire::WireFault;

/// Writes the bytes, in as many calls as the sink takes.
///
/// # Errors
/// `Write` if the sink failed. It then has a part of the bytes.
pub fn write_bytes<W: Sink>(writer: &mut W, bytes: &[u8]) -> Result<(), WireFault>
    ensures { Writes W.contents W.failures writer.old writer.new result bytes.now }
{
    let mut written = 0;
    while written < bytes.len() {
        match writer.write(&bytes[written..]) {
            Ok(taken) => written += taken,
            Err(_) => return Err(WireFault::Write),
        }
    }
    Ok(())
}

/// Writes the texts in their order.
///
/// # Errors
/// `Write` if the sink failed. It then has a part of the bytes.
pub fn write_parts<W: Sink>(writer: &mut W, parts: &[&str]) -> Result<(), WireFault>
    ensures { Writes W.contents W.failures writer.old writer.new result (flat_map (λ part. part.now) parts.now) }
{
    for part in parts {
        write_bytes(writer, part.as_bytes())?;
    }
    Ok(())
}

/// Writes the texts in their order, and a line feed.
pub(crate) fn write_whole_line<W: Sink>(writer: &mut W, parts: &[&str]) -> Result<(), WireFault>
    ensures { Writes W.contents W.failures writer.old writer.new result (flat_map (λ part. part.now) parts.now ++ line_feed) }
{
    write_parts(writer, parts)?;
    write_parts(writer, &["\n"])
}

/// Flushes the sink.
///
/// # Errors
/// `Write` if the sink failed.
pub fn flush<W: Sink>(writer: &mut W) -> Result<(), WireFault>
    ensures text { Writes W.contents W.failures writer.old writer.new result [] }
    ensures handed { IfOk result (λ _. W.pending writer.new ≡ false) }
{
    match writer.flush() {
        Ok(()) => Ok(()),
        Err(_) => Err(WireFault::Write),
    }
}
