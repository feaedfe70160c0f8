//! Lines: bytes up to a line feed or up to the end of the input.
ghost use Rattle.std.specs.Prelude.{◌≡◌, IfOk, IfErr, option_map};
ghost use Rattle.mpw_wire.specs.Reading.{read_failures};
ghost use Rattle.mpw_wire.specs.Internal.Reading.{Takes, BreaksLine, TakesBytes, BreaksBytes};
ghost use Rattle.mpw_wire.specs.Writing.{fault_of};

use crate::WireFault;
use mpw_devices::Source;
use std::alloc::Global;

/// The greatest number of bytes before a line feed.
pub const MAX_LINE: usize = 4096;

/// What is taken off the front of the input.
#[derive(Drop)]
pub(crate) enum Taken {
    /// A line, without its line feed.
    Line(Vec<u8>),
    /// More bytes than a line may have.
    Long,
    /// Nothing is left.
    End,
}

/// Takes a line off the front of the input, one byte each turn.
///
/// # Errors
/// `Read` if the source failed, and `Memory` if out of memory.
pub(crate) fn take_line<R: Source>(alloc: Global, reader: &mut R) -> Result<Taken, WireFault>
    ensures taken { IfOk result (Takes (R.remaining reader.old) (R.remaining reader.new)) }
    ensures fault { IfErr result (BreaksLine (R.remaining reader.old) (R.remaining reader.new)) }
    ensures failures { R.failures reader.new ≡ read_failures (fault_of result) (R.failures reader.old) }
{
    let mut line = Vec::new(alloc);
    for _ in 0..=MAX_LINE {
        match reader.next_byte() {
            Ok(Some(b'\n')) => return Ok(Taken::Line(line)),
            Ok(Some(byte)) => match line.push(byte) {
                Ok(()) => {}
                Err(_) => return Err(WireFault::Memory),
            },
            Ok(None) if line.is_empty() => return Ok(Taken::End),
            Ok(None) => return Ok(Taken::Line(line)),
            Err(_) => return Err(WireFault::Read),
        }
    }
    Ok(Taken::Long)
}

/// Takes that many bytes off the front of the input, one byte each turn. It returns `None` if the input ends before.
///
/// # Errors
/// `Read` if the source failed, and `Memory` if out of memory.
pub(crate) fn take_bytes<R: Source>(
    alloc: Global,
    reader: &mut R,
    length: usize,
) -> Result<Option<Vec<u8>>, WireFault>
    ensures taken { IfOk result (λ taken. TakesBytes (R.remaining reader.old) (R.remaining reader.new) length (option_map (λ bytes. bytes.items) taken)) }
    ensures fault { IfErr result (BreaksBytes (R.remaining reader.old) (R.remaining reader.new) length) }
    ensures failures { R.failures reader.new ≡ read_failures (fault_of result) (R.failures reader.old) }
{
    let mut bytes = Vec::new(alloc);
    for _ in 0..length {
        match reader.next_byte() {
            Ok(Some(byte)) => match bytes.push(byte) {
                Ok(()) => {}
                Err(_) => return Err(WireFault::Memory),
            },
            Ok(None) => return Ok(None),
            Err(_) => return Err(WireFault::Read),
        }
    }
    Ok(Some(bytes))
}
