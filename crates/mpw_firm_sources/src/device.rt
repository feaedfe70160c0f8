//! Bytes of a reader.
ghost use Rattle.std.specs.Prelude.{◌≡◌, ◌+◌, ◌<◌, length, IfOk};
ghost use Rattle.std.specs.Io.{ReadsAtMost};
ghost use Rattle.std.specs.Io.KnownBytes.{IsAtEnd, ReadConsumes};
ghost use Rattle.mpw_firm_sources.specs.Fronts.{EndsFirst, IsPlace, ReadsOn, Takes};

use crate::record::{Place, is_endless, next_place};
use std::io::{self, ErrorKind, Read};

/// So many bytes are read first. A deck of the most rules has fewer, and a library's first record has at most half of them.
const FIRST_BYTES: usize = 1 << 17;

/// Each turn reads a byte at least, and a text of so many bytes is endless.
const MOST_TURNS: usize = 1 << 32;

/// Reads, again if a signal interrupts the call.
fn read_again<R: Read>(reader: &mut R, chunk: &mut [u8]) -> io::Result<usize>
    ensures bound { ReadsAtMost result chunk.new }
    ensures bytes { ReadConsumes (R.remaining reader.old) (R.remaining reader.new) result chunk.new }
{
    for _ in 0..u64::MAX {
        match reader.read(chunk) {
            Err(error) if error.kind() == ErrorKind::Interrupted => {}
            answer => return answer,
        }
    }
    Err(io::Error::from(ErrorKind::Interrupted))
}

/// Reads some bytes more, and says how many: none at the reader's end.
fn read_some<R: Read>(reader: &mut R, chunk: &mut [u8], bytes: &mut Vec<u8>) -> io::Result<usize>
    requires room { 0 < length chunk.old }
    ensures takes { IfOk result (λ _. Takes (R.remaining reader.old) (R.remaining reader.new) bytes.old.items bytes.new.items) }
    ensures count { IfOk result (λ taken. length bytes.new.items ≡ length bytes.old.items + taken) }
    ensures end { IfOk result (λ taken. taken ≡ 0 → IsAtEnd (R.remaining reader.new)) }
{
    let taken = read_again(reader, chunk)?;
    bytes.extend_from_slice(&chunk[..taken])?;
    Ok(taken)
}

/// Reads the first bytes, and says whether all of them are there, so that the reader may go on.
pub fn read_first<R: Read>(
    reader: &mut R,
    chunk: &mut [u8],
    bytes: &mut Vec<u8>,
) -> io::Result<bool>
    requires room { 0 < length chunk.old }
    ensures takes { IfOk result (λ _. Takes (R.remaining reader.old) (R.remaining reader.new) bytes.old.items bytes.new.items) }
    ensures ends { IfOk result (λ more. EndsFirst more (R.remaining reader.new) bytes.new.items) }
{
    for _ in 0..FIRST_BYTES {
        if bytes.len() >= FIRST_BYTES {
            return Ok(true);
        }
        if read_some(reader, chunk, bytes)? == 0 {
            return Ok(false);
        }
    }
    Ok(true)
}

/// Reads on, up to the reader's end, a record with an unsound length, or more bytes than a file may have; and says whether it is these.
pub fn read_on<R: Read>(
    reader: &mut R,
    chunk: &mut [u8],
    bytes: &mut Vec<u8>,
    from: Place,
) -> io::Result<bool>
    requires room { 0 < length chunk.old }
    requires place { IsPlace bytes.old.items from }
    ensures { IfOk result (λ endless. ReadsOn from endless (R.remaining reader.old) (R.remaining reader.new) bytes.old.items bytes.new.items) }
{
    let mut place = from;
    for _ in 0..MOST_TURNS {
        let Some(next) = next_place(bytes.as_slice(), place) else {
            return Ok(false);
        };
        if is_endless(next, bytes.len()) {
            return Ok(true);
        }
        if read_some(reader, chunk, bytes)? == 0 {
            return Ok(false);
        }
        place = next;
    }
    Ok(true)
}
