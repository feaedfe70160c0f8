//! Requests from the input.
ghost use Rattle.std.specs.Prelude.{◌≡◌, ℕ, List, Option, IfOk, IfErr};
ghost use Rattle.mpw_wire.specs.Reading.{Reads, Breaks, TakesOffer, read_failures};
ghost use Rattle.mpw_wire.specs.Writing.{fault_of};
ghost use Rattle.mpw_wire.specs.declared.request.LineAsk.TheVariants as ask;

use crate::WireFault;
use crate::line::{Taken, take_bytes, take_line};
use crate::request::{LineAsk, parse_line};
use mpw_devices::Source;
use mpw_requests::{SharedRequest, Upload};
use std::alloc::Global;

/// What the next line of the input asks for.
#[derive(Drop)]
pub enum Asked {
    /// The line is this request's text.
    Request(SharedRequest),
    /// The line is no request's text.
    Form,
    /// The line has more than 4096 bytes, or asks for a payload of more than 2^24 bytes.
    Long,
    /// The input ends before the payload does.
    Cut,
    /// The input is at its end.
    End,
}

/// Reads the payload of an upload.
fn read_upload<R: Source>(
    alloc: Global,
    reader: &mut R,
    upload: Upload,
    length: usize,
) -> Result<Asked, WireFault>
    ensures asked { (old : Option (List ℕ)) (line : List ℕ) → TakesOffer old (R.remaining reader.old) line (ask.Upload upload length) → IfOk result (Reads old (R.remaining reader.new)) }
    ensures fault { (old : Option (List ℕ)) (line : List ℕ) → TakesOffer old (R.remaining reader.old) line (ask.Upload upload length) → IfErr result (Breaks old (R.remaining reader.new)) }
    ensures failures { R.failures reader.new ≡ read_failures (fault_of result) (R.failures reader.old) }
{
    match take_bytes(alloc, reader, length)? {
        Some(bytes) => {
            let request = upload.with(alloc, bytes)?;
            let shared = SharedRequest::new(alloc, request)?;
            Ok(Asked::Request(shared))
        }
        None => Ok(Asked::Cut),
    }
}

/// Reads the next request of the input: a line and its payload. A line ends with a line feed. The last line needs none if it isn't empty.
/// Cost: the size of the text. It takes memory for the line, for the request's names, and for the payload with its library or deck.
///
/// # Errors
/// `Read` if the source failed, and `Memory` if out of memory.
pub fn read_request<R: Source>(alloc: Global, reader: &mut R) -> Result<Asked, WireFault>
    ensures asked { IfOk result (Reads (R.remaining reader.old) (R.remaining reader.new)) }
    ensures fault { IfErr result (Breaks (R.remaining reader.old) (R.remaining reader.new)) }
    ensures failures { R.failures reader.new ≡ read_failures (fault_of result) (R.failures reader.old) }
{
    match take_line(alloc, reader)? {
        Taken::Line(line) => match parse_line(alloc, line.as_slice())? {
            LineAsk::Request(request) => Ok(Asked::Request(request)),
            LineAsk::Upload { upload, length } => read_upload(alloc, reader, upload, length),
            LineAsk::Long => Ok(Asked::Long),
            LineAsk::Form => Ok(Asked::Form),
        },
        Taken::Long => Ok(Asked::Long),
        Taken::End => Ok(Asked::End),
    }
}
