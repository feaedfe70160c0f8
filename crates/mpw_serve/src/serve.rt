//! Serves a connection: each line gets its reply, in order, until the connection ends.
//!
//! The lines go to a [`Responder`], one by one. So the loop is the same for a private desk and for a desk that many connections share.
ghost use Rattle.std.specs.Prelude.{◌≡◌};
ghost use Rattle.mpw_wire.specs.Reading.{read_failures};
ghost use Rattle.mpw_wire.specs.Writing.{Writes, fault_of};
ghost use Rattle.mpw_serve.specs.Serving.{Answer, with_end, answer_text, response_text, ServesLines, LeavesNothingPending, Serves, write_failures};
ghost use Rattle.mpw_serve.specs.Internal.Serving.{ServesLine};

use crate::responder::Responder;
use mpw_devices::{Sink, Source};
use mpw_events::Response;
use mpw_reply_text::{LineRefusal, write_refusal, write_reply};
use mpw_requests::SharedRequest;
use mpw_wire::{Asked, WireFault, read_request};
use std::alloc::Global;

/// The greatest number of lines of one connection that are answered.
pub const MAX_LINES: usize = 4096;

/// How a connection ended.
#[derive(Clone, Copy, PartialEq, Eq)]
pub enum End {
    /// The input was read to its end.
    Closed,
    /// A line had more than 4096 bytes, or asked for a payload of more than 2^24 bytes.
    Long,
    /// The input ended before the payload that a line asked for.
    Cut,
    /// There was no memory to read a line.
    Memory,
    /// 4096 lines were answered.
    Spent,
}

/// The result of a connection.
#[derive(Clone, Copy, PartialEq, Eq)]
pub struct Served {
    /// How it ended, or the device that failed: `Read` is the source, `Write` the sink.
    pub ended: Result<End, WireFault>,
    /// Whether the connection's end was handed in. It isn't if out of memory.
    pub is_gone: bool,
}

/// Writes the text of a response.
fn write_response<W: Sink>(response: &Response, writer: &mut W) -> Result<(), WireFault>
    ensures text { Writes W.contents W.failures writer.old writer.new result (response_text response.now) }
    ensures handed { LeavesNothingPending (fault_of result) (W.pending writer.old) (W.pending writer.new) }
{
    match response {
        Response::Told(reply) => write_reply(reply, writer),
        _ => Ok(()),
    }
}

/// Has a request answered, and writes the reply.
fn answer<A: Responder, W: Sink>(
    responder: &mut A,
    request: SharedRequest,
    writer: &mut W,
) -> Result<(), WireFault>
    requires { A.can_ask }
    ensures answer { (answer : Answer) × A.told responder.old request answer responder.new × Writes W.contents W.failures writer.old writer.new result (answer_text answer) }
    ensures handed { LeavesNothingPending (fault_of result) (W.pending writer.old) (W.pending writer.new) }
{
    match responder.ask(request) {
        Some(response) => write_response(&response, writer),
        None => write_refusal(LineRefusal::Memory, writer),
    }
}

/// The end, if its text was written; else the fault.
fn with_end(end: Option<End>, written: Result<(), WireFault>) -> Result<Option<End>, WireFault>
    ensures { result ≡ with_end end written }
{
    match written {
        Ok(()) => Ok(end),
        Err(fault) => Err(fault),
    }
}

/// Serves one line. It returns `None` if the connection goes on.
fn serve_line<A: Responder, R: Source, W: Sink>(
    alloc: Global,
    responder: &mut A,
    reader: &mut R,
    writer: &mut W,
) -> Result<Option<End>, WireFault>
    requires { A.can_ask }
    ensures line { ServesLine A.told (R.remaining reader.old) (R.remaining reader.new) (W.contents writer.old) (W.contents writer.new) responder.old responder.new result }
    ensures reader { R.failures reader.new ≡ read_failures (fault_of result) (R.failures reader.old) }
    ensures writer { W.failures writer.new ≡ write_failures (fault_of result) (W.failures writer.old) }
    ensures handed { LeavesNothingPending (fault_of result) (W.pending writer.old) (W.pending writer.new) }
{
    match read_request(alloc, reader) {
        Ok(Asked::Request(request)) => with_end(None, answer(responder, request, writer)),
        Ok(Asked::Form) => with_end(None, write_refusal(LineRefusal::Form, writer)),
        Ok(Asked::Long) => with_end(Some(End::Long), write_refusal(LineRefusal::Long, writer)),
        Ok(Asked::Cut) => with_end(Some(End::Cut), write_refusal(LineRefusal::Cut, writer)),
        Ok(Asked::End) => Ok(Some(End::Closed)),
        Err(WireFault::Memory) => {
            with_end(
                Some(End::Memory),
                write_refusal(LineRefusal::Memory, writer),
            )
        }
        Err(WireFault::Read) => Err(WireFault::Read),
        Err(WireFault::Write) => Err(WireFault::Write),
    }
}

/// Serves lines until the connection ends.
fn serve_lines<A: Responder, R: Source, W: Sink>(
    alloc: Global,
    responder: &mut A,
    reader: &mut R,
    writer: &mut W,
) -> Result<End, WireFault>
    requires { A.can_ask }
    ensures lines { ServesLines A.told (R.remaining reader.old) (R.remaining reader.new) (W.contents writer.old) (W.contents writer.new) responder.old responder.new result }
    ensures reader { R.failures reader.new ≡ read_failures (fault_of result) (R.failures reader.old) }
    ensures writer { W.failures writer.new ≡ write_failures (fault_of result) (W.failures writer.old) }
    ensures handed { LeavesNothingPending (fault_of result) (W.pending writer.old) (W.pending writer.new) }
{
    for _ in 0..MAX_LINES {
        match serve_line(alloc, responder, reader, writer) {
            Ok(None) => {}
            Ok(Some(end)) => return Ok(end),
            Err(fault) => return Err(fault),
        }
    }
    Ok(End::Spent)
}

/// Serves a connection: passes the lines of the reader to the responder, and writes the replies in order. Each reply is flushed.
///
/// It goes on until the input ends, a line is too long, a payload is too large or cut off, there is no memory to read a request, 4096 lines
/// were answered, or a device failed. What was accepted before stays accepted. Then the responder gets the connection's end.
///
/// Cost: the lines, and for each request what the responder takes.
pub fn serve_connection<A: Responder, R: Source, W: Sink>(
    alloc: Global,
    responder: &mut A,
    reader: &mut R,
    writer: &mut W,
) -> Served
    requires { A.can_ask }
    ensures served { Serves A.told A.parted (R.remaining reader.old) (R.remaining reader.new) (W.contents writer.old) (W.contents writer.new) responder.old responder.new result }
    ensures reader { R.failures reader.new ≡ read_failures (fault_of result.ended) (R.failures reader.old) }
    ensures writer { W.failures writer.new ≡ write_failures (fault_of result.ended) (W.failures writer.old) }
    ensures handed { LeavesNothingPending (fault_of result.ended) (W.pending writer.old) (W.pending writer.new) }
{
    let ended = serve_lines(alloc, responder, reader, writer);
    let is_gone = responder.part();
    Served { ended, is_gone }
}
