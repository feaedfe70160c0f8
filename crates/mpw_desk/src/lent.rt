//! Serves a connection over a shared desk.
ghost use Rattle.std.specs.Prelude.{◌≡◌};
ghost use Rattle.mpw_desk.specs.Serving.{IsAsked, IsParted};
ghost use Rattle.mpw_serve.specs.Serving.{LeavesNothingPending, Serves, write_failures};
ghost use Rattle.mpw_wire.specs.Reading.{read_failures};
ghost use Rattle.mpw_wire.specs.Writing.{fault_of};

use crate::pass::Pass;
use crate::room::Room;
use crate::shared::Shared;
use mpw_devices::{Sink, Source};
use mpw_events::{Handler, Keeper, Response};
use mpw_requests::SharedRequest;
use mpw_serve::{Responder, Served, serve_connection};
use std::alloc::Global;
use std::marker::Model;
use std::sync::Wait;

/// Sees the requests of a connection and their answers, for example to write a log. It is called outside the lock.
pub trait Witness {
    /// The request is about to be passed to the desk. The witness returns it, or an equal one whose memory others share.
    fn asked(&mut self, request: SharedRequest) -> SharedRequest
        ensures { result ≡ request };

    /// The request before was answered; none if out of memory.
    fn answered(&mut self, response: Option<&Response>);
}

/// A witness that does nothing.
#[derive(Clone, Copy)]
pub struct Unwatched;

impl Witness for Unwatched {
    fn asked(&mut self, request: SharedRequest) -> SharedRequest {
        request
    }

    fn answered(&mut self, _response: Option<&Response>) {}
}

/// The pass of a connection, and the witness of its requests.
pub struct Caller<N: Room, W: Witness + Drop> {
    /// The pass.
    pub pass: Pass<N>,
    /// The witness of the requests.
    pub witness: W,
}

impl<N: Room, W: Witness + Drop> Drop for Caller<N, W> {
    fn drop(self) {
        let Caller { pass, witness } = self;
        drop(pass);
        drop(witness);
    }
}

impl<N: Room, W: Witness + Drop> Caller<N, W> {
    /// The pass and the witness.
    fn into_parts(self) -> (Pass<N>, W)
        ensures { result.0 ≡ self.pass }
    {
        let Caller { pass, witness } = self;
        (pass, witness)
    }
}

/// A shared desk with the pass of a connection, the runtime that waits for the lock, and the witness of the requests. Contracts see the pass.
struct Lent<'a, H: Handler + Drop, K: Keeper + Drop, N: Room, R: Wait, W: Witness + Drop> {
    rt: &'a R,
    shared: &'a Shared<H, K, N>,
    pass: Pass<N>,
    witness: W,
}

impl<'a, H, K, N, R, W> Model for Lent<'a, H, K, N, R, W>
where
    H: Handler + Drop,
    K: Keeper + Drop,
    N: Room,
    R: Wait,
    W: Witness + Drop,
{
    ghost use Rattle.mpw_desk.specs.Values.{PassView};

    ghost Value = { PassView };

    ghost view = { λ l. l.pass };
}

impl<'a, H, K, N, R, W> Responder for Lent<'a, H, K, N, R, W>
where
    H: Handler + Drop,
    K: Keeper + Drop,
    N: Room,
    R: Wait,
    W: Witness + Drop,
{
    ghost use Rattle.mpw_desk.specs.Serving.{IsAsked, IsParted};

    ghost told = { IsAsked };

    ghost parted = { IsParted };

    fn ask(&mut self, request: SharedRequest) -> Option<Response> {
        let request = self.witness.asked(request);
        match self.shared.ask(self.rt, &mut self.pass, request) {
            Ok(response) => {
                self.witness.answered(Some(&response));
                Some(response)
            }
            Err(_) => {
                self.witness.answered(None);
                None
            }
        }
    }

    fn part(&mut self) -> bool {
        self.shared.part(self.rt, &mut self.pass)
    }
}

impl<'a, H, K, N, R, W> Lent<'a, H, K, N, R, W>
where
    H: Handler + Drop,
    K: Keeper + Drop,
    N: Room,
    R: Wait,
    W: Witness + Drop,
{
    /// The pass.
    fn into_pass(self) -> Pass<N>
        ensures { result ≡ self.entry }
    {
        let Lent {
            rt: _,
            shared: _,
            pass,
            witness,
        } = self;
        drop(witness);
        pass
    }
}

/// Serves a connection over a shared desk with its pass, as [`serve_connection`] does, and returns the pass. The lock is held in the desk's
/// steps only: lines and payloads are read, and replies are written, outside it. An accepted `run` is answered at once, and left to the
/// workers. The result says that the connection's end was handed in exactly if the receipts have it.
pub fn serve_pass<H, K, N, R, I, O>(
    rt: &R,
    alloc: Global,
    shared: &Shared<H, K, N>,
    pass: Pass<N>,
    reader: &mut I,
    writer: &mut O,
) -> (Pass<N>, Served)
where
    H: Handler + Drop,
    K: Keeper + Drop,
    N: Room,
    R: Wait,
    I: Source,
    O: Sink,
    ensures served { Serves IsAsked IsParted (I.remaining reader.old) (I.remaining reader.new) (O.contents writer.old) (O.contents writer.new) pass result.0 result.1 }
    ensures reader { I.failures reader.new ≡ read_failures (fault_of result.1.ended) (I.failures reader.old) }
    ensures writer { O.failures writer.new ≡ write_failures (fault_of result.1.ended) (O.failures writer.old) }
    ensures handed { LeavesNothingPending (fault_of result.1.ended) (O.pending writer.old) (O.pending writer.new) }
{
    let caller = Caller {
        pass,
        witness: Unwatched,
    };
    serve_caller(rt, alloc, shared, caller, reader, writer)
}

/// Serves a connection as [`serve_pass`] does, and passes its requests and their answers to a witness.
pub fn serve_caller<H, K, N, R, W, I, O>(
    rt: &R,
    alloc: Global,
    shared: &Shared<H, K, N>,
    caller: Caller<N, W>,
    reader: &mut I,
    writer: &mut O,
) -> (Pass<N>, Served)
where
    H: Handler + Drop,
    K: Keeper + Drop,
    N: Room,
    R: Wait,
    W: Witness + Drop,
    I: Source,
    O: Sink,
    ensures served { Serves IsAsked IsParted (I.remaining reader.old) (I.remaining reader.new) (O.contents writer.old) (O.contents writer.new) caller.pass result.0 result.1 }
    ensures reader { I.failures reader.new ≡ read_failures (fault_of result.1.ended) (I.failures reader.old) }
    ensures writer { O.failures writer.new ≡ write_failures (fault_of result.1.ended) (O.failures writer.old) }
    ensures handed { LeavesNothingPending (fault_of result.1.ended) (O.pending writer.old) (O.pending writer.new) }
{
    let (pass, witness) = caller.into_parts();
    let mut lent = Lent {
        rt,
        shared,
        pass,
        witness,
    };
    let served = serve_connection(alloc, &mut lent, reader, writer);
    (lent.into_pass(), served)
}
