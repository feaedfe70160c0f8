//! A pass: what a connection or a worker has of the desk.
ghost use Rattle.std.specs.Prelude.{◌≡◌, ◌+◌, ◌≤◌, [], ◌∷◌, ◌++◌};
ghost use Rattle.mpw_desk.specs.Steps.{IsAnswer, IsToldAs, MayHandIn, Records, with_own};
ghost use Rattle.mpw_receipts.specs.Calls.{calls_of};
ghost use Rattle.mpw_receipts.specs.Owner.{owner_of};

use crate::room::Room;
use mpw_events::{Call, Event};
use mpw_receipts::{Receipts, Register};
use std::marker::Model;
use std::sync::ledger::{Book, Share};

/// The number of a connection, the receipts of its calls, how many calls were made with it, and its share of the ledger. Contracts see the
/// first three. The receipts and the share take no bytes.
pub struct Pass<N: Room> {
    pub(crate) receipts: Receipts<Call, N>,
    pub(crate) connection: u32,
    pub(crate) calls: u64,
    pub(crate) share: Share<N>,
}

impl<N: Room> Drop for Pass<N> {
    fn drop(self) {
        let Pass {
            receipts,
            connection: _,
            calls: _,
            share,
        } = self;
        drop(receipts);
        drop(share);
    }
}

impl<N: Room> Model for Pass<N> {
    ghost use Rattle.std.specs.Prelude.{◌≡◌, ◌≤◌};
    ghost use Rattle.mpw_desk.specs.Values.{PassView};

    ghost Value = { PassView };

    ghost view = { λ p. record { connection = p.receipts.number; receipts = p.receipts.calls; count = p.calls } };

    ghost invariant = { λ p. (p.connection ≡ p.receipts.number) × (p.share.parts ≡ 1) × (p.share.amount ≡ p.calls) × (N.first ≤ p.receipts.number) };
}

/// Adds a call to the register. Adds it to the receipts too, if it belongs to their connection.
fn note<N: Room>(register: &mut Register<Call, N>, receipts: &mut Receipts<Call, N>, call: &Call)
    requires { MayHandIn receipts.old.number call.now.event }
    ensures calls { register.new.calls ≡ register.old.calls ++ call.now ∷ [] }
    ensures next { register.new.next ≡ register.old.next }
    ensures number { receipts.new.number ≡ receipts.old.number }
    ensures own { receipts.new.calls ≡ with_own receipts.old.calls call.now call.now.event }
{
    match call.event {
        Event::Ask { .. } | Event::Gone { .. } => register.add_own(receipts, call),
        Event::Take { .. } | Event::Cut(_) | Event::Tile(_) | Event::Restart => {
            register.add_other(call)
        }
    }
}

/// Counts a call. There are at most `made` calls, including it.
fn count<N: Room>(book: &mut Book<N>, share: &mut Share<N>, calls: &mut u64, made: usize)
    requires made { book.old.total + 1 ≤ made }
    requires amount { share.old.amount ≡ calls.old }
    requires parts { share.old.parts ≡ 1 }
    ensures total { book.new.total ≡ book.old.total + 1 }
    ensures amount { share.new.amount ≡ calls.new }
    ensures parts { share.new.parts ≡ 1 }
    ensures calls { calls.new ≡ calls.old + 1 }
{
    book.audit(share);
    book.add(share, 1);
    *calls += 1;
}

impl<N: Room> Pass<N> {
    /// The number of its connection, 1 to 2^32 - 2. No connection before the desk was shared has it.
    pub fn connection(&self) -> u32
        ensures number { result ≡ self.now.connection }
        ensures from { N.first ≤ result }
    {
        self.connection
    }

    /// How many calls were made with it.
    pub fn calls(&self) -> u64
        ensures { result ≡ self.now.count }
    {
        self.calls
    }

    /// Records a call in the register, in the receipts and in the count. There are at most `made` calls, including it.
    pub(crate) fn record(
        &mut self,
        register: &mut Register<Call, N>,
        book: &mut Book<N>,
        call: &Call,
        made: usize,
    )
        requires own { MayHandIn self.old.connection call.now.event }
        requires made { book.old.total + 1 ≤ made }
        requires answer { IsAnswer call.now.event call.now.response }
        requires told { IsToldAs call.now.event call.now.response call.now.kept }
        ensures calls { register.new.calls ≡ register.old.calls ++ call.now ∷ [] }
        ensures next { register.new.next ≡ register.old.next }
        ensures total { book.new.total ≡ book.old.total + 1 }
        ensures pass { Records call.now.event call.now.response call.now.kept self.old self.new }
    {
        note(register, &mut self.receipts, call);
        count(book, &mut self.share, &mut self.calls, made);
    }

    /// The number of calls with its share, after the receipts were compared with the register.
    pub(crate) fn compared(self, register: &mut Register<Call, N>) -> (u64, Share<N>)
        ensures same { register.new ≡ register.old }
        ensures calls { result.0 ≡ self.count }
        ensures share { result.1.amount ≡ self.count }
        ensures from { N.first ≤ self.connection }
        ensures receipts { self.receipts ≡ calls_of owner_of self.connection register.old.calls }
    {
        let Pass {
            receipts,
            connection: _,
            calls,
            share,
        } = self;
        register.compare(receipts);
        (calls, share)
    }
}
