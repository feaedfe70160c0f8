//! What the lock guards, and the critical section itself, as functions that wait for nobody.
ghost use Rattle.std.specs.Prelude.{◌≡◌, ◌+◌, ◌++◌, ◌≤◌, ◌<◌, ℕ, [], true, false, length, IfOk, OnErr};
ghost use Rattle.mpw_desk.specs.Finished.{IsFinished};
ghost use Rattle.mpw_desk.specs.Legal.{GoesLegally, WentLegally};
ghost use Rattle.mpw_desk.specs.Numbers.{AreBelow};
ghost use Rattle.mpw_desk.specs.Passes.{Admits};
ghost use Rattle.mpw_desk.specs.Steps.{MayHandIn, MayHandInBesides, Steps};
ghost use Rattle.mpw_events.specs.GoingOn.{GoesOnTo};
ghost use Rattle.mpw_events.specs.History.{kept_desk};
ghost use Rattle.mpw_events.specs.declared.event.Event.TheVariants as event;
ghost use Rattle.mpw_receipts.specs.Calls.{calls_of};
ghost use Rattle.mpw_receipts.specs.Owner.{owner_of};

use crate::hints::{Asked, Hints};
use crate::pass::Pass;
use crate::room::{Blank, Room};
use crate::shared::Mismatch;
use crate::step::{last_call, step};
use mpw_events::{Call, Event, Handler, Keeper, Response, keepers_have_the_changes_in_order};
use mpw_receipts::Register;
use mpw_requests::SharedRequest;
use std::alloc::AllocError;
use std::marker::Model;
use std::sync::ledger::{Book, Share};

/// The greatest number of passes of one shared desk.
pub const MOST_PASSES: u32 = 1 << 20;

/// The core with its store writer, the register of the calls since the desk was shared, the ledger's book, and the parts for future passes.
/// Contracts see the desk with its store writer, the calls since it was shared, how many were counted, the number of the next connection,
/// how many passes were made, and whether the workers are to end.
pub struct Locked<H: Handler + Drop, K: Keeper + Drop, N: Room> {
    core: Box<H>,
    keeper: K,
    register: Register<Call, N>,
    book: Book<N>,
    rest: Share<N>,
    /// The number of calls when the desk was shared.
    base: usize,
    made: u32,
    next: u32,
    hints: Hints,
}

impl<H: Handler + Drop, K: Keeper + Drop, N: Room> Drop for Locked<H, K, N> {
    fn drop(self) {
        let Locked {
            core,
            keeper,
            register,
            book,
            rest,
            base: _,
            made: _,
            next: _,
            hints: _,
        } = self;
        drop(core);
        drop(keeper);
        drop(register);
        drop(book);
        drop(rest);
    }
}

impl<H: Handler + Drop, K: Keeper + Drop, N: Room> Model for Locked<H, K, N> {
    ghost use Rattle.std.specs.Prelude.{◌≡◌};
    ghost use Rattle.mpw_desk.specs.Hints.{Fit};
    ghost use Rattle.mpw_desk.specs.Locked.{IsLocked, IsNumbered};
    ghost use Rattle.mpw_desk.specs.Values.{LockedDesk};
    ghost use Rattle.mpw_events.specs.History.{kept_desk, state_of};

    ghost Value = { LockedDesk };

    ghost view = { λ l. record { kept = kept_desk (H.desk l.core.value) (K.kept l.keeper) (K.failures l.keeper); calls = l.register.calls; total = l.book.total; next = l.register.next; made = l.made; is_stopped = l.hints.is_stopped } };

    ghost invariant = { λ l. IsNumbered N.begun N.first l.register.next l.next × IsLocked N.begun (kept_desk (H.desk l.core.value) (K.kept l.keeper) (K.failures l.keeper)) l.register.calls l.base l.book.total N.all l.rest.parts l.rest.amount l.made × Fit l.hints (state_of (H.desk l.core.value)).run };
}

impl<H: Handler + Drop, K: Keeper + Drop, N: Room> Locked<H, K, N> {
    /// A desk that is shared from now on, under its name. `first` is the number of the next connection; it is greater than that of each
    /// connection before. It takes no memory. Cost: as many steps as numbers are skipped.
    #[tactic(auto, using(crate::proofs::Legality::none_since))]
    pub fn new(core: Box<H>, keeper: K, blank: Blank, first: u32) -> Locked<H, K, N>
        requires begun { N.begun ≡ kept_desk (H.desk core.value) (K.kept keeper) (K.failures keeper) }
        requires name { blank.name ≡ N.name }
        requires parts { (blank.parts ≡ N.parts) × (N.all ≡ N.parts) × (1048577 ≤ N.all) }
        requires table { blank.table ≡ N.table }
        requires first { (0 < first) × (N.first ≡ first) }
        requires above { AreBelow first (H.desk core.value).history }
        ensures kept { result.kept ≡ kept_desk (H.desk core.value) (K.kept keeper) (K.failures keeper) }
        ensures calls { result.calls ≡ [] }
        ensures next { result.next ≡ first }
        ensures made { result.made ≡ 0 }
        ensures stopped { result.is_stopped ≡ false }
    {
        keepers_have_the_changes_in_order();
        let (parts, register) = blank.into_parts();
        let mut register = register.named::<N>();
        for _ in 1..first {
            drop(register.admit());
        }
        let (book, rest) = parts.open::<N>();
        let base = core.calls().len();
        Locked {
            core,
            keeper,
            register,
            book,
            rest,
            base,
            made: 0,
            next: first,
            hints: Hints::new(),
        }
    }

    /// A pass for the next connection, or for a worker. None exactly if 2^20 passes were made, or no number is left.
    pub fn admit(&mut self) -> Option<Pass<N>>
        ensures admits { Admits self.old result self.new }
        ensures goes { GoesOnTo N.begun self.old.kept }
        ensures from { N.first ≤ self.old.next }
    {
        if self.made >= MOST_PASSES || self.next == u32::MAX {
            return None;
        }
        let receipts = self.register.admit();
        let share = self.rest.split_off(1, 0);
        let connection = self.next;
        self.made += 1;
        self.next += 1;
        Some(Pass {
            receipts,
            connection,
            calls: 0,
            share,
        })
    }

    /// The core.
    pub fn core(&self) -> &H
        ensures { H.desk result.now ≡ self.now.kept.desk }
    {
        &self.core
    }

    /// The number of calls in the desk's history: those before it was shared, and those since. The latter are legal, none is a restart, the
    /// history had room for each, and they were counted. Constant time.
    pub fn calls(&self) -> usize
        ensures counted { result ≡ length self.now.kept.desk.history }
        ensures goes { GoesOnTo N.begun self.now.kept }
        ensures since { self.now.kept.desk.history ≡ N.begun.desk.history ++ self.now.calls }
        ensures legal { GoesLegally N.begun self.now.kept self.now.calls }
        ensures total { self.now.total ≡ length self.now.calls }
    {
        self.core.calls().len()
    }

    /// Ends the workers: none waits any more. Nothing else changes.
    pub fn stop(&mut self)
        ensures { self.new ≡ record self.old { is_stopped = true } }
    {
        self.hints.is_stopped = true;
    }

    /// Whether workers are to end.
    pub fn is_stopped(&self) -> bool
        ensures { result ≡ self.now.is_stopped }
    {
        self.hints.is_stopped
    }

    /// Whether a worker may find a job to take.
    pub(crate) fn may_take(&self) -> bool {
        self.hints.may_take()
    }

    /// Notes that a worker is cutting the run of that number. The model doesn't change.
    pub(crate) fn note_cutting(&mut self, run: u32)
        ensures { self.new ≡ self.old }
    {
        self.hints = self.hints.while_cut(run);
    }

    /// Notes that a worker handed in the windows of the run of that number, or gave up. The model doesn't change.
    pub(crate) fn note_cut(&mut self, run: u32)
        ensures { self.new ≡ self.old }
    {
        self.hints = self.hints.after_cut(run);
    }

    /// The number of calls since the desk was shared.
    fn len(&self) -> u64
        ensures { result ≡ length self.now.calls }
    {
        (self.calls() - self.base) as u64
    }

    /// The core with its store writer.
    fn into_desk(self) -> (Box<H>, K)
        ensures { kept_desk (H.desk result.0.value) (K.kept result.1) (K.failures result.1) ≡ self.kept }
    {
        let Locked {
            core,
            keeper,
            register,
            book,
            rest,
            base: _,
            made: _,
            next: _,
            hints: _,
        } = self;
        drop(register);
        drop(book);
        drop(rest);
        (core, keeper)
    }

    /// Takes a pass back: adds its calls to the count, and compares its receipts. There are at most `most` calls.
    fn take_in(&mut self, pass: Pass<N>, all: &mut Share<N>, count: u64, most: u64) -> u64
        requires amount { all.old.amount ≡ count }
        requires most { length self.old.calls ≤ most }
        ensures same { self.new ≡ self.old }
        ensures count { result ≡ count + pass.count }
        ensures all { all.new.amount ≡ result }
        ensures receipts { pass.receipts ≡ calls_of owner_of pass.connection self.old.kept.desk.history }
    {
        let Locked { register, book, .. } = self;
        let (calls, share) = pass.compared(register);
        all.merge(share);
        book.audit(all);
        count + calls
    }

    /// The core with its store writer, if these passes counted all calls since the desk was shared. These calls are legal, none is a restart,
    /// the history had room for each, and the store writer failed exactly at those that weren't stored. Cost: the passes.
    ///
    /// # Errors
    /// `Mismatch` if they made another number of calls, for example because a pass is missing.
    pub fn finish(mut self, passes: Vec<Pass<N>>) -> Result<(Box<H>, K), Mismatch>
        ensures legal { IfOk result (λ left. WentLegally N.begun (kept_desk (H.desk left.0.value) (K.kept left.1) (K.failures left.1))) }
        ensures finished { IfOk result (λ left. IsFinished N.begun (kept_desk (H.desk left.0.value) (K.kept left.1) (K.failures left.1)) passes.items) }
    {
        let mut all = self.rest.empty();
        let most = self.len();
        let mut count = 0;
        let mut left = passes;
        while let Some(pass) = left.pop() {
            count = self.take_in(pass, &mut all, count, most);
        }
        if count != most {
            return Err(Mismatch);
        }
        Ok(self.into_desk())
    }
}

/// Hands in an event by a pass.
///
/// # Errors
/// Out of memory. Then nothing has changed.
fn hand_in<H: Handler + Drop, K: Keeper + Drop, N: Room>(
    locked: &mut Locked<H, K, N>,
    pass: &mut Pass<N>,
    event: Event,
) -> Result<Response, AllocError>
    requires own { MayHandIn pass.old.connection event }
    ensures ok { IfOk result (λ response. Steps event response locked.old locked.new pass.old pass.new) }
    ensures err { OnErr result ((locked.new ≡ locked.old) × (pass.new ≡ pass.old)) }
{
    keepers_have_the_changes_in_order();
    let asked = Asked::by(&event);
    let Locked {
        core,
        keeper,
        register,
        book,
        hints,
        ..
    } = locked;
    let core = &mut **core;
    let (response, is_added) = step(core, keeper, event)?;
    if !is_added {
        return Ok(response);
    }
    let made = core.calls().len();
    let call = last_call(core);
    pass.record(register, book, call, made);
    *hints = hints.noted(asked, &response);
    Ok(response)
}

/// Hands in an event of a pass that is no request: the end of its own connection, or an event of the run, which belongs to no connection.
/// It waits for nobody. Cost: the core's step.
///
/// # Errors
/// Out of memory. Then nothing has changed.
pub fn event_in<H: Handler + Drop, K: Keeper + Drop, N: Room>(
    locked: &mut Locked<H, K, N>,
    pass: &mut Pass<N>,
    event: Event,
) -> Result<Response, AllocError>
    requires own { MayHandInBesides pass.old.connection event }
    ensures ok { IfOk result (λ response. Steps event response locked.old locked.new pass.old pass.new) }
    ensures err { OnErr result ((locked.new ≡ locked.old) × (pass.new ≡ pass.old)) }
{
    hand_in(locked, pass, event)
}

/// Hands in a request of the pass's connection. It waits for nobody. Cost: the core's step.
///
/// # Errors
/// Out of memory. Then nothing has changed.
pub fn ask_in<H: Handler + Drop, K: Keeper + Drop, N: Room>(
    locked: &mut Locked<H, K, N>,
    pass: &mut Pass<N>,
    request: SharedRequest,
) -> Result<Response, AllocError>
    ensures ok { IfOk result (λ response. Steps (event.Ask pass.old.connection request) response locked.old locked.new pass.old pass.new) }
    ensures err { OnErr result ((locked.new ≡ locked.old) × (pass.new ≡ pass.old)) }
{
    let connection = pass.connection;
    hand_in(
        locked,
        pass,
        Event::Ask {
            connection,
            request,
        },
    )
}
