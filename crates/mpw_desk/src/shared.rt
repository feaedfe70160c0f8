//! The desk that threads share, and how it ends.
ghost use Rattle.std.specs.Prelude.{◌≡◌, ◌≤◌, ◌<◌, [], IfOk, IfSome, OnErr};
ghost use Rattle.mpw_desk.specs.Finished.{IsFinished};
ghost use Rattle.mpw_desk.specs.Legal.{WentLegally};
ghost use Rattle.mpw_desk.specs.Numbers.{AreBelow};
ghost use Rattle.mpw_desk.specs.Passes.{Grows, HasAdmitted, HasCalls};
ghost use Rattle.mpw_desk.specs.Serving.{IsParted};
ghost use Rattle.mpw_events.specs.History.{kept_desk};
ghost use Rattle.mpw_events.specs.declared.event.Event.TheVariants as event;

use crate::hints::{Asked, Waking};
use crate::locked::{Locked, ask_in, event_in};
use crate::pass::Pass;
use crate::room::{Blank, Room};
use crate::turns::Turns;
use mpw_events::{Event, Handler, Keeper, Response};
use mpw_requests::SharedRequest;
use std::alloc::AllocError;
use std::sync::{Condvar, Mutex, MutexGuard, Wait};

/// The passes made another number of calls than the desk has.
#[derive(Clone, Copy, PartialEq, Eq, Debug)]
pub struct Mismatch;

/// A desk that threads share: each call takes its lock once. At most one worker at a time competes with connections for it (`turns.rt`).
pub struct Shared<H: Handler + Drop, K: Keeper + Drop, N: Room> {
    pub(crate) locked: Mutex<Locked<H, K, N>>,
    pub(crate) moved: Condvar,
    pub(crate) turns: Turns,
}

impl<H: Handler + Drop, K: Keeper + Drop, N: Room> Drop for Shared<H, K, N> {
    fn drop(self) {
        let Shared {
            locked,
            moved,
            turns,
        } = self;
        drop(locked);
        drop(moved);
        drop(turns);
    }
}

impl<H: Handler + Drop, K: Keeper + Drop, N: Room> Shared<H, K, N> {
    /// Shares a desk. `first` is the number of its next connection, which is greater than that of each connection before. It takes no memory.
    pub fn new(core: Box<H>, keeper: K, blank: Blank, first: u32) -> Shared<H, K, N>
        requires begun { N.begun ≡ kept_desk (H.desk core.value) (K.kept keeper) (K.failures keeper) }
        requires name { blank.name ≡ N.name }
        requires parts { (blank.parts ≡ N.parts) × (N.all ≡ N.parts) × (1048577 ≤ N.all) }
        requires table { blank.table ≡ N.table }
        requires first { (0 < first) × (N.first ≡ first) }
        requires above { AreBelow first (H.desk core.value).history }
    {
        Shared {
            locked: Mutex::new(Locked::new(core, keeper, blank, first)),
            moved: Condvar::new(),
            turns: Turns::new(),
        }
    }

    /// A pass for a connection or a worker, with the next number. None exactly if 2^20 passes were made, or no number is left.
    pub fn pass<R: Wait>(&self, rt: &R) -> Option<Pass<N>>
        ensures admits { HasAdmitted N.begun N.first result }
        ensures new { IfSome result (λ p. (p.receipts ≡ []) × (p.count ≡ 0)) }
    {
        self.lock(rt).admit()
    }

    /// The number of calls in the desk's history, at the moment when the lock was held.
    pub fn calls<R: Wait>(&self, rt: &R) -> usize
        ensures { HasCalls N.begun result }
    {
        self.lock(rt).calls()
    }

    /// Passes a request of the pass's connection to the desk. The lock is held for the desk's step alone.
    ///
    /// # Errors
    /// Out of memory. Then the pass is unchanged.
    pub fn ask<R: Wait>(
        &self,
        rt: &R,
        pass: &mut Pass<N>,
        request: SharedRequest,
    ) -> Result<Response, AllocError>
        ensures ok { IfOk result (λ response. Grows pass.old (event.Ask pass.old.connection request) response pass.new) }
        ensures err { OnErr result (pass.new ≡ pass.old) }
    {
        let asked = Asked::of(request.get());
        let response = ask_in(&mut *self.lock(rt), pass, request)?;
        self.wake(Waking::after_request(asked, &response));
        Ok(response)
    }

    /// Hands in the end of the pass's connection.
    ///
    /// # Errors
    /// Out of memory. Then the pass is unchanged.
    pub fn gone<R: Wait>(&self, rt: &R, pass: &mut Pass<N>) -> Result<Response, AllocError>
        ensures ok { IfOk result (λ response. Grows pass.old (event.Gone pass.old.connection) response pass.new) }
        ensures err { OnErr result (pass.new ≡ pass.old) }
    {
        let connection = pass.connection();
        event_in(&mut *self.lock(rt), pass, Event::Gone { connection })
    }

    /// Hands in the end of the pass's connection. It returns whether the receipts have it. They don't if memory ran out, or the desk is
    /// closed or its history full.
    pub fn part<R: Wait>(&self, rt: &R, pass: &mut Pass<N>) -> bool
        ensures { IsParted pass.old result pass.new }
    {
        let before = pass.calls();
        drop(self.gone(rt, pass));
        pass.calls() != before
    }

    /// Ends the workers: each calls for a job once more, and returns if there is none.
    pub fn stop<R: Wait>(&self, rt: &R) {
        self.lock(rt).stop();
        self.moved.notify_all();
    }

    /// Takes the lock, in turn.
    pub(crate) fn lock<R: Wait>(&self, rt: &R) -> MutexGuard<'_, Locked<H, K, N>> {
        self.turns.lock(rt, &self.locked)
    }

    /// Wakes waiting workers.
    pub(crate) fn wake(&self, waking: Waking) {
        match waking {
            Waking::Nobody => {}
            Waking::OneWorker => self.moved.notify_one(),
            Waking::AllWorkers => self.moved.notify_all(),
        }
    }

    /// The core with its store writer, if these passes counted all calls since the desk was shared. Their receipts are then the calls of
    /// their connections. The calls are legal, none is a restart, the history had room for each, and the store writer failed exactly at
    /// those that weren't stored. Cost: the passes.
    ///
    /// # Errors
    /// `Mismatch` if they made another number of calls, for example because a pass is missing.
    pub fn conclude(self, passes: Vec<Pass<N>>) -> Result<(Box<H>, K), Mismatch>
        ensures legal { IfOk result (λ left. WentLegally N.begun (kept_desk (H.desk left.0.value) (K.kept left.1) (K.failures left.1))) }
        ensures finished { IfOk result (λ left. IsFinished N.begun (kept_desk (H.desk left.0.value) (K.kept left.1) (K.failures left.1)) passes.items) }
    {
        let Shared {
            locked,
            moved,
            turns,
        } = self;
        drop(moved);
        drop(turns);
        locked.into_inner().finish(passes)
    }

    /// The same as [`Self::conclude`], for a caller who doesn't need to know whether each call was stored.
    ///
    /// # Errors
    /// The same.
    pub fn finish(self, passes: Vec<Pass<N>>) -> Result<(Box<H>, K), Mismatch>
        ensures { IfOk result (λ left. IsFinished N.begun (kept_desk (H.desk left.0.value) (K.kept left.1) (K.failures left.1)) passes.items) }
    {
        self.conclude(passes)
    }
}
