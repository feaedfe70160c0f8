//! What handles events, one by one.
ghost use Rattle.std.specs.Prelude.{◌≡◌, true, false, None, is_some, IfOk, OnErr};
ghost use Rattle.mpw_events.specs.History.{Desk, IsHandled, kept_desk, new_desk, restarts, state_of};
ghost use Rattle.mpw_events.specs.Restoring.{IsRestored, job_cut};
ghost use Rattle.mpw_rbac.specs.Policy.{session_of};

use crate::{Call, Event, Keeper, Response};
use mpw_geom::Name;
use mpw_job::CutJob;
use mpw_rbac::Digest;
use std::alloc::{AllocError, Global};

/// Handles events. Contracts see the officer and the calls so far.
pub trait Handler {
    ghost desk: { Self → Desk };

    /// The handler of a new desk, with an empty history, in a box.
    ///
    /// # Errors
    /// Out of memory.
    fn new_boxed(alloc: Global, officer: Name, digest: Digest) -> Result<Box<Self>, AllocError>
        ensures { IfOk result (λ handler. desk handler.value ≡ new_desk officer digest) };

    /// Handles one event. Its change is handed to the store writer first. If it can't be stored, the desk is closed.
    ///
    /// # Errors
    /// Out of memory. Then the desk is unchanged, and the store writer has neither stored nor failed.
    fn handle<K: Keeper>(&mut self, keeper: &mut K, event: Event) -> Result<Response, AllocError>
        requires restart { restarts event ≡ true → K.kept keeper.old ≡ None }
        ensures ok { IfOk result (λ response. IsHandled (kept_desk (desk self.old) (K.kept keeper.old) (K.failures keeper.old)) event response (kept_desk (desk self.new) (K.kept keeper.new) (K.failures keeper.new))) }
        ensures err { OnErr result (kept_desk (desk self.new) (K.kept keeper.new) (K.failures keeper.new) ≡ kept_desk (desk self.old) (K.kept keeper.old) (K.failures keeper.old)) };

    /// The calls so far, each with its response. Constant time.
    fn calls(&self) -> &[Call]
        ensures { result.now ≡ (desk self.now).history };

    /// Handles an event that was handled and stored before, for example when a desk is made from stored changes. Nothing is handed to a
    /// store writer, and the history's limit doesn't count.
    ///
    /// # Errors
    /// Out of memory, or the history has 2^31 calls. Then the desk is unchanged.
    fn restore(&mut self, event: Event) -> Result<Response, AllocError>
        requires open { (state_of (desk self.old)).closed ≡ false }
        ensures ok { IfOk result (λ response. IsRestored (desk self.old) event response (desk self.new)) }
        ensures err { OnErr result (desk self.new ≡ desk self.old) };

    /// Whether the connection has a session.
    fn has_session(&self, connection: u32) -> bool
        ensures { result ≡ is_some (session_of (state_of (desk self.now)).policy connection) };

    /// The job of cutting the run's snapshot, if the run is in its cutting. It is the job that a call gets, but this is no call of the
    /// history. Cost: a copy of the snapshot.
    ///
    /// # Errors
    /// Out of memory, or no more copies can be counted.
    fn cut_job(&self, alloc: Global) -> Result<Option<CutJob>, AllocError>
        ensures { IfOk result (λ job. job ≡ job_cut (state_of (desk self.now)).run) };
}
