//! The passes that come back from the threads of a service. What a thread returns is known by its type alone, so each type here says what it has.
ghost use Rattle.std.specs.Prelude.{◌≡◌, ◌+◌, ◌∷◌, ◌++◌, [], Err, Ok, true, vec_len};

use crate::fault::ServeFault;
use mpw_desk::{Pass, Room};
use std::alloc::Global;

/// What a thread gives back. It has a pass for each connection that it took, unless there was no memory for one.
#[derive(Drop)]
pub(crate) struct Part<N: Room> {
    /// A worker's pass.
    worker: Option<Pass<N>>,
    /// The passes of its connections.
    pub(crate) passes: Vec<Pass<N>>,
    /// How many connections it took.
    taken: u64,
    /// Whether no pass was lost.
    is_whole: bool,
    ghost counted: { is_whole ≡ true → vec_len passes ≡ taken },
}

/// What threads gave back: a pass for each connection that they took, and one for each worker, unless there was no memory for one.
#[derive(Drop)]
pub(crate) struct Parts<N: Room> {
    passes: Vec<Pass<N>>,
    served: u64,
    workers: u32,
    pub(crate) is_whole: bool,
    ghost counted: { is_whole ≡ true → vec_len passes ≡ served + workers },
}

/// The passes that came back from a service, and whether it ended well: then there is one for each connection and for each worker.
#[derive(Drop)]
pub struct Gathered<N: Room> {
    /// Those of its connections and its workers. If there was no memory for them, some are missing.
    pub passes: Vec<Pass<N>>,
    /// How many connections were served.
    pub served: u64,
    /// How many workers executed runs.
    pub workers: u32,
    /// Why it ended early, if it did.
    pub ended: Result<(), ServeFault>,
    pub ghost counted: { ended ≡ Ok tt → vec_len passes ≡ served + workers },
}

/// Adds a pass to others, and returns whether there was room.
pub(crate) fn add<N: Room>(passes: &mut Vec<Pass<N>>, pass: Pass<N>) -> bool
    ensures items { result ≡ true → passes.new.items ≡ passes.old.items ++ pass ∷ [] }
    ensures len { result ≡ true → vec_len passes.new ≡ vec_len passes.old + 1 }
{
    passes.push(pass).is_ok()
}

/// Adds passes to others, and returns whether there was room.
fn add_all<N: Room>(passes: &mut Vec<Pass<N>>, more: Vec<Pass<N>>) -> bool
    ensures items { result ≡ true → passes.new.items ≡ passes.old.items ++ more.items }
    ensures len { result ≡ true → vec_len passes.new ≡ vec_len passes.old + vec_len more }
{
    let mut more = more;
    passes.append(&mut more).is_ok()
}

impl<N: Room> Part<N> {
    /// Of a thread that serves connections, before the first.
    pub(crate) fn new(alloc: Global) -> Part<N> {
        Part {
            worker: None,
            passes: Vec::new(alloc),
            taken: 0,
            is_whole: true,
        }
    }

    /// Of a worker with its pass, if it had one.
    pub(crate) fn of_worker(alloc: Global, worker: Option<Pass<N>>) -> Part<N>
        ensures { result.worker ≡ worker }
    {
        Part {
            worker,
            passes: Vec::new(alloc),
            taken: 0,
            is_whole: true,
        }
    }

    /// Takes in the pass of a connection that was served, and returns whether there was room.
    pub(crate) fn put(&mut self, pass: Pass<N>) -> bool {
        let has_room = add(&mut self.passes, pass);
        match self.taken.checked_add(1) {
            Some(taken) => {
                self.taken = taken;
                self.is_whole = self.is_whole & has_room;
            }
            None => self.is_whole = false,
        }
        self.is_whole
    }
}

impl<N: Room> Parts<N> {
    /// Of no thread.
    pub(crate) fn new(alloc: Global) -> Parts<N> {
        Parts {
            passes: Vec::new(alloc),
            served: 0,
            workers: 0,
            is_whole: true,
        }
    }

    /// Takes in what a thread gave back.
    pub(crate) fn take_in(&mut self, part: Part<N>) {
        let Part {
            worker,
            passes,
            taken,
            is_whole,
        } = part;
        self.take_in_served(passes, taken, is_whole);
        if let Some(pass) = worker {
            self.take_in_worker(pass);
        }
    }

    /// Takes in the passes of so many connections, which are all or not.
    fn take_in_served(&mut self, passes: Vec<Pass<N>>, taken: u64, is_whole: bool)
        requires { is_whole ≡ true → vec_len passes ≡ taken }
    {
        let was_added = add_all(&mut self.passes, passes);
        match self.served.checked_add(taken) {
            Some(served) => {
                self.served = served;
                self.is_whole = self.is_whole & is_whole & was_added;
            }
            None => self.is_whole = false,
        }
    }

    /// Takes in a worker's pass.
    fn take_in_worker(&mut self, pass: Pass<N>) {
        let was_added = add(&mut self.passes, pass);
        match self.workers.checked_add(1) {
            Some(workers) => {
                self.workers = workers;
                self.is_whole = self.is_whole & was_added;
            }
            None => self.is_whole = false,
        }
    }

    /// The passes of a service that ended so.
    pub(crate) fn gathered(self, ended: Result<(), ServeFault>) -> Gathered<N>
        ensures passes { result.passes ≡ self.passes }
        ensures served { result.served ≡ self.served }
        ensures workers { result.workers ≡ self.workers }
    {
        let Parts {
            passes,
            served,
            workers,
            is_whole,
        } = self;
        let ended = match ended {
            Ok(()) if !is_whole => Err(ServeFault::Memory),
            _ => ended,
        };
        Gathered {
            passes,
            served,
            workers,
            ended,
        }
    }
}

impl<N: Room> Gathered<N> {
    /// Of a service that didn't begin.
    pub(crate) fn none(alloc: Global, fault: ServeFault) -> Gathered<N>
        ensures { result.ended ≡ Err fault }
    {
        Gathered {
            passes: Vec::new(alloc),
            served: 0,
            workers: 0,
            ended: Err(fault),
        }
    }

    /// The same, if it had so many workers; else it didn't end well, since a thread was missing.
    pub(crate) fn with_workers(self, workers: u32) -> Gathered<N>
        ensures { result.ended ≡ Ok tt → vec_len result.passes ≡ result.served + workers }
    {
        let Gathered {
            passes,
            served,
            workers: had,
            ended,
        } = self;
        let ended = match ended {
            Ok(()) if had != workers => Err(ServeFault::Thread),
            _ => ended,
        };
        Gathered {
            passes,
            served,
            workers: had,
            ended,
        }
    }

    /// The passes, and whether the service ended well.
    pub(crate) fn into_parts(self) -> (Vec<Pass<N>>, Result<(), ServeFault>)
        ensures passes { result.0 ≡ self.passes }
        ensures ended { result.1 ≡ self.ended }
    {
        let Gathered {
            passes,
            served: _,
            workers: _,
            ended,
        } = self;
        (passes, ended)
    }
}
