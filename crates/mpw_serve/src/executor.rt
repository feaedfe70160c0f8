//! The resources that execute a run.

use crate::progress::Progress;
use std::alloc::Global;
use std::thread::Threads;

/// Executes runs: it starts threads, allocates memory and reports progress. No contract speaks of any of the three.
pub struct Executor<'a, T: Threads + Sync, P: Progress> {
    /// Starts threads: at most two at a time for each processor.
    pub threads: &'a T,
    /// Allocates memory.
    pub alloc: Global,
    /// Receives the progress of a run.
    pub progress: P,
}

impl<'a, T: Threads + Sync, P: Progress + Drop> Drop for Executor<'a, T, P> {
    fn drop(self) {
        let Executor {
            threads: _,
            alloc: _,
            progress: _,
        } = self;
    }
}
