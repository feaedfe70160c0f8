//! Lets a worker wait longer each time that it finds no memory for the same tile.
//!
//! A worker that found no memory takes a job again after a second. If that is the tile that it tried before, it waits here for the rest of its pause.

use crate::steering::Steering;
use mpw_admission::Retries;
use mpw_job::Gate;
use std::sync::{Mutex, Wait};
use std::time::Clock;

/// How many seconds a worker has waited already when it tries a tile again.
const WAITED: u64 = 1;

/// Lets a tile pass at once, unless its worker tried it just before.
pub(crate) struct Patience<'a, R: Wait + Clock> {
    rt: &'a R,
    steering: &'a Steering,
    retries: Mutex<Retries>,
}

impl<'a, R: Wait + Clock> Drop for Patience<'a, R> {
    fn drop(self) {
        let Patience {
            rt: _,
            steering: _,
            retries,
        } = self;
        drop(retries);
    }
}

impl<'a, R: Wait + Clock> Patience<'a, R> {
    /// Of a worker that tried no tile yet.
    pub(crate) fn new(rt: &'a R, steering: &'a Steering) -> Self {
        Patience {
            rt,
            steering,
            retries: Mutex::new(Retries::new()),
        }
    }
}

impl<'a, R: Wait + Clock> Gate for Patience<'a, R> {
    fn pass(&self, run: u32, tile: u32) {
        let pause = self.retries.lock(self.rt).pause_before(run, tile);
        self.steering.sleep(self.rt, pause.saturating_sub(WAITED));
    }
}
