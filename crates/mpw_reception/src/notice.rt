//! The notice that a connection has to leave its place.

use std::sync::{Condvar, Mutex, Wait};
use std::time::{Clock, Duration};

/// Whether a connection has to leave. Who waits for its turn waits for this too, so that it leaves at once.
#[derive(Drop)]
pub(crate) struct Notice {
    is_given: Mutex<bool>,
    changed: Condvar,
}

impl Notice {
    /// Of a connection that may stay.
    pub(crate) fn new() -> Notice {
        Notice {
            is_given: Mutex::new(false),
            changed: Condvar::new(),
        }
    }

    /// Lets the connection leave.
    pub(crate) fn give<R: Wait>(&self, rt: &R) {
        *self.is_given.lock(rt) = true;
        self.changed.notify_all();
    }

    /// Whether the connection has to leave.
    pub(crate) fn is_given<R: Wait>(&self, rt: &R) -> bool {
        *self.is_given.lock(rt)
    }

    /// Waits so many milliseconds, or until the connection has to leave.
    pub(crate) fn wait<R: Wait + Clock>(&self, rt: &R, milliseconds: u64) {
        let patience = Duration::from_millis(milliseconds);
        let is_given = self.is_given.lock(rt);
        let _ = self
            .changed
            .wait_timeout_while(rt, is_given, patience, |is_given| !*is_given);
    }
}
