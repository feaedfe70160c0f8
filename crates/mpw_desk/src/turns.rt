//! Whose turn it is for the desk's lock.
//!
//! A mutex isn't fair. A worker that hands in a result and calls again at once can take the lock hundreds of times in a row, before a
//! connection that waits for it is awake. So each thread that wants the lock passes a turnstile, and leaves it as soon as it has the lock.
//! Workers wait in a line before the turnstile. The first worker leaves the line when it gives the lock back. A connection then waits for
//! the holder of the lock, for at most one worker at the turnstile, and for other connections. No proof relies on this: only the lock
//! guards what is shared.

use std::sync::{Mutex, MutexGuard, Wait};

/// The turnstile before a lock, and the line of workers before it.
#[derive(Drop)]
pub(crate) struct Turns {
    turnstile: Mutex<()>,
    line: Mutex<()>,
}

impl Turns {
    /// Nobody waits. It takes no memory.
    pub(crate) fn new() -> Turns {
        Turns {
            turnstile: Mutex::new(()),
            line: Mutex::new(()),
        }
    }

    /// The first place in the line of workers, until the returned guard is dropped. Nobody holds it while waiting on a condition variable.
    pub(crate) fn first_in_line<R: Wait>(&self, rt: &R) -> MutexGuard<'_, ()> {
        self.line.lock(rt)
    }

    /// The lock, past the turnstile.
    pub(crate) fn lock<'a, R: Wait, T>(&self, rt: &R, mutex: &'a Mutex<T>) -> MutexGuard<'a, T> {
        let turn = self.turnstile.lock(rt);
        let guard = mutex.lock(rt);
        drop(turn);
        guard
    }
}
