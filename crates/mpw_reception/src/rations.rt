//! What the strangers of a service may take together.

use mpw_admission::{Budget, OWN_LINES, OWN_RATE, Pail, Times};
use std::sync::{Mutex, Wait};
use std::time::Duration;

/// What the connections of a service may take that never had a session.
#[derive(Clone, Copy, PartialEq, Eq, Debug)]
pub struct Strangers {
    /// How many bytes of payloads are read of all strangers, in the service's life.
    pub memory: u64,
    /// How many lines of all strangers are read in a second. 0 counts as 1.
    pub rate: u32,
    /// How many seconds a stranger may stay.
    pub login: u32,
}

/// What is left for the strangers of a service.
#[derive(Drop)]
pub struct Rations {
    /// The limits of time.
    pub(crate) times: Times,
    lines: Mutex<Pail>,
    payloads: Mutex<Budget>,
}

/// The lines that a stranger gets, at the beginning.
pub(crate) fn own_lines() -> Pail {
    Pail::new(OWN_LINES, OWN_RATE, 0)
}

/// A time in milliseconds, or the longest that can be counted.
fn milliseconds(time: Duration) -> u64 {
    u64::try_from(time.as_millis()).unwrap_or(u64::MAX)
}

impl Rations {
    /// Of a service whose connections may send nothing for so long. Nothing was taken yet.
    pub fn new(strangers: Strangers, idle: Duration) -> Rations {
        let rate = strangers.rate.max(1);
        Rations {
            times: Times {
                login: u64::from(strangers.login) * 1000,
                idle: milliseconds(idle),
            },
            lines: Mutex::new(Pail::new(rate, rate, 0)),
            payloads: Mutex::new(Budget::new(strangers.memory)),
        }
    }

    /// Takes a line of a stranger, whose own lines are those. It returns 0 if the line may be read, and else how many milliseconds it waits before it may be
    /// tried again.
    pub(crate) fn take_line<R: Wait>(&self, rt: &R, own: &mut Pail, now: u64) -> u64 {
        let mut lines = self.lines.lock(rt);
        let wait = own.wait(now).max(lines.wait(now));
        if wait == 0 {
            let _ = own.take(now);
            let _ = lines.take(now);
        }
        wait
    }

    /// Lends a stranger so many bytes for its payload at most, and returns how many.
    pub(crate) fn lend<R: Wait>(&self, rt: &R, most: u64) -> u64 {
        self.payloads.lock(rt).lend(most)
    }
}
