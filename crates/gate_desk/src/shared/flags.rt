//! Flags that threads set and wait for, for a limited number of turns.

use std::sync::atomic::{AtomicBool, AtomicU32, Ordering};
use std::thread;

/// How often a waiting thread tests a flag.
const MOST_TURNS: u32 = 10_000_000;

/// An event of the day that threads wait for.
#[derive(Clone, Copy, PartialEq, Eq)]
pub enum Flag {
    /// The first run was accepted.
    Running,
    /// A request was refused while the first run is going on.
    Refused,
    /// A worker is at the gate with tile 0.
    Held,
    /// Tile 0 passes the gate.
    Passing,
    /// The last run is finished, and its markers were printed.
    Finished,
}

impl Flag {
    /// The flag of a word.
    pub fn read(word: &str) -> Option<Flag> {
        match word {
            "running" => Some(Flag::Running),
            "refused" => Some(Flag::Refused),
            "held" => Some(Flag::Held),
            "passing" => Some(Flag::Passing),
            "finished" => Some(Flag::Finished),
            _ => None,
        }
    }
}

/// The flags of a day, each of which stays set, and how many connections have ended.
#[derive(Drop)]
pub struct Flags {
    running: AtomicBool,
    refused: AtomicBool,
    held: AtomicBool,
    passing: AtomicBool,
    finished: AtomicBool,
    ended: AtomicU32,
}

impl Flags {
    /// No flag is set, and no connection has ended.
    pub fn new() -> Flags {
        Flags {
            running: AtomicBool::new(false),
            refused: AtomicBool::new(false),
            held: AtomicBool::new(false),
            passing: AtomicBool::new(false),
            finished: AtomicBool::new(false),
            ended: AtomicU32::new(0),
        }
    }

    /// The word of a flag.
    fn of(&self, flag: Flag) -> &AtomicBool {
        match flag {
            Flag::Running => &self.running,
            Flag::Refused => &self.refused,
            Flag::Held => &self.held,
            Flag::Passing => &self.passing,
            Flag::Finished => &self.finished,
        }
    }

    /// Sets a flag.
    pub fn set(&self, flag: Flag) {
        self.of(flag).store(true, Ordering::SeqCst);
    }

    /// Counts a connection that ends, and returns how many have ended with it.
    pub fn end(&self) -> u32 {
        self.ended.fetch_add(1, Ordering::SeqCst).saturating_add(1)
    }

    /// Waits for a flag, at most 10,000,000 turns. Each turn yields the processor to others. It returns whether the flag was set.
    pub fn wait(&self, flag: Flag) -> bool {
        for _ in 0..MOST_TURNS {
            if self.of(flag).load(Ordering::SeqCst) {
                return true;
            }
            thread::yield_now();
        }
        false
    }
}
