//! A day of a shared desk: what its connections do, and the gate that its workers pass.

use crate::shared::flags::{Flag, Flags};
use anyhow::{Result, bail};
use gate_words::number;
use mpw_job::Gate;
use std::alloc::Global;
use std::sync::atomic::{AtomicBool, Ordering};

/// Which passes of tile 0 the gate holds, until the flag `passing` is set.
#[derive(Clone, Copy, PartialEq, Eq)]
pub enum Hold {
    /// Each pass.
    Each,
    /// The first alone.
    First,
}

/// Whose pass is left out at the end.
#[derive(Clone, Copy, PartialEq, Eq)]
pub enum KeptBack {
    /// Nobody's.
    Nobody,
    /// The first connection's.
    Connection,
    /// The last worker's.
    Worker,
}

/// What threads see of a day, besides its gate.
pub trait Script: Gate {
    /// The allocator of what its threads note.
    fn alloc(&self) -> Global;

    /// The flags that its threads set and wait for.
    fn flags(&self) -> &Flags;

    /// The lines of its script.
    fn text(&self) -> &str;

    /// How many connections it has.
    fn connections(&self) -> u32;

    /// How many workers it has.
    fn workers(&self) -> u32;
}

/// A day of a desk.
#[derive(Drop)]
pub struct Day {
    alloc: Global,
    hold: Hold,
    kept_back: KeptBack,
    text: String,
    connections: u32,
    workers: u32,
    is_late: bool,
    flags: Flags,
    was_held: AtomicBool,
    was_given_up: AtomicBool,
}

/// Which passes of tile 0 are held, by their word.
fn read_hold(word: &str) -> Result<Hold> {
    match word {
        "each" => Ok(Hold::Each),
        "first" => Ok(Hold::First),
        _ => bail!("which passes of tile 0 are held"),
    }
}

/// Whose pass is left out, by the word.
fn read_kept_back(word: &str) -> Result<KeptBack> {
    match word {
        "none" => Ok(KeptBack::Nobody),
        "connection" => Ok(KeptBack::Connection),
        "worker" => Ok(KeptBack::Worker),
        _ => bail!("whose pass is kept back"),
    }
}

impl Day {
    /// The day of a script, with the passes that the gate holds, and the pass that is left out.
    ///
    /// A line `workers N` gives the number of workers. A line `late` says that a worker hands in tile 0 of run 1 too late. A line
    /// `connection` begins the steps of the next connection. A line that begins with `#` is a comment.
    ///
    /// # Errors
    /// The words are none of these.
    pub fn read(alloc: Global, text: String, hold: &str, kept_back: &str) -> Result<Day> {
        let hold = read_hold(hold)?;
        let kept_back = read_kept_back(kept_back)?;
        let (mut connections, mut workers, mut is_late) = (0u32, 0u32, false);
        for line in text.lines() {
            match line.split_once(' ') {
                Some(("workers", count)) => workers = number(count)?,
                _ if line == "late" => is_late = true,
                _ if line == "connection" => connections = connections.saturating_add(1),
                _ => {}
            }
        }
        if connections == 0 {
            bail!("a connection");
        }
        Ok(Day {
            alloc,
            hold,
            kept_back,
            text,
            connections,
            workers,
            is_late,
            flags: Flags::new(),
            was_held: AtomicBool::new(false),
            was_given_up: AtomicBool::new(false),
        })
    }

    /// Whose pass is left out at the end.
    pub fn kept_back(&self) -> KeptBack {
        self.kept_back
    }

    /// Whether a worker hands in tile 0 of run 1 too late.
    pub fn is_late(&self) -> bool {
        self.is_late
    }

    /// Whether the gate held a worker until its turns were over.
    pub fn was_given_up(&self) -> bool {
        self.was_given_up.load(Ordering::SeqCst)
    }

    /// Whether the gate holds a worker that comes with tile 0.
    fn is_held(&self) -> bool {
        let was_held = self.was_held.swap(true, Ordering::SeqCst);
        self.hold == Hold::Each || !was_held
    }
}

impl Gate for Day {
    fn pass(&self, _run: u32, tile: u32) {
        if tile != 0 || !self.is_held() {
            return;
        }
        self.flags.set(Flag::Held);
        if !self.flags.wait(Flag::Passing) {
            self.was_given_up.store(true, Ordering::SeqCst);
        }
    }
}

impl Script for Day {
    fn alloc(&self) -> Global {
        self.alloc
    }

    fn flags(&self) -> &Flags {
        &self.flags
    }

    fn text(&self) -> &str {
        self.text.as_str()
    }

    fn connections(&self) -> u32 {
        self.connections
    }

    fn workers(&self) -> u32 {
        self.workers
    }
}
