//! How long each part of a check takes. If the clock can't be read, that time is left out. `specs/Times.antt` has what contracts say of it.
ghost use Rattle.std.specs.Prelude.{◌≡◌, ℕ, Option, None, IfOk};
ghost use Rattle.std.specs.String.{string_bytes};
ghost use Rattle.mpw_firm.specs.Times.{begun_by, cut_name, lap_text, stitch_name, taken_with, times_text, with_lap};

use std::alloc::{AllocError, Global};
use std::io;
use std::time::Instant;

/// A part of a check.
#[derive(Clone, Copy, Drop)]
pub enum Lap {
    /// Reading the files, and placing the structure.
    Read,
    /// Cutting the layout into the windows of its tiles, or halving it to columns.
    Cut,
    /// Checking the tiles or the columns.
    Check,
    /// Stitching the tiles' markers, or joining the columns'.
    Stitch,
    /// Writing what is wanted.
    Write,
}

/// The milliseconds that the parts took, those that are known.
#[derive(Clone, Copy, Drop)]
pub struct Taken {
    read: Option<u64>,
    cut: Option<u64>,
    check: Option<u64>,
    stitch: Option<u64>,
    write: Option<u64>,
}

impl Taken {
    /// No part's time.
    fn none() -> Taken
        ensures { result ≡ record { read = None; cut = None; check = None; stitch = None; write = None } }
    {
        Taken {
            read: None,
            cut: None,
            check: None,
            stitch: None,
            write: None,
        }
    }

    /// The same with the time of a part.
    fn with(self, lap: Lap, time: Option<u64>) -> Taken
        ensures { result ≡ taken_with self lap time }
    {
        let mut taken = self;
        match lap {
            Lap::Read => taken.read = time,
            Lap::Cut => taken.cut = time,
            Lap::Check => taken.check = time,
            Lap::Stitch => taken.stitch = time,
            Lap::Write => taken.write = time,
        }
        taken
    }
}

/// The times of the parts so far, and the clock.
#[derive(Drop)]
pub struct Laps<'a> {
    rt: &'a HostRuntime,
    start: Option<Instant>,
    last: Option<Instant>,
    taken: Taken,
}

/// The time now, if the clock can be read.
fn now(rt: &HostRuntime) -> Option<Instant> {
    Instant::now(rt).ok()
}

/// The milliseconds since then, if the clock can be read.
fn since(rt: &HostRuntime, then: Option<Instant>) -> Option<u64> {
    match then?.elapsed(rt) {
        Ok(taken) => u64::try_from(taken.as_millis()).ok(),
        Err(_) => None,
    }
}

/// What is before the next time.
fn begun_by(text: &str) -> &'static str
    ensures { result.now ≡ begun_by text.now }
{
    if text.is_empty() { "times:" } else { "," }
}

/// A part's time.
#[tactic(auto, unfolding(crate::specs::Times::lap_text))]
fn lap_text(alloc: Global, before: &str, name: &str, time: u64) -> Result<String, AllocError>
    ensures { IfOk result (λ text. string_bytes text ≡ lap_text before.now name.now time) }
{
    format!(in alloc; "{before} {name} {time} ms")
}

/// Adds a part's time, if it is known.
fn add_lap(
    alloc: Global,
    text: &mut String,
    name: &str,
    time: Option<u64>,
) -> Result<(), AllocError>
    ensures { IfOk result (λ _. string_bytes text.new ≡ with_lap (string_bytes text.old) name.now time) }
{
    match time {
        Some(time) => {
            let before = begun_by(text.as_str());
            let lap = lap_text(alloc, before, name, time)?;
            text.push_str(lap.as_str())
        }
        None => Ok(()),
    }
}

/// What the part that cuts is called.
fn cut_name(by_columns: bool) -> &'static str
    ensures { result.now ≡ cut_name by_columns }
{
    if by_columns { "halve" } else { "cut" }
}

/// What the part that stitches is called.
fn stitch_name(by_columns: bool) -> &'static str
    ensures { result.now ≡ stitch_name by_columns }
{
    if by_columns { "join" } else { "stitch" }
}

/// How long each part took, as `times: read 3 ms, cut 1 ms`; nothing if none is known.
fn times_text(alloc: Global, taken: &Taken, by_columns: bool) -> Result<String, AllocError>
    ensures { IfOk result (λ text. string_bytes text ≡ times_text taken.now by_columns) }
{
    let mut text = String::new(alloc);
    add_lap(alloc, &mut text, "read", taken.read)?;
    add_lap(alloc, &mut text, cut_name(by_columns), taken.cut)?;
    add_lap(alloc, &mut text, "check", taken.check)?;
    add_lap(alloc, &mut text, stitch_name(by_columns), taken.stitch)?;
    add_lap(alloc, &mut text, "write", taken.write)?;
    Ok(text)
}

impl<'a> Laps<'a> {
    /// Begins the first part.
    pub fn new(rt: &'a HostRuntime) -> Laps<'a> {
        let start = now(rt);
        Laps {
            rt,
            start,
            last: start,
            taken: Taken::none(),
        }
    }

    /// Ends a part, and begins the next.
    pub fn end(&mut self, lap: Lap)
        ensures { (time : Option ℕ) × (self.new.taken ≡ taken_with self.old.taken lap time) }
    {
        self.taken = self.taken.with(lap, since(self.rt, self.last));
        self.last = now(self.rt);
    }

    /// The milliseconds since the first part began.
    pub fn all(&self) -> Option<u64> {
        since(self.rt, self.start)
    }

    /// Prints on the standard error how long each part took, as `times: read 3 ms, cut 1 ms`, or `halve` if columns were checked; nothing if
    /// no time is known.
    ///
    /// # Errors
    /// Out of memory, or that of the standard error.
    pub fn tell(&self, by_columns: bool) -> io::Result<()> {
        let times = times_text(self.rt.alloc(), &self.taken, by_columns)?;
        if !times.is_empty() {
            eprintln!(self.rt; "{}", times.as_str())?;
        }
        Ok(())
    }
}
