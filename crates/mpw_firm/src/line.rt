//! The line on which a terminal shows how far a check came, and how long its parts took.
ghost use Rattle.std.specs.Prelude.{◌≡◌, ◌<◌, ◌≤◌, ◌+◌, ◌-◌, ◌*◌, ◌/◌};

use crate::laps::{Lap, Laps};
use crate::memory::{estimated, free_memory, has_room, peak};
use mpw_check::Progress;
use mpw_tiles::Snapshot;
use std::io::{self, IsTerminal};
use std::time::Instant;

/// A line on the standard error, which is written only if that is a terminal, and the times of a check's parts. If the terminal
/// or the clock fails the check goes on.
#[derive(Drop)]
pub struct Line<'a> {
    rt: &'a HostRuntime,
    threads: usize,
    is_shown: bool,
    /// Whether it has to be ended.
    is_open: bool,
    /// Whether columns are checked one by one, and not tiles.
    by_columns: bool,
    /// When the first of them was begun.
    begun: Option<Instant>,
    /// The greatest memory that the process had when the library was read, in MB.
    read: Option<u64>,
    laps: Laps<'a>,
}

/// The seconds that the others take, rounded up, if so many of all took so many ms.
fn seconds_left(taken: u64, done: usize, total: usize) -> u128
    requires some { 0 < done }
    requires within { done ≤ total }
    ensures { result ≡ (taken * (total - done) + 1000 * done - 1) / (1000 * done) }
{
    let each = 1000 * (done as u128);
    (u128::from(taken) * ((total - done) as u128) + each - 1) / each
}

impl<'a> Line<'a> {
    /// The line on the standard error, for a check in so many threads. The first part of the check begins.
    pub fn new(rt: &'a HostRuntime, threads: usize) -> Line<'a> {
        Line {
            rt,
            threads,
            is_shown: rt.stderr().is_terminal(),
            is_open: false,
            by_columns: false,
            begun: None,
            read: None,
            laps: Laps::new(rt),
        }
    }

    /// Prints what was read, which is checked by columns or by tiles, and that this part has ended.
    pub fn tell_read(&mut self, snapshot: &Snapshot, by_columns: bool) {
        self.laps.end(Lap::Read);
        self.read = peak(self.rt);
        self.by_columns = by_columns;
        if self.is_shown {
            let shapes = snapshot.shelf().count(0);
            let _ = eprintln!(self.rt; "mpw: read {shapes} shapes");
        }
    }

    /// What is checked one by one.
    fn parts(&self) -> &'static str {
        if self.by_columns { "columns" } else { "tiles" }
    }

    /// Prints how many tiles there are, into which the layout is cut, or how many columns.
    fn write_begun(&mut self, total: usize) -> io::Result<()> {
        self.begun = Some(Instant::now(self.rt)?);
        let cut = if self.by_columns { "" } else { "cut, " };
        eprint!(self.rt; "\rmpw: {cut}{total} {} to check", self.parts())
    }

    /// Prints about how long the others take, by what these took since the first was begun.
    fn write_left(&self, done: usize, total: usize, begun: &Instant) -> io::Result<()>
        requires some { 0 < done }
        requires within { done ≤ total }
    {
        let taken = u64::try_from(begun.elapsed(self.rt)?.as_millis()).unwrap_or(u64::MAX);
        let left = seconds_left(taken, done, total);
        eprint!(self.rt; ", about {left} s left   ")
    }

    /// Prints how many are checked, and how many markers were found so far.
    fn write_checked(&self, done: usize, total: usize, markers: usize) -> io::Result<()> {
        let parts = self.parts();
        eprint!(self.rt; "\rmpw: {done} of {total} {parts} checked, {markers} markers so far")
    }

    /// Writes the line anew.
    fn write(&mut self, done: usize, total: usize, markers: usize) -> io::Result<()> {
        match self.begun {
            None if done == 0 && total > 0 => self.write_begun(total),
            Some(begun) if 0 < done && done < total => {
                self.write_checked(done, total, markers)?;
                self.write_left(done, total, &begun)
            }
            _ => {
                self.write_checked(done, total, markers)?;
                eprint!(self.rt; "                    ")
            }
        }
    }

    /// Ends the line, if it was begun, with the part that stitches.
    pub fn end(&mut self) {
        self.laps.end(Lap::Stitch);
        if self.is_open {
            let _ = eprintln!(self.rt; "");
        }
        self.is_open = false;
    }

    /// The most memory that the check of a layout is estimated to take, of whose markers so many are held, in MB of 2^20 bytes; none if the system
    /// doesn't say what reading took.
    pub fn estimated(&self, layout: &Snapshot, held: usize) -> Option<u64> {
        let read = self.read?;
        Some(estimated(layout, read, self.threads, held))
    }

    /// The milliseconds since the check began, if the clock can be read.
    pub fn taken(&self) -> Option<u64> {
        self.laps.all()
    }

    /// Ends the part that writes, and prints on the standard error how long each part took.
    pub fn tell_times(&mut self) {
        self.laps.end(Lap::Write);
        let _ = self.laps.tell(self.by_columns);
    }
}

impl Progress for Line<'_> {
    fn tell(&mut self, done: usize, total: usize, markers: usize) {
        if done == 0 {
            self.laps.end(Lap::Cut);
        }
        if self.is_shown {
            self.is_open = true;
            let _ = self.write(done, total, markers);
        }
        if 0 < done && done == total {
            self.laps.end(Lap::Check);
        }
    }

    fn has_room(&mut self, markers: usize) -> bool {
        has_room(markers, free_memory(self.rt, markers))
    }
}
