//! How far a check by columns reports that it is.

use crate::columns::book::by_columns;
use anyhow::Result;
use mpw_columns::Progress;
use mpw_tiles::Snapshot;
use std::thread::Threads;

/// What a check reported, first and last, and for how many markers it has room.
#[derive(Clone, Copy)]
struct Told {
    first: Option<usize>,
    last: usize,
    total: usize,
    markers: usize,
    room: usize,
}

/// Nothing was reported yet.
const NOTHING: Told = Told {
    first: None,
    last: 0,
    total: 0,
    markers: 0,
    room: usize::MAX,
};

impl Progress for Told {
    fn tell(&mut self, done: usize, total: usize, markers: usize) {
        if self.first.is_none() {
            self.first = Some(done);
        }
        self.last = done;
        self.total = total;
        self.markers = markers;
    }

    fn has_room(&mut self, markers: usize) -> bool {
        markers <= self.room
    }
}

/// Prints whether a check by columns that has room for so many markers finds all.
pub fn print_room<T: Threads + Sync>(
    rt: &HostRuntime,
    threads: &T,
    snapshot: &Snapshot,
    room: u32,
) -> Result<()> {
    let mut narrow = Told {
        room: room as usize,
        ..NOTHING
    };
    let found = by_columns(threads, rt.alloc(), snapshot, 65536, &mut narrow);
    Ok(println!(rt; "    {}", if found.is_ok() { "found" } else { "no room" })?)
}

/// Prints the first and the last report of a check by columns: those between depend on how many processors there are.
pub fn print_told<T: Threads + Sync>(
    rt: &HostRuntime,
    threads: &T,
    snapshot: &Snapshot,
    most: u32,
) -> Result<()> {
    let mut told = NOTHING;
    by_columns(threads, rt.alloc(), snapshot, most, &mut told)?;
    match told.first {
        Some(first) => Ok(println!(rt;
            "  {first} first, {} of {} last, {} markers",
            told.last, told.total, told.markers
        )?),
        None => Ok(println!(rt; "  nothing")?),
    }
}
