//! Files in memory that fail, and what they have then.
ghost use Rattle.std.specs.Prelude.{IsTrue, IfOk};
ghost use Rattle.sqlite_disk.specs.Memory.{memory_is_usable};

use anyhow::Result;
use mpw_store::open_table;
use mpw_store_listing::check_rows;
use sqlite::{Connection, Files, Options};
use sqlite_disk::{Crash, Disk, Fuse, Memory};
use std::alloc::Global;

/// After how many calls each file fails.
#[derive(Clone, Copy)]
pub struct Fuses {
    /// How many calls of the log succeed.
    pub log: u64,
    /// How many of the database's own file.
    pub database: u64,
}

impl Fuses {
    /// One of the files fails after so many calls.
    pub fn of(calls: u64, is_log: bool) -> Fuses {
        if is_log {
            Fuses {
                log: calls,
                database: u64::MAX,
            }
        } else {
            Fuses {
                log: u64::MAX,
                database: calls,
            }
        }
    }
}

/// What one stop came to.
#[derive(Clone, Copy)]
pub enum Outcome {
    /// The store wasn't opened.
    Unopened,
    /// What was done over it was stopped.
    Stopped,
    /// Nothing was stopped.
    Whole,
}

/// What a store has after a stop.
#[derive(Clone, Copy)]
pub struct After {
    /// What the stop came to.
    pub outcome: Outcome,
    /// How many rows were reported as stored.
    pub committed: usize,
    /// How many rows it has if the process died.
    pub killed: usize,
    /// How many rows it has if the power failed.
    pub cut_off: usize,
}

/// A file of the same bytes, all of them synced.
fn same(alloc: Global, from: &Memory) -> Result<Memory>
    ensures { IfOk result (λ file. IsTrue (memory_is_usable file)) }
{
    let mut file = Memory::new(alloc);
    file.write_at(0, from.bytes())?;
    file.sync()?;
    Ok(file)
}

/// How many rows the next open finds, each of which is one.
fn rows_in(alloc: Global, files: Files<Memory>) -> Result<usize>
    requires log { IsTrue (memory_is_usable files.log) }
    requires db { IsTrue (memory_is_usable files.db) }
{
    match Connection::open_files(alloc, files, Options::new(9)) {
        Ok(mut conn) => {
            open_table(&mut conn)?;
            Ok(check_rows(alloc, &mut conn)? as usize)
        }
        Err((error, _)) => Err(error.into()),
    }
}

/// How many rows the files have if the process died, and if the power failed.
pub fn look(alloc: Global, files: Files<Fuse<Memory>>) -> Result<(usize, usize)> {
    let mut files = files;
    let killed = Files {
        log: same(alloc, files.log.inner())?,
        db: same(alloc, files.db.inner())?,
    };
    let killed = rows_in(alloc, killed)?;
    files.log.crash();
    files.db.crash();
    let cut_off = Files {
        log: same(alloc, files.log.inner())?,
        db: same(alloc, files.db.inner())?,
    };
    Ok((killed, rows_in(alloc, cut_off)?))
}
