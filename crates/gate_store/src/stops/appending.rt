//! An append that is stopped.
ghost use Rattle.std.specs.Prelude.{IsTrue, IfOk};
ghost use Rattle.sqlite_disk.specs.Memory.{memory_is_usable};

use crate::stops::disks::{After, Fuses, Outcome, look};
use anyhow::Result;
use mpw_store::{StoreFault, append, open_table};
use mpw_store_rows::{Kind, StoredRow};
use sqlite::{Alter, Connection, Files, Options};
use sqlite_disk::{Fuse, Memory};
use std::alloc::Global;

/// Appends a row at that place.
fn add<S: Alter>(
    alloc: Global,
    conn: &mut Connection<S>,
    place: u32,
    payload: &[u8],
) -> Result<(), StoreFault> {
    let line = format!(in alloc; "submit pad PAD {}", payload.len())?;
    append(
        conn,
        &StoredRow {
            place,
            connection: 1,
            kind: Kind::Request,
            line: line.as_str(),
            payload: Some(payload),
        },
    )
}

/// Makes the table, with three rows.
fn fill<S: Alter>(alloc: Global, conn: &mut Connection<S>) -> Result<(), StoreFault> {
    open_table(conn)?;
    for place in 1..4u32 {
        add(alloc, conn, place, b"payload".as_slice())?;
    }
    Ok(())
}

/// Files of a store with three rows.
fn base(alloc: Global) -> Result<Files<Memory>>
    ensures { IfOk result (λ files. IsTrue (memory_is_usable files.log) × IsTrue (memory_is_usable files.db)) }
{
    let files = Files {
        log: Memory::new(alloc),
        db: Memory::new(alloc),
    };
    let mut conn = match Connection::open_files(alloc, files, Options::new(7)) {
        Ok(conn) => conn,
        Err((error, _)) => return Err(error.into()),
    };
    fill(alloc, &mut conn)?;
    match conn.close_files() {
        Ok(files) => Ok(files),
        Err((error, store)) => {
            drop(store.close());
            Err(error.into())
        }
    }
}

/// Appends a fourth row to a store whose files fail, and looks at what it has then.
pub fn stop_append(alloc: Global, fuses: Fuses, payload: &[u8]) -> Result<After> {
    let files = base(alloc)?;
    let files = Files {
        log: Fuse::new(files.log, fuses.log),
        db: Fuse::new(files.db, fuses.database),
    };
    let (outcome, files) = match Connection::open_files(alloc, files, Options::new(8)) {
        Ok(mut conn) => {
            let outcome = match add(alloc, &mut conn, 4, payload) {
                Ok(()) => Outcome::Whole,
                Err(_) => Outcome::Stopped,
            };
            (outcome, conn.into_store().close())
        }
        Err((_, left)) => (Outcome::Unopened, left.into_files()),
    };
    let (killed, cut_off) = look(alloc, files)?;
    let committed = if matches!(outcome, Outcome::Whole) {
        4
    } else {
        3
    };
    Ok(After {
        outcome,
        committed,
        killed,
        cut_off,
    })
}
