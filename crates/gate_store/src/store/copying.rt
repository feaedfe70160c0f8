//! The first rows of a store, copied.

use crate::store::store::{Store, add_row, hand_rows, new_store};
use anyhow::Result;
use mpw_store::TakesRows;
use mpw_store_rows::{Kind, StoredRow};
use sqlite::{Alter, Connection, MemStore};
use std::alloc::{AllocError, Global};

/// A row that owns its line and its payload.
#[derive(Drop)]
pub struct OwnRow {
    /// Which connection asked or ended.
    pub connection: u32,
    /// What it is stored of.
    pub kind: Kind,
    /// Its line.
    pub line: String,
    payload: Option<Vec<u8>>,
}

/// Who copies rows.
#[derive(Drop)]
struct Copier {
    alloc: Global,
    rows: Vec<OwnRow>,
}

impl TakesRows for Copier {
    ghost use Rattle.std.specs.Prelude.{⊤};

    ghost takes = { λ _ _ _. ⊤ };

    fn take(&mut self, row: &StoredRow<'_>) -> Result<bool, AllocError> {
        let payload = match row.payload {
            Some(bytes) => Some(bytes.to_vec(self.alloc)?),
            None => None,
        };
        let copy = OwnRow {
            connection: row.connection,
            kind: row.kind,
            line: String::from_str(self.alloc, row.line)?,
            payload,
        };
        match self.rows.push(copy) {
            Ok(()) => Ok(true),
            Err(_) => Err(AllocError),
        }
    }
}

/// The rows of a store.
pub fn copy_rows<S: Alter + Drop>(
    alloc: Global,
    store: Store<S>,
) -> Result<(Store<S>, Vec<OwnRow>)> {
    let mut copier = Copier {
        alloc,
        rows: Vec::new(alloc),
    };
    let (store, _count) = hand_rows(store, &mut copier)?;
    Ok((store, copier.rows))
}

/// A new store with the first rows of another, so many.
pub fn first_rows(alloc: Global, store: Store<MemStore>, most: usize) -> Result<Store<MemStore>> {
    let (_store, rows) = copy_rows(alloc, store)?;
    let mut copy = new_store(Connection::open_in_memory(alloc)?);
    let mut place = 0u32;
    for row in rows.iter().take(most) {
        place = place.saturating_add(1);
        let row = StoredRow {
            place,
            connection: row.connection,
            kind: row.kind,
            line: row.line.as_str(),
            payload: row.payload.as_ref().map(|bytes| bytes.as_slice()),
        };
        copy = add_row(copy, &row)?;
    }
    Ok(copy)
}
