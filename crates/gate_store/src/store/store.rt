//! A store that may be reopened.
ghost use Rattle.mpw_stored_desk.specs.Reopening.{IsIdle};
ghost use Rattle.sqlite.specs.Held.{state};
ghost use Rattle.sqlite.specs.State.{HasCleanDisk, Opens};

use anyhow::Result;
use mpw_store::{TakesRows, append, open_table, read_rows};
use mpw_store_rows::StoredRow;
use sqlite::{Alter, Connection};
use std::marker::Model;

/// A store between two transactions.
pub struct Store<S: Alter> {
    conn: Connection<S>,
}

impl<S: Alter + Drop> Drop for Store<S> {
    fn drop(self) {
        let Store { conn } = self;
        drop(conn);
    }
}

impl<S: Alter> Model for Store<S> {
    ghost use Rattle.std.specs.Prelude.{⊤};
    ghost use Rattle.mpw_stored_desk.specs.Reopening.{IsIdle};
    ghost use Rattle.sqlite.specs.Held.{state};
    ghost use Rattle.sqlite.specs.State.{HasCleanDisk};

    ghost Value = { ⊤ };

    ghost view = { λ _. tt };

    ghost invariant = { λ store. HasCleanDisk (state S.Store store.conn) → IsIdle (state S.Store store.conn) };
}

impl<S: Alter> Store<S> {
    /// A store over a connection between two transactions.
    pub fn over(conn: Connection<S>) -> Store<S>
        requires { HasCleanDisk (state S.Store conn) → IsIdle (state S.Store conn) }
    {
        Store { conn }
    }

    /// The connection.
    pub fn into_conn(self) -> Connection<S>
        ensures { HasCleanDisk (state S.Store result) → IsIdle (state S.Store result) }
    {
        let Store { conn } = self;
        conn
    }
}

/// A store over a connection that was opened.
pub fn new_store<S: Alter>(conn: Connection<S>) -> Store<S>
    requires { HasCleanDisk (state S.Store conn) → Opens (state S.Store conn) }
{
    Store::over(conn)
}

/// The store with one more row.
pub fn add_row<S: Alter + Drop>(store: Store<S>, row: &StoredRow<'_>) -> Result<Store<S>> {
    let mut conn = store.into_conn();
    open_table(&mut conn)?;
    append(&mut conn, row)?;
    Ok(Store::over(conn))
}

/// Hands the rows of a store to a taker, and returns how many there are.
pub fn hand_rows<S: Alter + Drop, T: TakesRows>(
    store: Store<S>,
    taker: &mut T,
) -> Result<(Store<S>, u32)>
    requires { T.can_take }
{
    let mut conn = store.into_conn();
    open_table(&mut conn)?;
    let count = read_rows(&mut conn, taker)?;
    Ok((Store::over(conn), count))
}
