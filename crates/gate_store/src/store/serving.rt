//! One connection over the desk of a store.

use crate::store::store::Store;
use gate_events::{Paper, Text};
use mpw_core::Core;
use mpw_events::NoKeeper;
use mpw_serve::{End, Executor, OwnDesk, Silent, serve_core};
use mpw_settings::Officer;
use mpw_store::StoreFault;
use mpw_stored_desk::{Reopened, Stopped, StoredFault, reopen, serve_store};
use mpw_wire::WireFault;
use sqlite::Alter;
use std::alloc::Global;
use std::thread::Threads;

/// What came of a connection: the store, if its desk wasn't closed, what was answered, and how it ended.
#[derive(Drop)]
pub struct Came<S: Alter> {
    /// The store, none if the desk was closed.
    pub store: Option<Store<S>>,
    /// What was answered.
    pub text: Vec<u8>,
    /// How the connection ended.
    pub end: Result<End, WireFault>,
    /// Why the desk was closed.
    pub fault: Option<StoreFault>,
}

/// The word of an end.
pub fn end_word(end: Result<End, WireFault>) -> &'static str {
    match end {
        Ok(End::Closed) => "Closed",
        Ok(End::Long) => "Long",
        Ok(End::Cut) => "Cut",
        Ok(End::Memory) => "Memory",
        Ok(End::Spent) => "Spent",
        Err(WireFault::Read) => "Read",
        Err(WireFault::Write) => "Write",
        Err(WireFault::Memory) => "no memory",
    }
}

/// Reopens the desk of a store, and serves a text over it.
pub fn serve<S: Alter + Drop>(
    threads: &(impl Threads + Sync),
    alloc: Global,
    store: Store<S>,
    officer: Officer,
    bytes: &[u8],
) -> Result<Came<S>, StoredFault> {
    let conn = store.into_conn();
    let mut reader = Text {
        bytes,
        at: 0,
        fails_at: usize::MAX,
        failures: 0,
    };
    let mut writer = Paper::new(alloc, usize::MAX);
    let executor = Executor {
        threads,
        alloc,
        progress: Silent,
    };
    match serve_store::<S, Core, _, _, _, _>(executor, conn, officer, &mut reader, &mut writer) {
        Ok(
            Stopped {
                conn,
                served,
                fault,
            },
        ) => Ok(Came {
            store: match fault {
                None => Some(Store::over(conn)),
                Some(_) => None,
            },
            text: writer.into_bytes(),
            end: served.ended,
            fault,
        }),
        Err((fault, _conn)) => Err(fault),
    }
}

/// Serves a text over a desk that was reopened, on connection 1, and gives what was answered.
fn serve_over<T: Threads + Sync>(
    alloc: Global,
    reopened: Reopened<'_, Core, T, Silent>,
    bytes: &[u8],
) -> Vec<u8> {
    let mut reader = Text {
        bytes,
        at: 0,
        fails_at: usize::MAX,
        failures: 0,
    };
    let mut writer = Paper::new(alloc, usize::MAX);
    let Reopened {
        core,
        executor,
        rows: _,
        next: _,
    } = reopened;
    let mut own = OwnDesk::new(core, NoKeeper, 1, executor);
    let _served = serve_core(&mut own, &mut reader, &mut writer);
    let (_core, _keeper) = own.into_parts();
    writer.into_bytes()
}

/// Reopens the desk of a store, serves a text over it on connection 1, which its rows may have, and gives what was answered. Nothing of that is
/// stored.
pub fn serve_again<S: Alter + Drop>(
    threads: &(impl Threads + Sync),
    alloc: Global,
    store: Store<S>,
    officer: Officer,
    bytes: &[u8],
) -> Result<Vec<u8>, StoreFault> {
    let mut conn = store.into_conn();
    let Officer { name, digest } = officer;
    let executor = Executor {
        threads,
        alloc,
        progress: Silent,
    };
    match reopen::<S, Core, _, _>(executor, &mut conn, name, digest) {
        Ok(reopened) => Ok(serve_over(alloc, reopened, bytes)),
        Err(fault) => Err(fault),
    }
}
