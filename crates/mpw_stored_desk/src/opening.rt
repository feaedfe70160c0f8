//! Opening a store as the settings say.
ghost use Rattle.std.specs.Prelude.{◌≡◌, ◌≤◌, IfErr, IfOk, OnOk};
ghost use Rattle.mpw_stored_desk.specs.Reopening.{IsIdle};
ghost use Rattle.mpw_store.specs.Terms.{MayRefuse};
ghost use Rattle.mpw_stored_desk.specs.Opening.{terms_of};
ghost use Rattle.sqlite.specs.Files.{file_state};
ghost use Rattle.sqlite.specs.Held.{state};
ghost use Rattle.sqlite.specs.State.{HasCleanDisk, Survives};
ghost use Rattle.sqlite.specs.View.{doubt};

use crate::counting::{Counted, count_rows};
use mpw_settings::Store;
use mpw_store::{FileConnection, FileFault, Opened, StoreFault, Terms, open_store};
use sqlite::{Alter, Connection};

/// The conditions that the settings set for a store's file.
pub fn terms_of(store: &Store) -> Terms
    ensures { result ≡ terms_of store.now }
{
    Terms {
        is_existing: store.is_existing,
        is_new: store.is_new,
        is_private: store.is_private,
    }
}

/// Prints on the standard error that a file is new, or that others than its owner may read or write it.
fn announce(rt: &HostRuntime, path: &str, is_new: bool, is_shared: bool) {
    if is_new {
        let _ = eprintln!(rt; "mpw: {path} is new");
    }
    if is_shared {
        let _ = eprintln!(rt;
            "warning: the store: its group or others may read or write {path}, which has the digests of all tokens: run chmod go-rw {path}"
        );
    }
}

/// Opens the file of a store as the settings say. That it is new, and that others may read or write it, is printed on the standard error.
///
/// # Errors
/// Those of [`open_store`].
pub fn open_desk(rt: &HostRuntime, store: &Store) -> Result<FileConnection, FileFault>
    ensures idle { IfOk result (λ conn. HasCleanDisk (file_state conn) → IsIdle (file_state conn)) }
    ensures refused { IfErr result (MayRefuse (terms_of store.now)) }
{
    match open_store(rt, store.path.as_str(), terms_of(store)) {
        Ok(
            Opened {
                conn,
                is_new,
                is_shared,
            },
        ) => {
            announce(rt, store.path.as_str(), is_new, is_shared);
            Ok(conn)
        }
        Err(fault) => Err(fault),
    }
}

/// The ending of a noun, by how many there are.
fn plural(count: u64) -> &'static str {
    if count == 1 { "" } else { "s" }
}

/// Prints on the standard error how many rows a store has, and how many of them are finished runs, as `mpw: desk.db has 10 rows and 1 finished run`. Nothing is
/// printed of a store without rows, of one with a bad row, which reopening reports, and of one that has something else. The store is unchanged.
///
/// # Errors
/// Those of [`count_rows`], but for a bad row.
pub fn announce_rows<S: Alter>(
    rt: &HostRuntime,
    path: &str,
    conn: &mut Connection<S>,
) -> Result<(), StoreFault>
    ensures still { HasCleanDisk (state S.Store conn.new) → IsIdle (state S.Store conn.old) → OnOk result (IsIdle (state S.Store conn.new) × ((state S.Store conn.new).now ≡ (state S.Store conn.old).now)) }
    ensures crash { IsIdle (state S.Store conn.old) → Survives (state S.Store conn.old) (state S.Store conn.new) (λ _. ⊥) }
    ensures clean { doubt (state S.Store conn.old).is_clean ≤ doubt (state S.Store conn.new).is_clean }
{
    match count_rows(conn) {
        Ok(Some(Counted { rows, finished })) if rows > 0 => {
            let _ = eprintln!(rt;
                "mpw: {path} has {rows} row{} and {finished} finished run{}",
                plural(u64::from(rows)),
                plural(finished)
            );
            Ok(())
        }
        Ok(_) | Err(StoreFault::Rows(_)) => Ok(()),
        Err(fault) => Err(fault),
    }
}

/// Opens the file of a store as [`open_desk`] does, and prints what it has as [`announce_rows`] does. This is how a script and a service begin.
///
/// # Errors
/// Those of both.
pub fn open_announced(rt: &HostRuntime, store: &Store) -> Result<FileConnection, FileFault>
    ensures idle { IfOk result (λ conn. HasCleanDisk (file_state conn) → IsIdle (file_state conn)) }
    ensures refused { IfErr result (MayRefuse (terms_of store.now)) }
{
    match open_desk(rt, store) {
        Ok(mut conn) => match announce_rows(rt, store.path.as_str(), &mut conn) {
            Ok(()) => Ok(conn),
            Err(fault) => Err(FileFault::Store(fault)),
        },
        Err(fault) => Err(fault),
    }
}
