//! What is asked of a store, answered over any connection. `specs/Answering.antt` has what contracts say of it. Nothing is read or printed here.
ghost use Rattle.std.specs.Prelude.{◌≡◌, ◌≤◌, ◌+◌, ℕ, Some, Ok, Err, false, IfOk, IfErr, IsTrue};
ghost use Rattle.sqlite.specs.Held.{state};
ghost use Rattle.sqlite.specs.State.{HasCleanDisk};
ghost use Rattle.sqlite.specs.declared.error.Error.TheVariants.{SqliteFailure};
ghost use Rattle.sqlite.specs.declared.error.ErrorCode.TheVariants.{DatabaseCorrupt, NotADatabase};
ghost use Rattle.mpw_auditor.specs.Status.{status_of};
ghost use Rattle.mpw_auditor.specs.Answering.{IsListed, IsSound, IsUncounted, IsUnfound, IsUnprinted, checked, going_on, is_broken, is_broken_by, is_unsound, unopened};
ghost use Rattle.mpw_store_replay.specs.Replaying.{IsBlank, blank};
ghost use Rattle.mpw_store.specs.Changes.{IsOther, IsReady};
ghost use Rattle.mpw_store_listing.specs.Listing.{ListsStore, head_text};
ghost use Rattle.mpw_store_listing.specs.Payload.{HasPayload};
ghost use Rattle.mpw_wire.specs.Writing.{AppendsFront};
ghost use Rattle.std.specs.Io.Iter.{u64_saturate};
ghost use Rattle.std.specs.Io.KnownBytes.{Appends};

use crate::fault::AuditFault;
use mpw_devices::Sink;
use mpw_events::Handler;
use mpw_serve::{Executor, Progress};
use mpw_store::{FileFault, StoreFault, find_table};
use mpw_store_listing::{payload_at, write_head, write_rows};
use mpw_store_replay::{Replayed, replay};
use sqlite::{Alter, Connection, Error as SqlError, ErrorCode};
use std::alloc::Global;
use std::thread::Threads;

/// Lists all rows in a sink, with a head.
fn list_rows<S: Alter, W: Sink + Drop>(
    alloc: Global,
    conn: &mut Connection<S>,
    output: W,
) -> (W, Result<(), AuditFault>)
    ensures listed { HasCleanDisk (state S.Store conn.new) → IsReady (state S.Store conn.old) → IfOk result.1 (λ _. (count : ℕ) × ListsStore (state S.Store conn.old).now.trees count (W.contents output) (W.contents result.0)) }
    ensures handed { IfOk result.1 (λ _. W.pending result.0 ≡ false) }
    ensures cause { HasCleanDisk (state S.Store conn.new) → IsReady (state S.Store conn.old) → IfErr result.1 (IsUnprinted S.Store (state S.Store conn.old) (state S.Store conn.new) (W.failures output) (W.failures result.0)) }
{
    let (output, listed) = write_rows(alloc, conn, output);
    match listed {
        Ok(_) => (output, Ok(())),
        Err(unlisted) => (output, Err(AuditFault::from(unlisted))),
    }
}

/// Writes the head of a listing without rows.
fn list_none<W: Sink + Drop>(output: W) -> (W, Result<(), AuditFault>)
    ensures listed { IfOk result.1 (λ _. Appends (W.contents output) (W.contents result.0) head_text) }
    ensures handed { IfOk result.1 (λ _. W.pending result.0 ≡ false) }
    ensures cause { IfErr result.1 (λ fault. (fault ≡ AuditFault.Output) × (u64_saturate (W.failures output + 1) ≤ W.failures result.0)) }
    ensures front { IfErr result.1 (λ _. AppendsFront (W.contents output) (W.contents result.0) head_text) }
{
    let mut output = output;
    match write_head(&mut output) {
        Ok(()) => (output, Ok(())),
        Err(unwritten) => (output, Err(AuditFault::from(unwritten))),
    }
}

/// Lists the rows of a store in a sink. One in which nothing was stored may have no table: its listing has the head alone.
pub(crate) fn list<S: Alter, W: Sink + Drop>(
    alloc: Global,
    conn: &mut Connection<S>,
    output: W,
) -> (W, Result<(), AuditFault>)
    ensures listed { HasCleanDisk (state S.Store conn.new) → IsTrue (state S.Store conn.old).is_open → IfOk result.1 (λ _. IsListed (state S.Store conn.old).now (W.contents output) (W.contents result.0)) }
    ensures handed { IfOk result.1 (λ _. W.pending result.0 ≡ false) }

    // Each fault is reported only for its cause. Of another database nothing is listed; of one with nothing, as much of the head as the sink took.
    ensures cause { HasCleanDisk (state S.Store conn.new) → IsTrue (state S.Store conn.old).is_open → IfErr result.1 (IsUnprinted S.Store (state S.Store conn.old) (state S.Store conn.new) (W.failures output) (W.failures result.0)) }
    ensures other { IsOther (state S.Store conn.old) → (result.0 ≡ output) × (result.1 ≡ Err (AuditFault.Store StoreFault.Other)) }
    ensures blank { IsBlank (state S.Store conn.old) → IfErr result.1 (λ fault. (fault ≡ AuditFault.Output) × AppendsFront (W.contents output) (W.contents result.0) head_text) }
{
    match find_table(conn) {
        Ok(true) => list_rows(alloc, conn, output),
        Ok(false) => list_none(output),
        Err(fault) => (output, Err(AuditFault::from(fault))),
    }
}

/// The payload of a row of a store.
///
/// # Errors
/// `NoPayload` if there is none; and those of the store.
pub(crate) fn payload_in<S: Alter>(
    alloc: Global,
    conn: &mut Connection<S>,
    place: u32,
) -> Result<Vec<u8>, AuditFault>
    ensures found { HasCleanDisk (state S.Store conn.new) → IsTrue (state S.Store conn.old).is_open → IfOk result (λ payload. HasPayload (state S.Store conn.old).now.trees place (Some payload.items)) }

    // Each fault is reported only for its cause, that no row has a payload too; another database always, and one with nothing.
    ensures cause { HasCleanDisk (state S.Store conn.new) → IsTrue (state S.Store conn.old).is_open → IfErr result (IsUnfound S.Store (state S.Store conn.old) (state S.Store conn.new) place) }
    ensures other { IsOther (state S.Store conn.old) → result ≡ Err (AuditFault.Store StoreFault.Other) }
    ensures blank { IsBlank (state S.Store conn.old) → result ≡ Err (AuditFault.NoPayload place) }
{
    match find_table(conn) {
        Ok(true) => match payload_at(alloc, conn, place) {
            Ok(Some(payload)) => Ok(payload),
            Ok(None) => Err(AuditFault::NoPayload(place)),
            Err(fault) => Err(AuditFault::from(fault)),
        },
        Ok(false) => Err(AuditFault::NoPayload(place)),
        Err(fault) => Err(AuditFault::from(fault)),
    }
}

/// Whether a code says that the file is no database, or a damaged one.
fn is_broken_by(code: ErrorCode) -> bool
    ensures { result ≡ is_broken_by code }
{
    match code {
        ErrorCode::NotADatabase | ErrorCode::DatabaseCorrupt => true,
        _ => false,
    }
}

/// The same of what the database reports.
fn is_broken(error: SqlError) -> bool
    ensures { result ≡ is_broken error }
{
    match error {
        SqlError::SqliteFailure(code) => is_broken_by(code),
        _ => false,
    }
}

/// Whether a fault says that the store isn't sound.
fn is_unsound(fault: StoreFault) -> bool
    ensures { result ≡ is_unsound fault }
{
    match fault {
        StoreFault::Sql(error) => is_broken(error),
        StoreFault::Rows(_) | StoreFault::Other => true,
        StoreFault::Memory => false,
    }
}

/// A fault of a store that is checked.
fn checked(fault: StoreFault) -> AuditFault
    ensures fault { result ≡ checked fault }
    ensures kept { (why : StoreFault) → result ≡ AuditFault.Unsound why → fault ≡ why }
{
    if is_unsound(fault) {
        AuditFault::Unsound(fault)
    } else {
        AuditFault::Store(fault)
    }
}

/// The same of a file that isn't opened.
pub(crate) fn unopened(fault: FileFault) -> AuditFault
    ensures fault { result ≡ unopened fault }

    // A file that is no database, or a damaged one, ends the program with 4.
    ensures none { fault ≡ FileFault.Store (StoreFault.Sql (SqliteFailure NotADatabase)) → status_of result ≡ 4 }
    ensures damaged { fault ≡ FileFault.Store (StoreFault.Sql (SqliteFailure DatabaseCorrupt)) → status_of result ≡ 4 }
{
    match fault {
        FileFault::Store(fault) => checked(fault),
        FileFault::Missing
        | FileFault::Empty
        | FileFault::Taken
        | FileFault::Shared
        | FileFault::BareLog
        | FileFault::NoFile
        | FileFault::Linked
        | FileFault::Unmade => AuditFault::File(fault),
    }
}

/// Of a store whose rows a desk accepts: it isn't sound if no number is left for a connection, since no desk goes on from it.
///
/// # Errors
/// `Full` in that case.
fn going_on(replayed: Replayed) -> Result<Replayed, AuditFault>
    ensures { result ≡ going_on replayed }
{
    if replayed.is_full {
        Err(AuditFault::Full)
    } else {
        Ok(replayed)
    }
}

/// What is reported of a store whose rows a desk accepts. The connection is one to a copy, in which the ends of sessions are stored.
///
/// # Errors
/// `Unsound` if a row isn't accepted, or if the file is no store; `Full`; and those of the store.
pub(crate) fn replay_in<'a, S: Alter, H: Handler + Drop, T: Threads + Sync, P: Progress + Drop>(
    executor: Executor<'a, T, P>,
    conn: &mut Connection<S>,
) -> Result<Replayed, AuditFault>
    ensures sound { HasCleanDisk (state S.Store conn.new) → IsTrue (state S.Store conn.old).is_open → IfOk result (IsSound (state S.Store conn.old)) }

    // Each fault is reported only for its cause; another database always. One with nothing has no rows.
    ensures cause { HasCleanDisk (state S.Store conn.new) → IsTrue (state S.Store conn.old).is_open → IfErr result (IsUncounted S.Store (state S.Store conn.old) (state S.Store conn.new)) }
    ensures other { IsOther (state S.Store conn.old) → result ≡ Err (AuditFault.Unsound StoreFault.Other) }
    ensures blank { IsBlank (state S.Store conn.old) → result ≡ Ok blank }
{
    match replay::<S, H, T, P>(executor, conn) {
        Ok(replayed) => going_on(replayed),
        Err(fault) => Err(checked(fault)),
    }
}
