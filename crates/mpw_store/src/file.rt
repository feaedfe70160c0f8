//! Opening the file of a store.
ghost use Rattle.std.specs.Prelude.{IfErr, IfOk, IsTrue};
ghost use Rattle.sqlite.specs.Files.{file_state, IsOpened};
ghost use Rattle.sqlite.specs.Held.{IsNew};
ghost use Rattle.sqlite.specs.State.{HasCleanDisk};
ghost use Rattle.sqlite_std_file.specs.File.{file_is_usable};
ghost use Rattle.mpw_store.specs.Terms.{MayRefuse, Meets};

use crate::checkpoint::options;
use crate::copy::{failure, open_files};
use crate::fault::StoreFault;
use crate::file_fault::FileFault;
use crate::found::{Found, Kind, look_at, unreadable};
use crate::terms::{Terms, opening};
use sqlite::{Connection, ErrorCode, FileFrom, FileStore, Files, Start, Wary};
use sqlite_std_file::OpenError;
use std::fs::OpenOptions;
use std::os::unix::fs::OpenOptionsExt;

/// A connection to the file of a store. Nothing is supposed of how its disk tears a write.
pub type FileConnection = Connection<FileStore<FileFrom<Wary>>>;

/// A store that was opened.
pub struct Opened {
    /// The connection to its file.
    pub conn: FileConnection,
    /// Whether it is new: its file was made, or was empty.
    pub is_new: bool,
    /// Whether the group or others may read or write its file.
    pub is_shared: bool,
}

/// Makes an empty file that its owner alone may read and write. It says whether that succeeded.
fn is_made(rt: &HostRuntime, path: &str) -> bool {
    let mut options = OpenOptions::new();
    options.write(true);
    options.create_new(true);
    options.mode(0o600);
    options.open(rt, path).is_ok()
}

/// The store's fault if the files of a database aren't opened.
fn unopened(error: OpenError) -> StoreFault {
    match error {
        OpenError::Io(error) => unreadable(error),
        OpenError::OutOfMemory => StoreFault::Memory,
        OpenError::Busy => failure(ErrorCode::DatabaseBusy),
        OpenError::HotJournal => failure(ErrorCode::CannotOpen),
    }
}

/// The log and the file at a path. Two names that SQLite takes for something else than a file are refused.
fn files_at<S: Start>(
    rt: &HostRuntime,
    path: &str,
    start: S,
) -> Result<Files<FileFrom<S>>, StoreFault>
    ensures { IfOk result (λ files. IsTrue (file_is_usable S.Start files.log) × IsTrue (file_is_usable S.Start files.db)) }
{
    if path == ":memory:" || path.starts_with("file:") {
        return Err(failure(ErrorCode::CannotOpen));
    }
    match sqlite_std_file::open(rt, path, start) {
        Ok(files) => Ok(files),
        Err(error) => Err(unopened(error)),
    }
}

/// Opens what is there as a database, which copies its log into the file from [`checkpoint_frames`](crate::checkpoint_frames) frames on.
fn open<S: Start>(
    rt: &HostRuntime,
    path: &str,
    start: S,
) -> Result<Connection<FileStore<FileFrom<S>>>, StoreFault>
    ensures opened { IfOk result (λ conn. HasCleanDisk (file_state conn) → IsOpened conn) }
    ensures fresh { IfOk result IsNew }
{
    let options = options(rt)?;
    let files = files_at(rt, path, start)?;
    open_files(rt, files, options)
}

/// Opens what was found, which is made first if it is nothing.
fn open_found(rt: &HostRuntime, path: &str, found: Found) -> Result<FileConnection, FileFault>
    ensures opened { IfOk result (λ conn. HasCleanDisk (file_state conn) → IsOpened conn) }
    ensures fresh { IfOk result IsNew }
    ensures refused { (terms : Terms) → IfErr result (MayRefuse terms) }
{
    if found.kind == Kind::Nothing && !is_made(rt, path) {
        return Err(FileFault::Unmade);
    }
    Ok(open(rt, path, Wary)?)
}

/// Opens the file of a store under these conditions. One that isn't there is made, so that its owner alone may read and write it. No clause says which file
/// it is; [`opening`] has the decision by what is found.
///
/// # Errors
/// Those of [`opening`], before anything is made or written; `Unmade`; and the database's own, as if another process has the file.
pub fn open_store(rt: &HostRuntime, path: &str, terms: Terms) -> Result<Opened, FileFault>
    ensures opened { IfOk result (λ opened. HasCleanDisk (file_state opened.conn) → IsOpened opened.conn) }
    ensures fresh { IfOk result (λ opened. IsNew opened.conn) }
    ensures meets { IfOk result (λ opened. Meets terms opened.is_new opened.is_shared) }
    ensures refused { IfErr result (MayRefuse terms) }
{
    let found = look_at(rt, path)?;
    let is_new = opening(terms, found)?;
    let conn = open_found(rt, path, found)?;
    Ok(Opened {
        conn,
        is_new,
        is_shared: found.is_shared,
    })
}
