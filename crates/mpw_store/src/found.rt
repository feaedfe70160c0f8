//! What is found of a store before it is opened. No clause says what a file system has.

use crate::fault::StoreFault;
use sqlite::{Error as SqlError, ErrorCode};
use std::fs;
use std::io::{self, ErrorKind};
use std::os::unix::fs::MetadataExt;

/// The longest log without a change: its head, as the database leaves it.
pub const EMPTY_LOG: u64 = 41;

/// The bits of a mode by which the group or others may read or write.
const SHARED: u32 = 0o066;

/// What a name stands for.
#[derive(Clone, Copy, PartialEq, Eq, Debug)]
pub enum Kind {
    /// Nothing.
    Nothing,
    /// A regular file without a byte, which has one name.
    Empty,
    /// Another regular file with one name.
    Filled,
    /// A regular file with two names or more.
    Linked,
    /// Something else, as a folder or a device.
    Else,
}

/// What is found of a store.
#[derive(Clone, Copy, PartialEq, Eq, Debug)]
pub struct Found {
    /// What its name stands for.
    pub kind: Kind,
    /// Whether the group or others may read or write the file.
    pub is_shared: bool,
    /// How many bytes the log next to it has, 0 without a log.
    pub log: u64,
}

/// The kind of a file.
fn kind_of(metadata: &fs::Metadata) -> Kind {
    if !metadata.is_file() {
        Kind::Else
    } else if metadata.nlink() > 1 {
        Kind::Linked
    } else if metadata.len() == 0 {
        Kind::Empty
    } else {
        Kind::Filled
    }
}

/// The length of a file, 0 if there is none.
pub(crate) fn length_of(rt: &HostRuntime, path: &str) -> io::Result<u64> {
    match fs::metadata(rt, path) {
        Ok(metadata) => Ok(metadata.len()),
        Err(error) if error.kind() == ErrorKind::NotFound => Ok(0),
        Err(error) => Err(error),
    }
}

/// The length of the log next to a file, whose name has no link in it.
fn log_of(rt: &HostRuntime, path: &str) -> io::Result<u64> {
    length_of(rt, format!(in rt.alloc(); "{path}-wal")?.as_str())
}

/// What the name stands for, and the log next to it.
fn found_at(rt: &HostRuntime, path: &str) -> io::Result<Found> {
    match fs::metadata(rt, path) {
        Ok(metadata) => {
            let real = fs::canonicalize(rt, path)?;
            Ok(Found {
                kind: kind_of(&metadata),
                is_shared: metadata.mode() & SHARED != 0,
                log: log_of(rt, real.as_str())?,
            })
        }
        Err(error) if error.kind() == ErrorKind::NotFound => Ok(Found {
            kind: Kind::Nothing,
            is_shared: false,
            log: log_of(rt, path)?,
        }),
        Err(error) => Err(error),
    }
}

/// The store's fault of an operation on files that failed.
pub(crate) fn unreadable(error: io::Error) -> StoreFault {
    match error.kind() {
        ErrorKind::OutOfMemory => StoreFault::Memory,
        _ => StoreFault::Sql(SqlError::SqliteFailure(ErrorCode::CannotOpen)),
    }
}

/// Looks at what the name stands for, through symbolic links.
///
/// # Errors
/// If the file, its log or their folder can't be looked at, and if memory runs out.
pub fn look_at(rt: &HostRuntime, path: &str) -> Result<Found, StoreFault> {
    match found_at(rt, path) {
        Ok(found) => Ok(found),
        Err(error) => Err(unreadable(error)),
    }
}
