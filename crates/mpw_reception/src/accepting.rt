//! Accepts a connection.
ghost use Rattle.std.specs.Prelude.{◌≡◌};
ghost use Rattle.mpw_reception.specs.Accepting.{is_momentary};

use std::io::{self, ErrorKind};
use std::net::{TcpListener, TcpStream};

/// How often a system call is made in all if it is interrupted.
const TRIES: u32 = 16;

/// `EINTR`: a signal interrupted the call.
const INTERRUPTED: u32 = 4;

/// `ENOMEM`: the system has no memory.
const NO_MEMORY: u32 = 12;

/// `ENFILE`: the system has too many open files.
const SYSTEM_FULL: u32 = 23;

/// `EMFILE`: the process has too many open files.
const PROCESS_FULL: u32 = 24;

/// `ENOBUFS`: the system has no room for a socket.
const NO_BUFFERS: u32 = 105;

/// Whether the system's error, by its number, passes by itself: too many files are open, or the system has no memory for a connection.
pub fn is_momentary(code: u32) -> bool
    ensures { result ≡ is_momentary code }
{
    code == NO_MEMORY || code == SYSTEM_FULL || code == PROCESS_FULL || code == NO_BUFFERS
}

/// The number of the system's error, or 0 if it has none.
fn code_of(error: &io::Error) -> u32 {
    match error.raw_os_error() {
        Some(code) => u32::try_from(code).unwrap_or(0),
        None => 0,
    }
}

/// Accepts a connection. It tries again if the call was interrupted, or the client went away meanwhile.
///
/// # Errors
/// The number of the system's error, or 0 if it has none.
pub fn accept(listener: &TcpListener) -> Result<TcpStream, u32> {
    for _ in 0..TRIES {
        match listener.accept() {
            Ok((stream, _)) => return Ok(stream),
            Err(error)
                if matches!(
                    error.kind(),
                    ErrorKind::Interrupted | ErrorKind::ConnectionAborted
                ) => {}
            Err(error) => return Err(code_of(&error)),
        }
    }
    Err(INTERRUPTED)
}
