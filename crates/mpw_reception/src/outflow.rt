//! Writes to a connection whose client has to read.

use crate::reception::Arrival;
use crate::time::now;
use crate::watch::{Limit, Watch};
use mpw_admission::Drain;
use std::io::{self, ErrorKind, Write};
use std::net::TcpStream;
use std::sync::Wait;
use std::time::Clock;

/// The writer of a connection. With limits it fails once the client is too slow.
pub struct Outflow<'s, 'a, R: Wait + Clock> {
    rt: &'a R,
    stream: &'s TcpStream,
    watch: &'s Watch,
    /// How the client reads, if that is limited.
    drain: Option<Drain>,
}

impl<'s, 'a, R: Wait + Clock> Drop for Outflow<'s, 'a, R> {
    fn drop(self) {
        let Outflow {
            rt: _,
            stream: _,
            watch: _,
            drain: _,
        } = self;
    }
}

impl<'s, 'a, R: Wait + Clock> Outflow<'s, 'a, R> {
    /// The writer of a connection, whose client's reading is limited or not.
    pub fn new(rt: &'a R, arrival: &'s Arrival, is_limited: bool) -> Self {
        let drain = if is_limited { Some(Drain::new()) } else { None };
        Outflow {
            rt,
            stream: &arrival.stream,
            watch: &arrival.watch,
            drain,
        }
    }

    /// Notes a write that took so many bytes since a moment.
    fn note(&mut self, bytes: usize, since: u64) -> io::Result<()> {
        let waited = now(self.rt)?.saturating_sub(since);
        let is_fast = match &mut self.drain {
            Some(drain) => drain.note(bytes as u64, waited),
            None => true,
        };
        if is_fast {
            return Ok(());
        }
        self.watch.note_limit(self.rt, Limit::Unread);
        Err(io::Error::from(ErrorKind::TimedOut))
    }
}

impl<'s, 'a, R: Wait + Clock> Write for Outflow<'s, 'a, R> {
    fn write(&mut self, bytes: &[u8]) -> io::Result<usize> {
        let mut stream = self.stream;
        if self.drain.is_none() {
            return stream.write(bytes);
        }
        let since = now(self.rt)?;
        let taken = stream.write(bytes)?;
        self.note(taken, since)?;
        Ok(taken)
    }

    fn flush(&mut self) -> io::Result<()> {
        self.watch.note_answer();
        Ok(())
    }
}
