//! What a service begins with: its socket and its log, and the desk that it shares.
ghost use Rattle.std.specs.Prelude.{◌≡◌};

use crate::staff::Staff;
use mpw_events::{Handler, Keeper};
use mpw_log::Log;
use std::net::TcpListener;

/// The socket of a service, its threads and its log.
pub struct Opening<'a> {
    /// Accepts the connections.
    pub listener: TcpListener,
    /// How many threads serve and work.
    pub staff: Staff,
    /// Gets a line for each connection and for each request.
    pub log: &'a Log,
}

impl<'a> Drop for Opening<'a> {
    fn drop(self) {
        let Opening {
            listener,
            staff: _,
            log: _,
        } = self;
        drop(listener);
    }
}

impl<'a> Opening<'a> {
    /// The listener, who serves, and the log.
    pub(crate) fn into_parts(self) -> (TcpListener, Staff, &'a Log)
        ensures { result.1 ≡ self.entry.staff }
    {
        let Opening {
            listener,
            staff,
            log,
        } = self;
        (listener, staff, log)
    }
}

/// A desk that is about to be shared.
#[derive(Drop)]
pub struct Begun<H: Handler + Drop, K: Keeper + Drop> {
    /// The desk.
    pub core: Box<H>,
    /// The store writer.
    pub keeper: K,
    /// The number of its first connection or worker, which is greater than that of each connection in its history.
    pub first: u32,
}
