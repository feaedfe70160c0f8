//! What stays for a service while its desks change.

use mpw_log::Log;
use mpw_service::Staff;
use mpw_settings::Service;
use std::net::TcpListener;

/// What stays for a service: an ongoing one over a store may serve several desks, one after the other.
#[derive(Drop)]
pub struct Terms<'a> {
    /// The settings.
    pub service: &'a Service,
    /// How many threads serve and work, and within which limits.
    pub staff: Staff,
    /// Gets a line for each connection and for each request.
    pub log: &'a Log,
    /// The socket, once it is bound, if a further desk may need it.
    pub(crate) socket: Option<TcpListener>,
}

impl<'a> Terms<'a> {
    /// Before the socket is bound.
    pub fn new(service: &'a Service, staff: Staff, log: &'a Log) -> Terms<'a> {
        Terms {
            service,
            staff,
            log,
            socket: None,
        }
    }

    /// Whether a further desk may need the socket.
    pub(crate) fn keeps_socket(&self) -> bool {
        self.service.is_ongoing && self.service.store.is_some()
    }
}
