//! What all threads of a service share but the desk: its places, its limits, and how it ends.

use crate::fault::ServeFault;
use crate::ledger::Ledger;
use crate::staff::Staff;
use crate::steering::Steering;
use mpw_reception::{Rations, Reception};
use std::alloc::{AllocError, Global};
use std::net::{Net, SocketAddr};
use std::sync::{Mutex, Wait};

/// The places of a service, its limits, and how it ends.
#[derive(Drop)]
pub(crate) struct Lobby {
    pub(crate) staff: Staff,
    /// Hands connections to the threads that serve.
    pub(crate) reception: Reception,
    /// What is left for strangers, if that is limited.
    pub(crate) rations: Option<Rations>,
    /// What sessions sent that wasn't accepted, if strangers are limited.
    pub(crate) ledger: Ledger,
    /// Lets workers wait.
    pub(crate) steering: Steering,
    /// What a thread lacked, if one lacked something.
    fault: Mutex<Option<ServeFault>>,
}

impl Lobby {
    /// The lobby of a service whose socket is bound to the address.
    ///
    /// # Errors
    /// If there is no room for the places.
    pub(crate) fn new(
        alloc: Global,
        address: SocketAddr,
        staff: Staff,
    ) -> Result<Lobby, AllocError> {
        let (places, keeps_places) = (staff.connections, staff.strangers.is_some());
        let reception = Reception::new(alloc, address, places, staff.workers, keeps_places)?;
        let rations = match staff.strangers {
            Some(strangers) => Some(Rations::new(strangers, staff.idle)),
            None => None,
        };
        Ok(Lobby {
            staff,
            reception,
            rations,
            ledger: Ledger::new(alloc),
            steering: Steering::new(staff.holds_run),
            fault: Mutex::new(None),
        })
    }

    /// Ends the service for a thread that serves or works: nothing arrives any more, and the connections that are served are ended.
    pub(crate) fn end<R: Wait + Net>(&self, rt: &R, fault: Option<ServeFault>) {
        let mut first = self.fault.lock(rt);
        if first.is_none() {
            *first = fault;
        }
        drop(first);
        self.reception.end(rt);
    }

    /// How the service ended: with what one of its threads lacked, or out of memory if there was no room for all passes.
    pub(crate) fn outcome<R: Wait>(&self, rt: &R, has_all_passes: bool) -> Result<(), ServeFault> {
        match *self.fault.lock(rt) {
            Some(fault) => Err(fault),
            None if has_all_passes => Ok(()),
            None => Err(ServeFault::Memory),
        }
    }
}
