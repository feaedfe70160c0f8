//! A law of services over stores. The function does nothing: its contract is the law.
ghost use Rattle.mpw_server.specs.Stored.{StoresItsChanges};
ghost use Rattle.sqlite.specs.Held.{state};

use sqlite::{Alter, Connection};

/// Any store, before a service and after it, if the service returned it: while the disk is clean and the database is open, its rows list, in order, the changes
/// that it had, the ends of the sessions that were open, and the changes that the service's calls had stored.
pub fn services_store_their_changes<S: Alter>(_before: &Connection<S>, _after: &Connection<S>)
    ensures { StoresItsChanges (state S.Store _before.now) (state S.Store _after.now) }
{}
