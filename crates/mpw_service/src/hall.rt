//! What the threads of a service share.

use crate::lobby::Lobby;
use mpw_desk::{Room, Shared};
use mpw_events::{Handler, Keeper};
use mpw_log::Log;
use std::alloc::Global;
use std::sync::Wait;

/// What the threads of a service share. It is one struct, since a closure that holds one reference is easy to prove to be `Send`.
pub(crate) struct Hall<'a, H: Handler + Drop, K: Keeper + Drop, N: Room, R: Wait> {
    pub(crate) rt: &'a R,
    pub(crate) alloc: Global,
    pub(crate) shared: &'a Shared<H, K, N>,
    pub(crate) lobby: &'a Lobby,
    pub(crate) log: &'a Log,
}

impl<'a, H: Handler + Drop, K: Keeper + Drop, N: Room, R: Wait> Drop for Hall<'a, H, K, N, R> {
    fn drop(self) {
        let Hall {
            rt: _,
            alloc: _,
            shared: _,
            lobby: _,
            log: _,
        } = self;
    }
}
