//! Accepts the connections of a service.

use crate::fault::ServeFault;
use crate::lobby::Lobby;
use mpw_log::Log;
use mpw_reception::{accept, is_momentary};
use std::alloc::Global;
use std::net::{TcpListener, TcpStream};
use std::sync::Wait;
use std::time::{Clock, Duration};
use std::{io, thread};

/// How many milliseconds pass after an error that passes by itself.
const AGAIN: u64 = 100;

/// How many seconds a client may read nothing of what is written to it, in a service without limits for strangers.
const STALLED: u64 = 60;

/// How many seconds one write may wait, in a service with limits for strangers.
const WRITE: u64 = 10;

/// Lets each reply be sent at once, and ends the connection of a client that sends nothing for the idle time, or reads nothing for too long.
fn set_limits(stream: &TcpStream, lobby: &Lobby) -> io::Result<()> {
    let stalled = if lobby.rations.is_some() {
        WRITE
    } else {
        STALLED
    };
    stream.set_nodelay(true)?;
    stream.set_read_timeout(Some(lobby.staff.idle))?;
    stream.set_write_timeout(Some(Duration::from_secs(stalled)))
}

/// Accepts a connection. An error that passes by itself is logged, and the call is made again. There is none if none is awaited any more.
fn accept_patiently<R: Wait + Clock>(
    rt: &R,
    alloc: Global,
    lobby: &Lobby,
    log: &Log,
    listener: &TcpListener,
) -> Result<Option<TcpStream>, ServeFault> {
    let mut is_noted = false;
    for _ in rt.forever() {
        let code = match accept(listener) {
            Ok(stream) => return Ok(Some(stream)),
            Err(code) => code,
        };
        if !is_momentary(code) {
            return Err(ServeFault::Accept);
        }
        if lobby.reception.is_closed(rt) {
            return Ok(None);
        }
        if !is_noted {
            is_noted = true;
            log.note_accept_error(rt, alloc, code);
        }
        thread::sleep(rt, Duration::from_millis(AGAIN));
    }
    unreachable!()
}

/// Accepts one connection and hands it to a thread that is free. It returns whether more may come. If the system sets no time limits for a
/// connection, that is closed at once.
fn accept_one<R: Wait + Clock>(
    rt: &R,
    alloc: Global,
    lobby: &Lobby,
    log: &Log,
    listener: &TcpListener,
) -> Result<bool, ServeFault> {
    if !lobby.reception.is_awaited(rt) {
        return Ok(false);
    }
    let Some(stream) = accept_patiently(rt, alloc, lobby, log, listener)? else {
        return Ok(false);
    };
    if lobby.reception.is_closed(rt) {
        return Ok(false);
    }
    if set_limits(&stream, lobby).is_ok() {
        lobby.reception.hand_over(rt, stream);
    }
    Ok(true)
}

/// Accepts connections until as many came as are served in all, or no more are awaited. Then the listener is closed.
pub(crate) fn accept_all<R: Wait + Clock>(
    rt: &R,
    alloc: Global,
    lobby: &Lobby,
    log: &Log,
    listener: TcpListener,
) -> Result<(), ServeFault> {
    for _ in 0..lobby.staff.most() {
        if !accept_one(rt, alloc, lobby, log, &listener)? {
            break;
        }
    }
    Ok(())
}
