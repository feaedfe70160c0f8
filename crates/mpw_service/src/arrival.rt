//! A connection from its first byte until it ends.

use crate::hall::Hall;
use crate::lobby::Lobby;
use crate::scribe::{Asks, Scribe, Stay, Tally};
use mpw_desk::{Caller, Pass, Room, serve_caller};
use mpw_devices::Counted;
use mpw_events::{Handler, Keeper};
use mpw_log::Peer;
use mpw_reception::{Arrival, Intake, Outflow};
use std::io::BufWriter;
use std::sync::Wait;
use std::time::Clock;

/// What came of a connection that was accepted.
#[derive(Drop)]
pub(crate) enum Served<N: Room> {
    /// It began no line, so it was never a connection of the desk.
    Silent,
    /// No pass was left for it.
    NoPass,
    /// It ended, with its pass, and whether it was answered that the desk is closed.
    Ended(Pass<N>, bool),
}

/// Serves a connection until it ends. It gets its pass when its first line may be read: so a client that only connects makes no call, nor does a stranger that
/// has to leave before its turn. If there is no room for its buffers, nothing of it is read.
pub(crate) fn serve_arrival<'a, H, K, N, R>(
    hall: &Hall<'a, H, K, N, R>,
    arrival: &Arrival,
) -> Served<N>
where
    H: Handler + Drop,
    K: Keeper + Drop,
    N: Room,
    R: Wait + Clock,
{
    let (rt, lobby): (&'a R, &'a Lobby) = (hall.rt, hall.lobby);
    let Ok(mut intake) = Intake::new(rt, hall.alloc, arrival, lobby.rations.as_ref()) else {
        return Served::Silent;
    };
    if !intake.begins() {
        return Served::Silent;
    }
    let Some(pass) = hall.shared.pass(rt) else {
        return Served::NoPass;
    };
    let peer = Peer {
        connection: pass.connection(),
        address: arrival.stream.peer_addr().ok(),
    };
    serve_begun(hall, arrival, intake, pass, peer)
}

/// Serves a connection that has its pass until it ends, and logs its begin and its end.
fn serve_begun<H, K, N, R>(
    hall: &Hall<'_, H, K, N, R>,
    arrival: &Arrival,
    intake: Intake<'_, '_, R>,
    pass: Pass<N>,
    peer: Peer,
) -> Served<N>
where
    H: Handler + Drop,
    K: Keeper + Drop,
    N: Room,
    R: Wait + Clock,
{
    let (rt, alloc, lobby, log) = (hall.rt, hall.alloc, hall.lobby, hall.log);
    let stay = Stay { lobby, arrival };
    log.note_connection(rt, alloc, "begin", peer, hall.shared.calls(rt));
    let scribe = Scribe::new(rt, alloc, log, peer, stay);
    let out = Outflow::new(rt, arrival, lobby.rations.is_some());
    let pass = serve_taken_down(hall, &scribe, pass, (intake, out));
    if let Some(limit) = arrival.watch.limit(rt) {
        log.note_limit(rt, alloc, peer, limit);
    }
    log.note_connection(rt, alloc, "end", peer, hall.shared.calls(rt));
    Served::Ended(pass, scribe.was_told_closed())
}

/// Serves a connection with its reader and its writer, while the scribe logs it.
fn serve_taken_down<H, K, N, R>(
    hall: &Hall<'_, H, K, N, R>,
    scribe: &Scribe<'_, R>,
    pass: Pass<N>,
    devices: (Intake<'_, '_, R>, Outflow<'_, '_, R>),
) -> Pass<N>
where
    H: Handler + Drop,
    K: Keeper + Drop,
    N: Room,
    R: Wait + Clock,
{
    let (intake, out) = devices;
    let Ok(output) = BufWriter::new(hall.alloc, Tally { scribe, out }) else {
        return pass;
    };
    let caller = Caller {
        pass,
        witness: Asks::new(scribe),
    };
    let (pass, _served) = serve_caller(
        hall.rt,
        hall.alloc,
        hall.shared,
        caller,
        &mut Counted::new(intake),
        &mut Counted::new(output),
    );
    pass
}
