//! A service over loopback, with one connection and one worker. The client has sent its script and closed its side for writing before the
//! service begins. It reads the replies after the service has ended. The kernel stores both meanwhile.

use crate::shared::history::event_lines;
use anyhow::{Result, bail};
use gate_events::{Transcript, name};
use mpw_core::{Core, MAX_EVENTS};
use mpw_desk::{Blank, are_below};
use mpw_events::{Call, Handler, NoKeeper};
use mpw_requests::digest_of;
use mpw_service::{Begun, Log, Opening, Staff, serve_desk};
use std::alloc::Global;
use std::io::{Read, Write};
use std::net::{Net, Shutdown, SocketAddr, TcpListener, TcpStream};
use std::sync::Wait;
use std::thread::Threads;
use std::time::{Clock, Duration};

/// How long the client may send nothing, in seconds.
const IDLE: u64 = 60;

/// One connection in all, and one worker.
fn staff() -> Staff {
    Staff {
        connections: 1,
        workers: 1,
        is_ongoing: false,
        idle: Duration::from_secs(IDLE),
        calls: MAX_EVENTS,
        strangers: None,
        holds_run: false,
    }
}

/// A client that has sent a text, and sends nothing more.
fn send<R>(rt: &R, address: SocketAddr, bytes: &[u8]) -> Result<TcpStream>
where
    R: Net<Listener = TcpListener, Stream = TcpStream>,
{
    let mut stream = TcpStream::connect(rt, address)?;
    stream.write_all(bytes)?;
    stream.shutdown(Shutdown::Write)?;
    Ok(stream)
}

/// The bytes that a client received until the other side closed.
fn receive(alloc: Global, stream: TcpStream) -> Result<Vec<u8>> {
    let mut stream = stream;
    let mut bytes = Vec::new(alloc);
    stream.read_to_end(&mut bytes)?;
    Ok(bytes)
}

/// Serves a desk to the one connection that the listener accepts, and returns the desk.
fn serve_one<H, R>(
    host: &HostRuntime,
    rt: &R,
    core: Box<H>,
    listener: TcpListener,
) -> Result<Box<H>>
where
    H: Handler + Send + Drop,
    R: Threads + Wait + Clock + Net<Listener = TcpListener, Stream = TcpStream> + Sync,
{
    if !are_below(1, core.calls()) {
        bail!("a desk without calls of connections");
    }
    let blank = Blank::new(host.alloc())?;
    let log = Log::nowhere();
    let begun = Begun {
        core,
        keeper: NoKeeper,
        first: 1,
    };
    let opening = Opening {
        listener,
        staff: staff(),
        log: &log,
    };
    let (back, ended) = serve_desk(rt, host.alloc(), begun, blank, opening);
    if ended.is_err() {
        bail!("a service that ends well");
    }
    match back {
        Ok((core, _keeper)) => Ok(core),
        Err(_) => bail!("passes that account for every call"),
    }
}

/// Prints each event of calls except a worker's call for a job.
fn tell_events(rt: &HostRuntime, calls: &[Call]) -> Result<()> {
    let events = event_lines(rt.alloc(), calls)?;
    for line in events.lines() {
        println!(rt; "  {line}")?;
    }
    Ok(())
}

/// Serves a script to a client over loopback, on a new desk. It prints whether the client got the replies that the script has, and each
/// event of the history except the worker's calls for a job.
///
/// # Errors
/// A socket fails, the service fails, it can't be printed, or out of memory.
pub fn tell_loopback<R>(host: &HostRuntime, rt: &R, script: &Transcript) -> Result<()>
where
    R: Threads + Wait + Clock + Net<Listener = TcpListener, Stream = TcpStream> + Sync,
{
    let alloc = host.alloc();
    let listener = TcpListener::bind(rt, "127.0.0.1:0")?;
    let client = send(rt, listener.local_addr()?, script.input.as_slice())?;
    let core = Core::new_boxed(alloc, name(alloc, "root")?, digest_of(b"abc"))?;
    let core = serve_one(host, rt, core, listener)?;
    let replies = receive(alloc, client)?;
    let told = if replies.as_slice() == script.replies.as_slice() {
        "answered as written"
    } else {
        "answered OTHERWISE"
    };
    println!(host; "  {told}")?;
    tell_events(host, core.calls())
}
