//! The threads of a day: one for each connection and each worker, each with a pass.

ghost use Rattle.std.specs.Prelude.{IfOk};
ghost use Rattle.mpw_desk.specs.Numbers.{AreBelow};

use crate::shared::account::{Account, Trouble};
use crate::shared::day::Script;
use crate::shared::steps::Asking;
use mpw_desk::{Pass, Room, Shared, are_below};
use mpw_events::{Call, Handler, NoKeeper, Response};
use std::sync::Wait;
use std::thread;
use std::thread::Threads;
use std::time::Clock;

/// The number of the first connection. The connection that sets the desk up before it is shared has the number before it.
pub const FIRST: u32 = 2;

/// Checks that no call before a desk is shared belongs to a connection from [`FIRST`] on.
///
/// # Errors
/// A call does.
pub fn check_first(calls: &[Call]) -> Result<(), Trouble>
    ensures { IfOk result (λ _. AreBelow 2 calls.now) }
{
    if are_below(FIRST, calls) {
        Ok(())
    } else {
        Err(Trouble::Calls)
    }
}

/// What a thread returns: its pass, and its result.
pub struct Part<N: Room> {
    /// The pass.
    pub pass: Pass<N>,
    /// Its result.
    pub account: Account,
}

impl<N: Room> Drop for Part<N> {
    fn drop(self) {
        let Part { pass, account } = self;
        drop(pass);
        drop(account);
    }
}

impl<N: Room> Part<N> {
    /// The pass and the result.
    pub fn into_parts(self) -> (Pass<N>, Account) {
        let Part { pass, account } = self;
        (pass, account)
    }
}

/// The number of a connection in the script, counted from 1. Workers come after the connections.
fn place_of(connection: u32) -> u32 {
    connection.saturating_sub(FIRST).saturating_add(1)
}

/// Works until the desk is stopped.
fn work<H, N, R, S>(
    rt: &R,
    shared: &Shared<H, NoKeeper, N>,
    pass: &mut Pass<N>,
    script: &S,
) -> Result<(), Trouble>
where
    H: Handler + Drop,
    N: Room,
    R: Wait + Clock,
    S: Script,
{
    let response = shared.worker(rt, script.alloc(), pass, script);
    if matches!(&response, Response::Ended) {
        return Err(Trouble::Ended);
    }
    Ok(())
}

/// Does the steps of the connection with that number in the script. The last connection that ends stops the desk.
fn connect<H, N, R, S>(
    rt: &R,
    shared: &Shared<H, NoKeeper, N>,
    pass: &mut Pass<N>,
    account: &mut Account,
    script: &S,
) -> Result<(), Trouble>
where
    H: Handler + Drop,
    N: Room,
    R: Wait + Clock,
    S: Script,
{
    let place = place_of(account.connection);
    let asking = Asking {
        rt,
        alloc: script.alloc(),
        shared,
        flags: script.flags(),
    };
    let ended = asking.serve(pass, account, script.text(), place);
    if script.flags().end() == script.connections() {
        shared.stop(rt);
    }
    ended
}

/// Takes part in a day as the connection or the worker of a pass.
pub fn take_part<H, N, R, S>(
    rt: &R,
    shared: &Shared<H, NoKeeper, N>,
    pass: Pass<N>,
    script: &S,
) -> Part<N>
where
    H: Handler + Drop,
    N: Room,
    R: Wait + Clock,
    S: Script,
{
    let mut pass = pass;
    let connection = pass.connection();
    let mut account = Account::new(script.alloc(), connection);
    let ended = if place_of(connection) > script.connections() {
        work::<H, N, R, S>(rt, shared, &mut pass, script)
    } else {
        connect::<H, N, R, S>(rt, shared, &mut pass, &mut account, script)
    };
    account.trouble = ended.err();
    Part { pass, account }
}

/// A pass for each connection and each worker, the connections first.
fn all_passes<H, N, R, S>(
    rt: &R,
    shared: &Shared<H, NoKeeper, N>,
    script: &S,
) -> Result<Vec<Pass<N>>, Trouble>
where
    H: Handler + Drop,
    N: Room,
    R: Wait,
    S: Script,
{
    let mut passes = Vec::new(script.alloc());
    for _ in 0..script.connections().saturating_add(script.workers()) {
        let Some(pass) = shared.pass(rt) else {
            return Err(Trouble::Pass);
        };
        passes.push(pass)?;
    }
    Ok(passes)
}

/// Runs connections and workers in threads, and joins them all. It returns their results, the connections first.
///
/// # Errors
/// There is no pass, or out of memory.
pub fn all_parts<H, N, R, S>(
    rt: &R,
    shared: &Shared<H, NoKeeper, N>,
    script: &S,
) -> Result<Vec<Part<N>>, Trouble>
where
    H: Handler + Send + Drop,
    N: Room + Send + Sync,
    R: Threads + Wait + Clock + Sync,
    S: Script + Sync,
{
    let passes = all_passes::<H, N, R, S>(rt, shared, script)?;
    let parts = thread::map_vec(
        rt,
        passes,
        &|pass: Pass<N>| { take_part::<H, N, R, S>(rt, shared, pass, script) },
    )?;
    Ok(parts)
}
