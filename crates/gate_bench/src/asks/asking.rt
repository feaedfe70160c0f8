//! Threads that ask one desk.
ghost use Rattle.std.specs.Prelude.{◌≡◌, ◌≤◌, None};
ghost use Rattle.mpw_desk.specs.Numbers.{AreBelow};
ghost use Rattle.mpw_events.specs.History.{kept_desk};

use mpw_core::Core;
use mpw_desk::{Blank, Pass, Room, Shared, are_below};
use mpw_events::{Handler, NoKeeper};
use mpw_geom::Name;
use mpw_requests::{PolicyRequest, Request, SharedRequest, digest_of};
use std::alloc::{AllocError, Global};
use std::marker::Brand;
use std::sync::Wait;
use std::thread::{self, Threads};

/// How many threads ask, and how often each.
#[derive(Clone, Copy)]
pub struct Plan {
    pub threads: u32,
    pub times: u32,
}

/// The request that opens a session of the officer.
fn opening(alloc: Global) -> Result<SharedRequest, AllocError> {
    let Ok(user) = Name::read(alloc, b"root") else {
        return Err(AllocError);
    };
    let digest = digest_of(b"abc");
    SharedRequest::new(alloc, Request::Policy(PolicyRequest::Open { user, digest }))
}

/// Opens a session, asks `whoami` that many times, and ends the connection.
fn ask_so_often<N: Room, R: Wait>(
    rt: &R,
    alloc: Global,
    shared: &Shared<Core, NoKeeper, N>,
    pass: &mut Pass<N>,
    times: u32,
) -> Result<(), AllocError> {
    shared.ask(rt, pass, opening(alloc)?)?;
    for _ in 0..times {
        shared.ask(rt, pass, SharedRequest::new(alloc, Request::Whoami)?)?;
    }
    shared.gone(rt, pass)?;
    Ok(())
}

/// What a thread does; it returns its pass unless it ran out of memory.
fn ask<N: Room, R: Wait>(
    rt: &R,
    alloc: Global,
    shared: &Shared<Core, NoKeeper, N>,
    mut pass: Pass<N>,
    times: u32,
) -> Option<Pass<N>> {
    match ask_so_often(rt, alloc, shared, &mut pass, times) {
        Ok(()) => Some(pass),
        Err(_) => None,
    }
}

/// The passes of that many threads.
fn all_passes<N: Room, R: Wait>(
    rt: &R,
    alloc: Global,
    shared: &Shared<Core, NoKeeper, N>,
    threads: u32,
) -> Result<Vec<Pass<N>>, AllocError> {
    let mut passes = Vec::new(alloc);
    for _ in 0..threads {
        let Some(pass) = shared.pass(rt) else {
            return Err(AllocError);
        };
        passes.push(pass)?;
    }
    Ok(passes)
}

/// Asks in threads, and returns the passes of those that asked every time.
fn ask_all<N: Room + Send + Sync, R: Threads + Wait + Sync>(
    rt: &R,
    alloc: Global,
    shared: &Shared<Core, NoKeeper, N>,
    plan: Plan,
) -> Result<Vec<Pass<N>>, AllocError> {
    let passes = all_passes(rt, alloc, shared, plan.threads)?;
    let times = plan.times;
    let asked = thread::map_vec(
        rt,
        passes,
        &|pass: Pass<N>| { ask(rt, alloc, shared, pass, times) },
    )?;
    let mut passes = Vec::new(alloc);
    for pass in asked {
        if let Some(pass) = pass {
            passes.push(pass)?;
        }
    }
    Ok(passes)
}

/// Asks a desk under its name, and returns how many calls it answered; none if the passes that came back didn't make all its calls.
fn ask_named<N: Room + Send + Sync, R: Threads + Wait + Sync>(
    rt: &R,
    alloc: Global,
    core: Box<Core>,
    blank: Blank,
    plan: Plan,
) -> Result<Option<usize>, AllocError>
    requires begun { N.begun ≡ kept_desk core.value None 0 }
    requires name { blank.name ≡ N.name }
    requires parts { (blank.parts ≡ N.parts) × (N.all ≡ N.parts) × (1048577 ≤ N.all) }
    requires table { blank.table ≡ N.table }
    requires first { N.first ≡ 1 }
    requires above { AreBelow 1 core.value.history }
{
    let shared: Shared<Core, NoKeeper, N> = Shared::new(core, NoKeeper, blank, 1);
    let passes = ask_all(rt, alloc, &shared, plan)?;
    match shared.finish(passes) {
        Ok((core, _keeper)) => Ok(Some(core.calls().len())),
        Err(_) => Ok(None),
    }
}

/// Asks a new desk in threads, and returns how many calls it answered; none if the desk had calls before, or a thread did not ask every time.
pub fn ask_in_threads<R: Threads + Wait + Sync>(
    rt: &R,
    alloc: Global,
    core: Box<Core>,
    plan: Plan,
) -> Result<Option<usize>, AllocError> {
    if !are_below(1, core.calls()) {
        return Ok(None);
    }
    let blank = Blank::new(alloc)?;
    ask_named::<Brand, R>(rt, alloc, core, blank, plan)
}
