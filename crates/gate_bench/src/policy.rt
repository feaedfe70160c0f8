//! Prints how many calls a second the policy answers, for policies of several sizes.
//!
//! Without times it prints what is permitted and accepted, for two smaller sizes.

mod calls;
mod changes;
mod desk;

use crate::policy::desk::{Desk, name};
use anyhow::Result;
use mpw_permissions::Object;
use mpw_rbac::Policy;
use std::alloc::{AllocError, Global};
use std::io;
use std::time::Instant;

/// How many permissions are asked for.
const CALLS: u32 = 1_000_000;

/// How often a session asks `whoami`, and how often a role is made active and dropped.
const TURNS: u32 = 1_000;

/// How often a change is made.
const CHANGES: u32 = 100;

/// The changes that are timed.
const KINDS: [&str; 9] = [
    "grant",
    "revoke",
    "adduser",
    "assign",
    "addrole",
    "inherit",
    "deluser",
    "delrole",
    "uninherit",
];

/// The cells `c0`, `c1` and so on.
fn cells(alloc: Global, count: u32) -> Result<Vec<Object>, AllocError> {
    let mut cells = Vec::new(alloc);
    for index in 0..count {
        let text = format!(in alloc; "c{index}")?;
        cells.push(Object::Cell(name(alloc, text.as_str())?))?;
    }
    Ok(cells)
}

/// Calls a second since then.
fn rate(rt: &HostRuntime, calls: u32, since: &Instant) -> io::Result<u128> {
    let taken = since.elapsed(rt)?.as_nanos();
    if taken == 0 {
        return Ok(0);
    }
    Ok(u128::from(calls).saturating_mul(1_000_000_000) / taken)
}

/// The size of a policy: the roles with the officer's, the grants without the officer's, and the users without the officer
/// and the one at the top.
type Size = (u32, u32, u32);

/// Prints how many permissions a second are answered.
fn time_permits(
    rt: &HostRuntime,
    policy: &Policy,
    cells: &[Object],
    still: bool,
) -> io::Result<()> {
    let start = Instant::now(rt)?;
    let permitted = calls::permitted(policy, cells, CALLS);
    let rate = rate(rt, CALLS, &start)?;
    if still {
        return println!(rt; "  {permitted} of {CALLS} permitted");
    }
    println!(rt; "  permits {rate} a second, {permitted} of {CALLS} permitted")
}

/// Prints how many lists of objects a second are tested with one access.
fn time_access(rt: &HostRuntime, policy: &Policy, cells: &[Object], still: bool) -> io::Result<()> {
    let start = Instant::now(rt)?;
    let permitted = calls::accessible(policy, cells, CALLS);
    let rate = rate(rt, CALLS, &start)?;
    if still {
        return println!(rt; "  {permitted} of {CALLS} accessible");
    }
    println!(rt; "  access.permits {rate} a second")
}

/// Prints how many requests of sessions a second are answered.
fn time_sessions(rt: &HostRuntime, policy: &mut Policy, still: bool) -> Result<()> {
    let role = name(rt.alloc(), "r1")?;
    let start = Instant::now(rt)?;
    let told = calls::known(policy, TURNS);
    let whoami = rate(rt, TURNS, &start)?;
    let start = Instant::now(rt)?;
    let activated = calls::activated(policy, &role, TURNS);
    let active = rate(rt, TURNS, &start)?;
    if still {
        return Ok(println!(rt; "  {told} told, {activated} activated")?);
    }
    Ok(println!(rt; "  whoami {whoami} a second, activate and drop {active} a second")?)
}

/// Prints how many changes of a kind a second are made, each in a copy of the policy.
fn time_change(rt: &HostRuntime, policy: &Policy, kind: &str, still: bool) -> Result<()> {
    let start = Instant::now(rt)?;
    let accepted = changes::changed(rt.alloc(), policy, kind, CHANGES)?;
    let rate = rate(rt, CHANGES, &start)?;
    if still {
        return Ok(println!(rt; "  {kind}: {accepted} of {CHANGES} accepted")?);
    }
    Ok(println!(rt; "  copy and {kind} {rate} a second, {accepted} of {CHANGES} accepted")?)
}

/// Times the calls of a policy, and its changes.
fn time(rt: &HostRuntime, policy: &mut Policy, cells: &[Object], still: bool) -> Result<()> {
    time_permits(rt, policy, cells, still)?;
    time_access(rt, policy, cells, still)?;
    time_sessions(rt, policy, still)?;
    for kind in KINDS {
        time_change(rt, policy, kind, still)?;
    }
    Ok(())
}

/// Fills a policy of a size, and times its calls.
fn show(rt: &HostRuntime, size: Size, still: bool) -> Result<()> {
    let (roles, grants, users) = size;
    let mut desk = Desk::new(rt.alloc())?;
    desk.fill(roles, grants, users)?;
    println!(rt;
        "{roles} roles, {grants} grants, {users} users more: {} refused",
        desk.refused
    )?;
    let cells = cells(rt.alloc(), grants.saturating_mul(2))?;
    time(rt, &mut desk.policy, cells.as_slice(), still)
}

/// The sizes of the policies. One more role, grant and user fit, except the role if there are 512.
const SIZES: [Size; 7] = [
    (10, 10, 0),
    (10, 4094, 0),
    (100, 100, 0),
    (100, 4094, 0),
    (512, 512, 0),
    (512, 4094, 0),
    (511, 4094, 509),
];

/// The sizes if no times are printed.
const STILL_SIZES: [Size; 2] = [(10, 10, 10), (100, 100, 0)];

/// Times the policies of all sizes.
pub fn run(rt: &HostRuntime, still: bool) -> Result<()> {
    let sizes = if still {
        STILL_SIZES.as_slice()
    } else {
        SIZES.as_slice()
    };
    for size in sizes {
        show(rt, *size, still)?;
    }
    Ok(())
}
