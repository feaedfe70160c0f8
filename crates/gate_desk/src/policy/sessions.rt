//! Tables of requests: what a user is authorized for while the paths of a diamond are removed, and the limit of roles.
use crate::policy::{name, role_name};
use mpw_geom::{Name, Names};
use mpw_permissions::{Object, Operation};
use mpw_rbac::{Digest, Identity, Policy, PolicyFault, Refusal};
use std::alloc::{AllocError, Global};
use std::io;

/// The digest of each user here.
const DIGEST: Digest = [7; 32];

/// The pairs of the diamond, and two that are refused.
const PAIRS: [(&str, &str); 6] = [
    ("a", "b"),
    ("a", "c"),
    ("b", "d"),
    ("c", "d"),
    ("d", "a"),
    ("a", "b"),
];

/// A refusal's word.
fn refusal_word(refusal: &Refusal) -> &'static str {
    match refusal {
        Refusal::Known => "known",
        Refusal::Loop => "loop",
        Refusal::Full => "full",
        _ => "refused",
    }
}

/// A fault's word.
fn fault_word(fault: &PolicyFault) -> &'static str {
    match fault {
        PolicyFault::Refused(refusal) => refusal_word(refusal),
        PolicyFault::Memory => "memory",
    }
}

/// The word of an answer.
fn word(made: &Result<(), PolicyFault>) -> &'static str {
    match made {
        Ok(()) => "ok",
        Err(fault) => fault_word(fault),
    }
}

/// The word of an answer. It is dropped here, at one place.
fn told(made: Result<(), PolicyFault>) -> &'static str {
    word(&made)
}

/// A new desk.
fn desk(alloc: Global) -> Result<Policy, AllocError> {
    match Policy::new(alloc, name(alloc, "root")?, DIGEST) {
        Ok(policy) => Ok(policy),
        Err(_) => Err(AllocError),
    }
}

/// A call with one name, on a connection.
#[derive(Clone, Copy)]
enum NameCall {
    Open,
    Activate,
    DeleteRole,
}

/// The answer to an activation.
fn activate(policy: &mut Policy, conn: u32, role: &Name) -> &'static str {
    if policy.has_session(conn) {
        told(policy.activate(conn, role))
    } else {
        "no session"
    }
}

/// The answer to a call with one name.
fn call(
    alloc: Global,
    policy: &mut Policy,
    conn: u32,
    call: NameCall,
    text: &str,
) -> Result<&'static str, AllocError> {
    let name = name(alloc, text)?;
    match call {
        NameCall::Open => Ok(told(policy.open(conn, &name, &DIGEST))),
        NameCall::Activate => Ok(activate(policy, conn, &name)),
        NameCall::DeleteRole => Ok(told(policy.delrole(&name))),
    }
}

/// The officer's call with two names.
#[derive(Clone, Copy)]
enum PairCall {
    Inherit,
    Uninherit,
    Assign,
}

/// The answer to the officer's call with two names.
fn call_pair(
    alloc: Global,
    policy: &mut Policy,
    call: PairCall,
    one: &str,
    other: &str,
) -> Result<&'static str, AllocError> {
    let one = name(alloc, one)?;
    let other = name(alloc, other)?;
    match call {
        PairCall::Inherit => Ok(told(policy.inherit(&one, &other))),
        PairCall::Uninherit => Ok(told(policy.uninherit(&one, &other))),
        PairCall::Assign => Ok(told(policy.assign(&one, &other))),
    }
}

/// Opens the officer's session on connection 1, and returns the answer.
fn log_in_officer(alloc: Global, policy: &mut Policy) -> Result<&'static str, AllocError> {
    let opened = call(alloc, policy, 1, NameCall::Open, "root")?;
    if opened != "ok" {
        return Ok(opened);
    }
    call(alloc, policy, 1, NameCall::Activate, "officer")
}

/// Prints a user's roles on a line, after what they are to the user.
fn print_roles(rt: &HostRuntime, user: &Name, what: &str, roles: &Names) -> io::Result<()> {
    print!(rt; "{} {what}", user.as_str())?;
    for role in roles.as_slice() {
        print!(rt; " {}", role.as_str())?;
    }
    println!(rt; "")
}

/// Prints what `whoami` shows of a session.
fn print_told(rt: &HostRuntime, identity: &Identity) -> io::Result<()> {
    print_roles(rt, &identity.user, "active", &identity.active)?;
    print_roles(rt, &identity.user, "authorized", &identity.authorized)
}

/// Prints what `whoami` shows on connection 2.
fn print_identity(rt: &HostRuntime, policy: &Policy) -> io::Result<()> {
    if !policy.has_session(2) {
        return println!(rt; "no session");
    }
    let identity = policy.whoami(2)?;
    print_told(rt, &identity)
}

/// Adds a role, and returns the answer.
fn add_role(policy: &mut Policy, role: Name) -> &'static str {
    told(policy.addrole(role))
}

/// The roles a, b, c, d, and the user ann.
fn people(policy: &mut Policy, alloc: Global) -> Result<&'static str, AllocError> {
    for role in &["a", "b", "c", "d"] {
        if add_role(policy, name(alloc, role)?) != "ok" {
            return Ok("refused");
        }
    }
    Ok(told(policy.adduser(name(alloc, "ann")?, DIGEST)))
}

/// Prints the answer to removing one pair, and what `whoami` shows after it.
fn unlink(rt: &HostRuntime, policy: &mut Policy, senior: &str, junior: &str) -> io::Result<()> {
    let made = call_pair(rt.alloc(), policy, PairCall::Uninherit, senior, junior)?;
    println!(rt; "uninherit {senior} {junior}: {made}")?;
    print_identity(rt, policy)
}

/// Prints the pairs of the diamond, and one wrong pair of each kind.
fn link_all(rt: &HostRuntime, policy: &mut Policy) -> io::Result<()> {
    println!(rt; "roles a b c d, user ann: {}", people(policy, rt.alloc())?)?;
    for (senior, junior) in &PAIRS {
        let made = call_pair(rt.alloc(), policy, PairCall::Inherit, senior, junior)?;
        println!(rt; "inherit {senior} {junior}: {made}")?;
    }
    Ok(())
}

/// Assigns ann the top of the diamond, and opens her session.
fn log_in(rt: &HostRuntime, policy: &mut Policy) -> io::Result<()> {
    let assigned = call_pair(rt.alloc(), policy, PairCall::Assign, "ann", "a")?;
    let opened = call(rt.alloc(), policy, 2, NameCall::Open, "ann")?;
    println!(rt; "assign ann a: {assigned}; open: {opened}")?;
    print_identity(rt, policy)
}

/// Prints what ann has while the paths of the diamond are removed.
fn take_apart(rt: &HostRuntime, policy: &mut Policy) -> io::Result<()> {
    let active = call(rt.alloc(), policy, 2, NameCall::Activate, "d")?;
    println!(rt; "activate d: {active}")?;
    unlink(rt, policy, "a", "b")?;
    unlink(rt, policy, "a", "c")
}

/// A diamond still has its foot while one path is left.
fn diamond(rt: &HostRuntime, policy: &mut Policy) -> io::Result<()> {
    println!(rt; "officer: {}", log_in_officer(rt.alloc(), policy)?)?;
    link_all(rt, policy)?;
    log_in(rt, policy)?;
    take_apart(rt, policy)
}

/// Adds that many roles, and returns how many of them were added.
fn add_roles(alloc: Global, policy: &mut Policy, count: usize) -> Result<u32, AllocError> {
    let mut added: u32 = 0;
    for index in 1..count {
        if add_role(policy, role_name(alloc, index)?) == "ok" {
            added = added.saturating_add(1);
        }
    }
    Ok(added)
}

/// Fills the roles up to their limit and past it: adds a role past the limit, deletes one, and adds the role again.
fn limit(rt: &HostRuntime, policy: &mut Policy) -> io::Result<()> {
    let officer = log_in_officer(rt.alloc(), policy)?;
    let added = add_roles(rt.alloc(), policy, 512)?;
    let full = add_role(policy, name(rt.alloc(), "last")?);
    let deleted = call(rt.alloc(), policy, 1, NameCall::DeleteRole, "r7")?;
    let again = add_role(policy, name(rt.alloc(), "last")?);
    println!(rt;
        "officer: {officer}\nroles added: {added}\none role more: {full}\ndelete r7: {deleted}\none role more: {again}"
    )
}

/// Prints what is permitted on connection 1, and whether it has a session.
fn print_access(rt: &HostRuntime, policy: &Policy) -> io::Result<()> {
    let access = policy.access(1, Operation::Admin);
    println!(rt;
        "session {}, admin desk {}, at once {}",
        policy.has_session(1),
        access.permits(&Object::Desk),
        policy.permits(1, Operation::Admin, &Object::Desk)
    )
}

/// Ends every session.
fn end_all(rt: &HostRuntime, policy: &mut Policy) -> io::Result<()> {
    println!(rt; "officer: {}", log_in_officer(rt.alloc(), policy)?)?;
    print_access(rt, policy)?;
    policy.end_all();
    print_access(rt, policy)
}

/// The parts about sessions.
#[derive(Clone, Copy)]
enum Part {
    /// A diamond still has its foot while one path is left.
    Diamond,
    /// 512 roles and no more, including the officer's.
    Limit,
    /// If every session ended, nothing is permitted.
    End,
}

/// Prints a part, on its own desk.
fn show_part(rt: &HostRuntime, part: Part) -> io::Result<()> {
    let mut policy = desk(rt.alloc())?;
    match part {
        Part::Diamond => diamond(rt, &mut policy),
        Part::Limit => limit(rt, &mut policy),
        Part::End => end_all(rt, &mut policy),
    }
}

/// Prints the parts about sessions.
pub fn show(rt: &HostRuntime) -> io::Result<()> {
    println!(rt; "# a diamond of roles")?;
    show_part(rt, Part::Diamond)?;
    println!(rt; "# the limit of roles")?;
    show_part(rt, Part::Limit)?;
    println!(rt; "# the end of all sessions")?;
    show_part(rt, Part::End)
}
