//! Separation sets: which one is reported, what a copy has, and which forms there are.
use crate::policy::name;
use mpw_geom::Names;
use mpw_roles::{Roles, RolesFault};
use mpw_separation::{Kind, SeparationSet, Sets};
use std::alloc::{AllocError, Global};
use std::io;

/// The names of these texts.
fn names(alloc: Global, texts: &[&str]) -> Result<Names, AllocError> {
    let mut names = Names::new(alloc);
    for text in texts {
        names.push(name(alloc, text)?)?;
    }
    Ok(names)
}

/// The set of two roles that nobody may both have, or `None` if there is no such set.
fn pair(
    alloc: Global,
    text: &str,
    one: &str,
    other: &str,
) -> Result<Option<SeparationSet>, AllocError> {
    let roles = names(alloc, &[one, other])?;
    SeparationSet::new(name(alloc, text)?, 2, roles)
}

/// Adds three roles, `boss` at least `chk`.
fn add_roles(alloc: Global, roles: &mut Roles) -> Result<(), RolesFault> {
    for text in &["pay", "chk", "boss"] {
        roles.add(name(alloc, text)?)?;
    }
    let boss = name(alloc, "boss")?;
    roles.inherit(&boss, &name(alloc, "chk")?)
}

/// Makes the set of two roles, static or dynamic, and returns whether it was made.
fn make_pair(
    alloc: Global,
    sets: &mut Sets,
    kind: Kind,
    text: &str,
    one: &str,
    other: &str,
) -> Result<bool, AllocError> {
    let Some(set) = pair(alloc, text, one, other)? else {
        return Ok(false);
    };
    match kind {
        Kind::Static => Ok(sets.make_ssd(set).is_ok()),
        Kind::Dynamic => Ok(sets.make_dsd(set).is_ok()),
    }
}

/// The name that is reported for seniors, or `none`.
fn least_of<'a>(
    alloc: Global,
    sets: &'a Sets,
    kind: Kind,
    roles: &Roles,
    seniors: &[&str],
) -> Result<&'a str, AllocError> {
    let seniors = names(alloc, seniors)?;
    match sets.first_broken(kind, roles, seniors.as_slice()) {
        Some(name) => Ok(name.as_str()),
        None => Ok("none"),
    }
}

/// A senior of one role of a pair, with the other, breaks both static pairs. The first name in alphabetical order is reported.
fn print_told(rt: &HostRuntime, roles: &Roles, sets: &Sets) -> io::Result<()> {
    let fixed = least_of(rt.alloc(), sets, Kind::Static, roles, &["pay", "boss"])?;
    let varying = least_of(rt.alloc(), sets, Kind::Dynamic, roles, &["pay", "boss"])?;
    let alone = least_of(rt.alloc(), sets, Kind::Static, roles, &["boss"])?;
    println!(rt; "pay, boss: static {fixed}, dynamic {varying}\nboss: static {alone}")
}

/// Two static pairs of the same roles, and the names that are reported for seniors.
fn print_least(rt: &HostRuntime, roles: &Roles, sets: &mut Sets) -> io::Result<()> {
    let second = make_pair(rt.alloc(), sets, Kind::Static, "s2", "pay", "chk")?;
    let first = make_pair(rt.alloc(), sets, Kind::Static, "s1", "chk", "pay")?;
    println!(rt; "sets made: s2 {second}, s1 {first}")?;
    print_told(rt, roles, sets)
}

fn show_least(rt: &HostRuntime) -> io::Result<()> {
    let mut roles = Roles::new(rt.alloc());
    let mut sets = Sets::new(rt.alloc());
    match add_roles(rt.alloc(), &mut roles) {
        Ok(()) => print_least(rt, &roles, &mut sets),
        Err(_) => println!(rt; "no hierarchy"),
    }
}

/// Whether the dynamic set exists, and in a copy.
fn print_copy(rt: &HostRuntime, sets: &mut Sets, copy: &Sets) -> io::Result<()> {
    let s1 = name(rt.alloc(), "s1")?;
    let static_gone = sets.remove_ssd(&s1).is_ok();
    let dynamic_gone = sets.remove_dsd(&s1).is_ok();
    let is_there = sets.contains(Kind::Dynamic, &s1);
    let is_in_copy = copy.contains(Kind::Dynamic, &s1);
    println!(rt;
        "static s1 removed {static_gone}, dynamic s1 removed {dynamic_gone}\nstill there {is_there}, in the copy {is_in_copy}"
    )
}

/// The names of the two kinds are separate. A removed set breaks nothing, but a copy still has it.
fn print_kinds(rt: &HostRuntime, sets: &mut Sets) -> io::Result<()> {
    let made = make_pair(rt.alloc(), sets, Kind::Dynamic, "s1", "pay", "chk")?;
    let again = make_pair(rt.alloc(), sets, Kind::Dynamic, "s1", "pay", "chk")?;
    println!(rt; "dynamic s1 made {made}, again {again}")?;
    let copy = sets.copy()?;
    print_copy(rt, sets, &copy)
}

fn show_kinds(rt: &HostRuntime) -> io::Result<()> {
    let mut sets = Sets::new(rt.alloc());
    print_kinds(rt, &mut sets)
}

/// Whether there is a set of these two roles.
fn is_set(alloc: Global, one: &str, other: &str) -> Result<bool, AllocError> {
    let set = pair(alloc, "s1", one, other)?;
    Ok(set.is_some())
}

/// Prints a set's name, and how many roles it has.
fn print_set(rt: &HostRuntime, set: &Option<SeparationSet>) -> io::Result<()> {
    match set {
        Some(set) => println!(rt;
            "set {} of {} roles",
            set.name().as_str(),
            set.roles().len()
        ),
        None => println!(rt; "no set"),
    }
}

/// A set has at least two roles, each once.
fn show_forms(rt: &HostRuntime) -> io::Result<()> {
    let twice = is_set(rt.alloc(), "pay", "pay")?;
    println!(rt; "set of pay and pay: {twice}")?;
    let set = pair(rt.alloc(), "s1", "pay", "chk")?;
    print_set(rt, &set)
}

/// Prints the part about separation sets.
pub fn show(rt: &HostRuntime) -> io::Result<()> {
    println!(rt; "# separation sets")?;
    show_least(rt)?;
    show_kinds(rt)?;
    show_forms(rt)
}
