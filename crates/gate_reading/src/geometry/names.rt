//! Names and lists of names.

use anyhow::{Result, bail};
use mpw_geom::{Name, NameFault, Names};
use std::alloc::{AllocError, Global};
use std::io;

/// The bytes that a word spells in hex, where `61*255` is 255 times the byte 61, and `-` none.
fn bytes(alloc: Global, word: &str) -> Result<Vec<u8>> {
    if word == "-" {
        return Ok(Vec::new(alloc));
    }
    match word.split_once('*') {
        None => Ok(hex::decode(alloc, word)?),
        Some((byte, count)) => {
            let count = usize::from(count.parse::<u16>()?);
            Ok(vec![in alloc; u8::from_str_radix(byte, 16)?; count]?)
        }
    }
}

/// Reads a name, and prints it with its size.
pub fn name(rt: &HostRuntime, word: &str) -> Result<()> {
    let bytes = bytes(rt.alloc(), word)?;
    match Name::read(rt.alloc(), &bytes) {
        Ok(name) => Ok(println!(rt; "    {name}, {} bytes", name.as_bytes().len())?),
        Err(NameFault::BadName) => Ok(println!(rt; "    no name")?),
        Err(NameFault::Memory) => bail!("memory"),
    }
}

/// Prints how two names compare.
fn print_order(rt: &HostRuntime, first: &Name, second: &Name) -> io::Result<()> {
    let sign = if first < second {
        "before"
    } else if first == second {
        "equal"
    } else {
        "behind"
    };
    println!(rt; "    {sign}")
}

/// Compares two names, and each with a copy.
pub fn order(rt: &HostRuntime, first: &str, second: &str) -> Result<()> {
    let first = Name::read(rt.alloc(), first.as_bytes())?;
    let second = Name::read(rt.alloc(), second.as_bytes())?;
    if first.copy()? != first || second.copy()? != second {
        bail!("equal copies");
    }
    Ok(print_order(rt, &first, &second)?)
}

/// Adds the names `n0` and so on, one after another.
fn add_names(alloc: Global, names: &mut Names, count: u32) -> Result<()> {
    for number in 0..count {
        let text = format!(in alloc; "n{number}")?;
        names.push(Name::read(alloc, text.as_bytes())?)?;
    }
    Ok(())
}

/// That many names, each of them twice, sorted in a copy.
fn sorted(alloc: Global, count: u32) -> Result<Names> {
    let mut names = Names::new(alloc);
    add_names(alloc, &mut names, count)?;
    add_names(alloc, &mut names, count)?;
    let mut sorted = names.copy()?;
    sorted.sort()?;
    Ok(sorted)
}

/// Whether a copy of the names without one of them has another one, and not that one.
fn is_removed(names: &Names, gone: &Name, left: &Name) -> Result<bool, AllocError> {
    let mut others = names.copy()?;
    others.remove(gone);
    Ok(!others.contains(gone) && others.contains(left))
}

/// Prints how many names are left of that many, each of them twice, and the first and the last.
pub fn names(rt: &HostRuntime, count: u32) -> Result<()> {
    let names = sorted(rt.alloc(), count)?;
    match names.as_slice() {
        [first, .., last] if is_removed(&names, first, last)? => {
            Ok(println!(rt;
                "    {} names from {first} to {last}",
                names.as_slice().len()
            )?)
        }
        _ => bail!("the last name alone"),
    }
}
