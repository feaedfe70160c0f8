//! How many shapes come from submissions that may be seen.

use anyhow::{Result, bail};
use gate_words::Words;
use mpw_hier::Shelf;
use mpw_seen::{is_seen, seen_count};
use mpw_walk::{Root, Walk};
use std::alloc::{AllocError, Global};
use std::slice;

/// Which submissions are seen, by number: those with a `1`.
fn flags(alloc: Global, word: &str) -> Result<Vec<bool>, AllocError> {
    let mut seen = Vec::new(alloc);
    for byte in word.as_bytes() {
        seen.push(*byte == b'1')?;
    }
    Ok(seen)
}

/// How many shapes of a walk are seen.
fn walked(walk: &mut Walk<'_>, seen: &[bool]) -> u64 {
    let mut count = 0u64;
    for _ in 0..u64::MAX {
        let Some(placed) = walk.next() else {
            break;
        };
        if is_seen(seen, placed.origin) {
            count = count.wrapping_add(1);
        }
    }
    count
}

/// Prints how many shapes of a submission are seen, and how many a walk gives if that is asked for.
pub fn print_seen(rt: &HostRuntime, shelf: &Shelf, words: &mut Words<'_>) -> Result<()> {
    let number = words.number();
    let seen = flags(rt.alloc(), words.next())?;
    if number as usize >= shelf.submissions().len() {
        bail!("a submission");
    }
    let count = seen_count(rt.alloc(), shelf, number, &seen)?;
    println!(rt; "    {count} of {}", shelf.count(number))?;
    if words.rest() == "walked" {
        let root = Root::at_origin(shelf, number);
        let count = walked(&mut Walk::new(shelf, slice::from_ref(&root)), &seen);
        println!(rt; "    {count} by a walk")?;
    }
    Ok(())
}

/// How many shapes of a submission are seen, by its nodes.
fn counted(alloc: Global, shelf: &Shelf, number: u32, seen: &[bool]) -> Result<u64> {
    if number as usize >= shelf.submissions().len() {
        bail!("a submission");
    }
    Ok(seen_count(alloc, shelf, number, seen)?)
}

/// Whether nodes and a walk have the same number of seen shapes of roots.
pub fn agree(
    alloc: Global,
    shelf: &Shelf,
    roots: &[Root],
    walk: &mut Walk<'_>,
    seen: &[bool],
) -> Result<bool> {
    let mut count = 0u64;
    for root in roots {
        count = count.wrapping_add(counted(alloc, shelf, root.submission, seen)?);
    }
    Ok(count == walked(walk, seen))
}
