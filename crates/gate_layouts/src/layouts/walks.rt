//! Walks over placed submissions.

use crate::layouts::flat::gives;
use crate::layouts::layers::Both;
use crate::layouts::random::Random;
use crate::layouts::seen::agree;
use anyhow::{Result, bail};
use gate_plain::{flat_list, placed_roots};
use gate_words::{Words, orient_word};
use mpw_geom::Box2;
use mpw_hier::Shelf;
use mpw_walk::{Placed, Root, Walk, all_fit};
use std::alloc::Global;
use std::io;

const SEED: u64 = 1;

fn print_placed(rt: &HostRuntime, placed: &Placed<'_>) -> io::Result<()> {
    let turn = orient_word(placed.placing.orient);
    let by = placed.placing.by;
    println!(rt; "    {} {turn} {} {}", placed.origin, by.x, by.y)
}

/// Prints each shape by its origin and its placing, and the number of turns.
fn print_walk(rt: &HostRuntime, walk: &mut Walk<'_>) -> io::Result<()> {
    for _ in 0..100 {
        match walk.next() {
            Some(placed) => print_placed(rt, &placed)?,
            None => break,
        }
    }
    println!(rt; "    {} turns", walk.turns())
}

/// Prints how many shapes a walk gives, and the number of turns.
fn print_count(rt: &HostRuntime, walk: &mut Walk<'_>) -> io::Result<()> {
    let mut count = 0u64;
    for _ in 0..u64::MAX {
        if walk.next().is_none() {
            break;
        }
        count = count.wrapping_add(1);
    }
    println!(rt; "    {count} shapes, {} turns", walk.turns())
}

/// Prints the shapes of a walk over roots, or their number.
pub fn walk(rt: &HostRuntime, shelf: &Shelf, text: &str, is_counted: bool) -> Result<()> {
    let roots = placed_roots(rt.alloc(), text)?;
    if roots.len() > 10 || !all_fit(shelf, &roots) {
        return Ok(println!(rt; "    no roots")?);
    }
    let mut walk = Walk::new(shelf, &roots);
    if is_counted {
        Ok(print_count(rt, &mut walk)?)
    } else {
        Ok(print_walk(rt, &mut walk)?)
    }
}

/// Prints the shapes of a walk over roots within a window.
fn print_within(rt: &HostRuntime, shelf: &Shelf, window: Box2, text: &str) -> Result<()> {
    let roots = placed_roots(rt.alloc(), text)?;
    if roots.len() > 10 || !all_fit(shelf, &roots) {
        return Ok(println!(rt; "    no roots")?);
    }
    Ok(print_walk(rt, &mut Walk::within(shelf, &roots, window))?)
}

/// Prints the shapes of a walk over roots within a window, which comes before them.
pub fn within(rt: &HostRuntime, shelf: &Shelf, text: &str) -> Result<()> {
    let (first, rest) = text.split_once(',').unwrap_or((text, ""));
    let mut words = Words::of(first);
    let window = words.area();
    print_within(rt, shelf, window, rest)?;
    words.end()
}

/// The number of shapes of the roots, by the shelf.
fn told(shelf: &Shelf, roots: &[Root]) -> usize {
    let mut count = 0usize;
    for root in roots {
        count = count.saturating_add(shelf.count(root.submission) as usize);
    }
    count
}

/// How many shapes roots have. It is none if the walk, a count of seen shapes, or the layers of nodes differ from the flat list.
fn compared_roots<'a>(
    alloc: Global,
    shelf: &'a Shelf,
    roots: &'a [Root],
    seen: &[bool],
) -> Result<Option<usize>> {
    if roots.len() > 10 || !all_fit(shelf, roots) {
        bail!("roots that fit");
    }
    let list = flat_list(alloc, shelf, roots)?;
    let list = list.as_slice();
    let are_seen = agree(alloc, shelf, roots, &mut Walk::new(shelf, roots), seen)?;
    let are_layered = Both { shelf, roots, list }.agree(alloc)?;
    let is_given = gives(&mut Walk::new(shelf, roots), list);
    let is_same = are_seen & are_layered & is_given & (list.len() == told(shelf, roots));
    Ok(if is_same { Some(list.len()) } else { None })
}

/// Walks over a random shelf.
fn compared_one(alloc: Global, random: &mut Random) -> Result<Option<usize>> {
    let shelf = random.shelf(alloc)?;
    let roots = random.roots(alloc, &shelf)?;
    let seen = random.flags(alloc, shelf.submissions().len())?;
    compared_roots(alloc, &shelf, &roots, &seen)
}

/// Compares walks over that many random shelves, and the layers of nodes, with a plain flattening, and counts of seen shapes with walks.
pub fn compared(rt: &HostRuntime, shelves: u32) -> Result<()> {
    let mut random = Random::new(SEED);
    let mut shapes = 0usize;
    for shelf in 0..shelves {
        match compared_one(rt.alloc(), &mut random)? {
            Some(count) => shapes = shapes.saturating_add(count),
            None => println!(rt; "    shelf {shelf} differs")?,
        }
    }
    let size = if shapes > 1000 { "more" } else { "not more" };
    Ok(println!(rt; "    {shelves} shelves, {size} than 1000 shapes, equal")?)
}
