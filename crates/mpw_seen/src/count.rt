//! Counts the seen shapes of a submission, from the counts of its nodes.

ghost use Rattle.std.specs.Prelude.{◌≡◌, ◌<◌, length, IfOk};
ghost use Rattle.mpw_hier.specs.Values.{flat};
ghost use Rattle.mpw_seen.specs.Seen.{seen_items};
ghost use Rattle.mpw_seen.specs.Internal.Counts.{AreOfBound};

use crate::laws::names_are_shown;
use crate::marks::marks_from;
use crate::node::{node_numbers, number_at};
use crate::seen::is_seen;
use mpw_hier::Shelf;
use std::alloc::{AllocError, Global};

/// The number of seen shapes of a submission, from those of the submissions to which its names are bound. Cost: one pass over its nodes and their
/// children, and memory for one number for each node.
///
/// # Errors
/// Out of memory.
fn submission_count(
    alloc: Global,
    shelf: &Shelf,
    number: u32,
    seen: &[bool],
    outer: &[u64],
) -> Result<u64, AllocError>
    requires number { number < length shelf.now }
    requires outer { AreOfBound shelf.now seen.now number outer.now }
    ensures { IfOk result (λ count. count ≡ seen_items seen.now (flat shelf.now number)) }
{
    names_are_shown();
    let nodes = shelf.nodes(number).unwrap();
    let structures = shelf.get(number).unwrap().library.structures();
    let numbers = node_numbers(alloc, structures, nodes, outer, is_seen(seen, number))?;
    Ok(number_at(&numbers, nodes.len() - 1))
}

/// How many flat shapes of a submission come from submissions that may be seen: those whose entry in `seen` is `true`.
///
/// Cost: one pass over the nodes of the submission and of those that it reaches, and over their children, whatever the number of
/// instances and levels. Memory: one number for each node of one submission at a time, and a mark and a number for each submission
/// up to this one.
///
/// # Errors
/// Out of memory.
pub fn seen_count(
    alloc: Global,
    shelf: &Shelf,
    number: u32,
    seen: &[bool],
) -> Result<u64, AllocError>
    requires { number < length shelf.now }
    ensures { IfOk result (λ count. count ≡ seen_items seen.now (flat shelf.now number)) }
{
    let marks = marks_from(alloc, shelf, number)?;
    let many = number as usize + 1;
    let mut counts = Vec::with_capacity(alloc, many)?;
    for place in 0..many {
        let mut count = 0;
        if marks[place] {
            count = submission_count(alloc, shelf, place as u32, seen, &counts)?;
        }
        counts.push(count)?;
    }
    Ok(number_at(&counts, number as usize))
}
