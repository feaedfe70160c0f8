//! Counts the flat shapes of roots on a layer, from the counts of their submissions.

ghost use Rattle.std.specs.Prelude.{◌≡◌, ◌<◌, ◌≤◌, ◌^◌, length, slice_index, IfOk};
ghost use Rattle.std.specs.List.{sum_by};
ghost use Rattle.mpw_hier.specs.Values.{flat};
ghost use Rattle.mpw_seen.specs.Internal.Counts.{told};
ghost use Rattle.mpw_firm_layers.specs.Layers.{layer_count, shows};
ghost use Rattle.mpw_firm_layers.specs.Internal.Counts.{root_number, told_on, AreCounts};

use crate::laws::names_are_shown;
use crate::node::{node_numbers, number_at};
use mpw_geom::Layer;
use mpw_hier::Shelf;
use mpw_walk::Root;
use std::alloc::{AllocError, Global};

/// The number of a submission's flat shapes on a layer, from those of the submissions before it. Cost: one pass over its nodes, their elements and
/// their children, and memory for one number for each node.
///
/// # Errors
/// Out of memory.
fn submission_count(
    alloc: Global,
    shelf: &Shelf,
    number: u32,
    layer: Layer,
    outer: &[usize],
) -> Result<usize, AllocError>
    requires number { number < length shelf.now }
    requires outer { AreCounts shelf.now layer number outer.now }
    ensures { IfOk result (λ count. count ≡ told_on layer (flat shelf.now number)) }
{
    names_are_shown();
    let nodes = shelf.nodes(number).unwrap();
    let structures = shelf.get(number).unwrap().library.structures();
    let numbers = node_numbers(alloc, structures, nodes, outer, layer)?;
    Ok(number_at(&numbers, nodes.len() - 1))
}

/// How many submissions there are.
pub(crate) fn many(shelf: &Shelf) -> usize
    ensures many { result ≡ length shelf.now }
    ensures few { result ≤ 4096 }
{
    shelf.is_shelf();
    shelf.submissions().len()
}

/// The number of each submission's flat shapes on a layer.
///
/// # Errors
/// Out of memory.
fn submission_counts(alloc: Global, shelf: &Shelf, layer: Layer) -> Result<Vec<usize>, AllocError>
    ensures { IfOk result (λ counts. AreCounts shelf.now layer (length shelf.now) counts.items) }
{
    let many = many(shelf);
    let mut counts = Vec::with_capacity(alloc, many)?;
    for place in 0..many {
        let count = submission_count(alloc, shelf, place as u32, layer, &counts)?;
        counts.push(count)?;
    }
    Ok(counts)
}

/// The sum of the numbers of the roots' submissions.
fn roots_number(counts: &[usize], roots: &[Root]) -> usize
    ensures { result ≡ told (sum_by (root_number counts.now) roots.now) }
{
    let mut number = 0usize;
    for root in roots {
        number = number.saturating_add(number_at(counts, root.submission as usize));
    }
    number
}

/// How many flat shapes of roots are on a layer, up to 2^64 - 1. A root whose submission isn't on the shelf has none.
///
/// Cost: one pass over the roots, and over the nodes of all submissions of the shelf, with their elements and children, whatever the number of
/// instances and levels. Memory: one number for each submission, and one for each node of one submission at a time.
///
/// # Errors
/// Out of memory.
pub fn layer_count(
    alloc: Global,
    shelf: &Shelf,
    roots: &[Root],
    layer: Layer,
) -> Result<usize, AllocError>
    ensures { IfOk result (λ count. count ≡ layer_count shelf.now roots.now layer) }
{
    names_are_shown();
    let counts = submission_counts(alloc, shelf, layer)?;
    Ok(roots_number(&counts, roots))
}

/// Whether roots have a flat shape on a layer. The cost and the memory are those of [`layer_count`].
///
/// # Errors
/// Out of memory.
pub fn shows(alloc: Global, shelf: &Shelf, roots: &[Root], layer: Layer) -> Result<bool, AllocError>
    ensures { IfOk result (λ shown. shown ≡ shows shelf.now roots.now layer) }
{
    let count = layer_count(alloc, shelf, roots, layer)?;
    Ok(count > 0)
}
