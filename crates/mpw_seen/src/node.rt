//! Counts the seen shapes of a node, from the counts of its targets. A count stops at the greatest number of 64 bits.

ghost use Rattle.std.specs.Prelude.{◌≡◌, ◌+◌, length, slice_get, slice_index, IfOk};
ghost use Rattle.std.specs.List.{sum_by};
ghost use Rattle.mpw_seen.specs.Internal.Counts.{told, target_number, child_number, node_number, elements_of, AreNumbers};

use mpw_hier::{Child, Node, Target};
use mpw_structures::{Element, Structure};
use std::alloc::{AllocError, Global};

/// The number at an index, or 0 if there is none.
pub fn number_at(numbers: &[u64], place: usize) -> u64
    ensures { result ≡ slice_index numbers.now place }
{
    match numbers.get(place) {
        Some(number) => *number,
        None => 0,
    }
}

/// The number of a target.
fn target_number(own: &[u64], outer: &[u64], target: Target) -> u64
    ensures { result ≡ target_number own.now outer.now target }
{
    match target {
        Target::Own(place) => number_at(own, place),
        Target::Outer(number) => number_at(outer, number as usize),
    }
}

/// The number of a child: that of its target, times its instances.
fn child_number(elements: &[Element], own: &[u64], outer: &[u64], child: Child) -> u64
    ensures { result ≡ told (child_number elements.now own.now outer.now child) }
{
    let number = target_number(own, outer, child.target);
    match elements.get(child.element) {
        Some(Element::Reference(reference)) => {
            let reference = reference.get();
            let instances = u64::from(reference.columns) * u64::from(reference.rows);
            instances.saturating_mul(number)
        }
        _ => 0,
    }
}

/// The sum of another number and those of children.
fn children_number(
    elements: &[Element],
    own: &[u64],
    outer: &[u64],
    children: &[Child],
    first: u64,
) -> u64
    ensures { result ≡ told (first + sum_by (child_number elements.now own.now outer.now) children.now) }
{
    let mut number = first;
    for child in children {
        number = number.saturating_add(child_number(elements, own, outer, *child));
    }
    number
}

/// The number of a node with these elements: its own shapes if its submission is seen, plus those of its children. The numbers of
/// the nodes before it and of the submissions before its own are given. One pass over its children.
fn node_number(elements: &[Element], own: &[u64], outer: &[u64], is_seen: bool, node: &Node) -> u64
    ensures { result ≡ told (node_number elements.now own.now outer.now is_seen node.now) }
{
    let mut first = 0;
    if is_seen {
        first = node.shapes.len() as u64;
    }
    children_number(elements, own, outer, &node.children, first)
}

/// The elements of the structure at an index; empty if there is none.
fn elements_at(structures: &[Structure], place: usize) -> &[Element]
    ensures { result.now ≡ elements_of (slice_get structures.now place) }
{
    match structures.get(place) {
        Some(structure) => structure.elements.as_slice(),
        None => &[],
    }
}

/// The numbers of a submission's nodes, from those of the submissions before it, and from whether it is seen itself. Cost: one pass over the
/// nodes and their children, and memory for one number for each node.
///
/// # Errors
/// Out of memory.
pub fn node_numbers(
    alloc: Global,
    structures: &[Structure],
    nodes: &[Node],
    outer: &[u64],
    is_seen: bool,
) -> Result<Vec<u64>, AllocError>
    ensures { IfOk result (λ numbers. AreNumbers structures.now outer.now is_seen nodes.now (length nodes.now) numbers.items) }
{
    let mut numbers = Vec::with_capacity(alloc, nodes.len())?;
    for node in nodes {
        let elements = elements_at(structures, node.structure);
        let number = node_number(elements, &numbers, outer, is_seen, node);
        numbers.push(number)?;
    }
    Ok(numbers)
}
