//! Counts the flat shapes of a node on a layer, from the counts of its targets. A count stops at the greatest number of 64 bits.

ghost use Rattle.std.specs.Prelude.{◌≡◌, ◌+◌, length, slice_get, slice_index, IfOk};
ghost use Rattle.std.specs.List.{sum_by};
ghost use Rattle.mpw_seen.specs.Internal.Counts.{told, target_number, child_number, elements_of};
ghost use Rattle.mpw_firm_layers.specs.Internal.Values.{AreValues};
ghost use Rattle.mpw_firm_layers.specs.Internal.Counts.{one_if, node_number};

use crate::layer::is_on;
use mpw_geom::Layer;
use mpw_hier::{Child, Node, Target};
use mpw_structures::{Element, Structure};
use std::alloc::{AllocError, Global};

/// The number at an index, or 0 if there is none.
pub fn number_at(numbers: &[usize], place: usize) -> usize
    ensures { result ≡ slice_index numbers.now place }
{
    match numbers.get(place) {
        Some(number) => *number,
        None => 0,
    }
}

/// The number of a target.
fn target_number(own: &[usize], outer: &[usize], target: Target) -> usize
    ensures { result ≡ target_number own.now outer.now target }
{
    match target {
        Target::Own(place) => number_at(own, place),
        Target::Outer(number) => number_at(outer, number as usize),
    }
}

/// The number of a child: that of its target, times its instances.
fn child_number(elements: &[Element], own: &[usize], outer: &[usize], child: Child) -> usize
    ensures { result ≡ told (child_number elements.now own.now outer.now child) }
{
    let number = target_number(own, outer, child.target);
    match elements.get(child.element) {
        Some(Element::Reference(reference)) => {
            let reference = reference.get();
            let instances = usize::from(reference.columns) * usize::from(reference.rows);
            instances.saturating_mul(number)
        }
        _ => 0,
    }
}

/// 1 for a shape on a layer, and 0 for another element.
fn one_if(element: &Element, layer: Layer) -> usize
    ensures { result ≡ told (one_if layer element.now) }
{
    if is_on(element, layer) { 1 } else { 0 }
}

/// How many of these elements are shapes on a layer.
fn own_number(elements: &[Element], layer: Layer) -> usize
    ensures { result ≡ told (sum_by (one_if layer) elements.now) }
{
    let mut number = 0usize;
    for element in elements {
        number = number.saturating_add(one_if(element, layer));
    }
    number
}

/// The number of a node with these elements: its own shapes on the layer, plus those of its children. The numbers of the nodes before it
/// and of the submissions before its own are given. One pass over its elements and its children.
fn node_number(
    elements: &[Element],
    own: &[usize],
    outer: &[usize],
    layer: Layer,
    children: &[Child],
) -> usize
    ensures { result ≡ node_number layer outer.now elements.now own.now children.now }
{
    let mut number = own_number(elements, layer);
    for child in children {
        number = number.saturating_add(child_number(elements, own, outer, *child));
    }
    number
}

/// The elements of the structure at an index; empty if there is none.
pub fn elements_at(structures: &[Structure], place: usize) -> &[Element]
    ensures { result.now ≡ elements_of (slice_get structures.now place) }
{
    match structures.get(place) {
        Some(structure) => structure.elements.as_slice(),
        None => &[],
    }
}

/// The numbers of a submission's nodes, from those of the submissions before it. Cost: one pass over the nodes, their elements and their
/// children, and memory for one number for each node.
///
/// # Errors
/// Out of memory.
pub fn node_numbers(
    alloc: Global,
    structures: &[Structure],
    nodes: &[Node],
    outer: &[usize],
    layer: Layer,
) -> Result<Vec<usize>, AllocError>
    ensures { IfOk result (λ numbers. AreValues (node_number layer outer.now) structures.now nodes.now (length nodes.now) numbers.items) }
{
    let mut numbers = Vec::with_capacity(alloc, nodes.len())?;
    for node in nodes {
        let elements = elements_at(structures, node.structure);
        let number = node_number(elements, &numbers, outer, layer, &node.children);
        numbers.push(number)?;
    }
    Ok(numbers)
}
