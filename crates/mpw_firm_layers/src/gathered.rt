//! Collects the layers of a node's flat shapes that no rule names, from those of its targets. Adding a list again adds nothing, so
//! the list of a target serves for all its instances.

ghost use Rattle.std.specs.Prelude.{◌≡◌, [], fold, length, slice_index_or, IfOk};
ghost use Rattle.mpw_firm_layers.specs.Internal.Values.{AreValues, target_value};
ghost use Rattle.mpw_firm_layers.specs.Internal.Gathered.{node_layers, with_child};

use crate::layers::Layers;
use crate::node::elements_at;
use mpw_deck::Rule;
use mpw_geom::Layer;
use mpw_hier::{Child, Node, Target};
use mpw_structures::{Element, Structure};
use std::alloc::{AllocError, Global};

/// The layers of the nodes before one, and of the submissions before its own.
#[derive(Clone, Copy)]
struct Below<'a> {
    own: &'a [Layers],
    outer: &'a [Layers],
}

/// The list at an index; empty if there is none.
pub fn list_at(lists: &[Layers], place: usize) -> &[Layer]
    ensures { result.now ≡ slice_index_or lists.now place [] }
{
    match lists.get(place) {
        Some(list) => list.as_slice(),
        None => &[],
    }
}

/// The layers of a target.
fn target_list<'a>(below: Below<'a>, target: Target) -> &'a [Layer]
    ensures { result.now ≡ target_value [] below.entry.own.now below.entry.outer.now target }
{
    match target {
        Target::Own(place) => list_at(below.own, place),
        Target::Outer(number) => list_at(below.outer, number as usize),
    }
}

/// Adds the layers of children.
///
/// # Errors
/// Out of memory.
fn add_children(
    layers: &mut Layers,
    rules: &[Rule],
    below: Below<'_>,
    children: &[Child],
) -> Result<(), AllocError>
    ensures { IfOk result (λ _. layers.new ≡ fold (with_child rules.now below.entry.own.now below.entry.outer.now) layers.old children.now) }
{
    for child in children {
        layers.add_all(rules, target_list(below, child.target))?;
    }
    Ok(())
}

/// The layers of a node with these elements. Cost: one pass over its elements and its children, each with a pass over at most 64 layers.
///
/// # Errors
/// Out of memory.
fn node_list(
    alloc: Global,
    rules: &[Rule],
    elements: &[Element],
    below: Below<'_>,
    children: &[Child],
) -> Result<Layers, AllocError>
    ensures { IfOk result (λ layers. layers ≡ node_layers rules.now below.entry.outer.now elements.now below.entry.own.now children.now) }
{
    let mut layers = Layers::new(alloc);
    layers.add_shapes(rules, elements)?;
    add_children(&mut layers, rules, below, children)?;
    Ok(layers)
}

/// The layers of a submission's nodes, from those of the submissions before it. Cost: one pass over the nodes, their elements and their
/// children, and memory for at most 64 layers for each node.
///
/// # Errors
/// Out of memory.
pub fn node_lists(
    alloc: Global,
    rules: &[Rule],
    structures: &[Structure],
    nodes: &[Node],
    outer: &[Layers],
) -> Result<Vec<Layers>, AllocError>
    ensures { IfOk result (λ lists. AreValues (node_layers rules.now outer.now) structures.now nodes.now (length nodes.now) lists.items) }
{
    let mut lists = Vec::with_capacity(alloc, nodes.len())?;
    for node in nodes {
        let elements = elements_at(structures, node.structure);
        let below = Below { own: &lists, outer };
        let list = node_list(alloc, rules, elements, below, &node.children)?;
        lists.push(list)?;
    }
    Ok(lists)
}
