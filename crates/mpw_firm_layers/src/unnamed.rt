//! Finds the layers of roots' flat shapes that no rule names, from those of their submissions.

ghost use Rattle.std.specs.Prelude.{◌≡◌, ◌<◌, [], fold, length, IfOk};
ghost use Rattle.mpw_hier.specs.Values.{flat};
ghost use Rattle.mpw_firm_layers.specs.Unnamed.{unnamed_layers};
ghost use Rattle.mpw_firm_layers.specs.Internal.Gathered.{gathered, with_root, AreGathered};

use crate::count::many;
use crate::gathered::{list_at, node_lists};
use crate::laws::names_are_shown;
use crate::layers::Layers;
use mpw_deck::Rule;
use mpw_hier::Shelf;
use mpw_walk::Root;
use std::alloc::{AllocError, Global};

/// The layers of a submission, from those of the submissions before it. Cost: one pass over its nodes, their elements and their children, and
/// memory for at most 64 layers for each node.
///
/// # Errors
/// Out of memory.
fn submission_list(
    alloc: Global,
    shelf: &Shelf,
    number: u32,
    rules: &[Rule],
    outer: &[Layers],
) -> Result<Layers, AllocError>
    requires number { number < length shelf.now }
    requires outer { AreGathered shelf.now rules.now number outer.now }
    ensures { IfOk result (λ layers. layers ≡ gathered rules.now (flat shelf.now number)) }
{
    names_are_shown();
    let nodes = shelf.nodes(number).unwrap();
    let structures = shelf.get(number).unwrap().library.structures();
    let mut lists = node_lists(alloc, rules, structures, nodes, outer)?;
    Ok(lists.pop().unwrap())
}

/// The layers of each submission.
///
/// # Errors
/// Out of memory.
fn submission_lists(alloc: Global, shelf: &Shelf, rules: &[Rule]) -> Result<Vec<Layers>, AllocError>
    ensures { IfOk result (λ lists. AreGathered shelf.now rules.now (length shelf.now) lists.items) }
{
    let many = many(shelf);
    let mut lists = Vec::with_capacity(alloc, many)?;
    for place in 0..many {
        let list = submission_list(alloc, shelf, place as u32, rules, &lists)?;
        lists.push(list)?;
    }
    Ok(lists)
}

/// Adds the layers of the roots' submissions.
///
/// # Errors
/// Out of memory.
fn add_roots(
    layers: &mut Layers,
    rules: &[Rule],
    lists: &[Layers],
    roots: &[Root],
) -> Result<(), AllocError>
    ensures { IfOk result (λ _. layers.new ≡ fold (with_root rules.now lists.now) layers.old roots.now) }
{
    for root in roots {
        layers.add_all(rules, list_at(lists, root.submission as usize))?;
    }
    Ok(())
}

/// The layers of roots' flat shapes that no rule names: the first 64, in the order in which they come in the flat list. A root
/// whose submission isn't on the shelf has none.
///
/// Cost: one pass over the roots, and over the nodes of all submissions of the shelf, with their elements and children, whatever the number of
/// instances and levels. Each element takes a pass over up to 64 layers and the rules, and each child and each root takes that for up to 64
/// layers. Memory: up to 64 layers for each submission, and as much for each node of one submission at a time.
///
/// # Errors
/// Out of memory.
pub fn unnamed_layers(
    alloc: Global,
    shelf: &Shelf,
    roots: &[Root],
    rules: &[Rule],
) -> Result<Layers, AllocError>
    ensures { IfOk result (λ layers. layers ≡ unnamed_layers shelf.now roots.now rules.now) }
{
    names_are_shown();
    let lists = submission_lists(alloc, shelf, rules)?;
    let mut layers = Layers::new(alloc);
    add_roots(&mut layers, rules, &lists, roots)?;
    Ok(layers)
}
