//! Makes the nodes of a submission, from the lowest structures up to the top.
//!
//! Each structure is visited once, after all structures that it places. So its size follows from its own shapes and from the sizes
//! that are already known.

ghost use Rattle.std.specs.Prelude.{◌≡◌, ◌<◌, [], length, slice_set, IfOk, IfErr, OnOk, Err, Some};
ghost use Rattle.mpw_structures.specs.Library.{IsLibrary};
ghost use Rattle.mpw_structures.specs.Places.{place_of};
ghost use Rattle.mpw_hier.specs.Outline.{IsOutline};
ghost use Rattle.mpw_hier.specs.Outside.{graph_of};
ghost use Rattle.mpw_hier.specs.Graph.{IsFromBelow};
ghost use Rattle.mpw_hier.specs.Limits.{IsBound, IsFar};
ghost use Rattle.mpw_hier.specs.Internal.Limits.{IsOfNodes};
ghost use Rattle.mpw_hier.specs.Nodes.{IsTarget, AreChildren, shape_places};
ghost use Rattle.mpw_hier.specs.Internal.Building.{ShowsBindings, AreLinked, IsKnown, AreKnown, IsSizeHere, AreSizesHere, IsPlace, IsReady, IsOneMore, IsFarHere, IsHierarchy};
ghost use Rattle.mpw_hier.specs.Values.{flats};

use crate::bindings::Binding;
use crate::fault::HierFault;
use crate::node::{Child, Node, Target};
use crate::outline::Outline;
use crate::places::Places;
use crate::size::{Size, size_of};
use crate::submission::Submission;
use crate::table::Table;
use mpw_geom::Name;
use mpw_structures::Element;
use std::alloc::{AllocError, Global};
use std::collections::BTreeMap;

/// The numbers of the submissions to which names are bound, found by the name.
fn table_of(alloc: Global, bindings: &[Binding]) -> Result<BTreeMap<Name, u32>, AllocError>
    ensures { IfOk result (λ table. ShowsBindings table bindings.now) }
{
    let mut table = BTreeMap::new(alloc);
    for binding in bindings {
        let known = table.get(&binding.name).copied();
        if known.is_none() {
            table.insert(binding.name.copy()?, binding.submission)?;
        }
    }
    Ok(table)
}

/// What a name refers to, and the size of that.
#[derive(Clone, Copy)]
struct Link {
    target: Target,
    size: Size,
}

/// The parts of a structure.
struct Parts {
    /// The indices of its own shapes among its elements.
    shapes: Vec<usize>,
    /// Its references to targets with at least one flat shape.
    children: Vec<Child>,
    /// The sizes of the targets of all its references.
    below: Vec<Size>,
}

impl Drop for Parts {
    fn drop(self) {
        let Parts {
            shapes,
            children,
            below,
        } = self;
        drop(shapes);
        drop(children);
        drop(below);
    }
}

impl Parts {
    /// The node of the structure at index `place`, with these parts and this size.
    fn into_node(self, place: usize, size: Size) -> Node
        ensures { result ≡ record { structure = place; shapes = self.shapes.items; children = self.children; size = size } }
    {
        let Parts {
            shapes,
            children,
            below,
        } = self;
        drop(below);
        Node {
            structure: place,
            shapes: Places::of(shapes),
            children,
            size,
        }
    }
}

/// The nodes of a submission that are made so far.
struct Hierarchy<'a> {
    shelf: &'a Table,
    submission: &'a Submission,
    bound: BTreeMap<Name, u32>,
    /// The number of the node of each structure of the library.
    numbers: Vec<Option<usize>>,
    nodes: Vec<Node>,
}

impl<'a> Drop for Hierarchy<'a> {
    fn drop(self) {
        let Hierarchy {
            shelf: _,
            submission: _,
            bound,
            numbers,
            nodes,
        } = self;
        drop(bound);
        drop(numbers);
        drop(nodes);
    }
}

impl<'a> Hierarchy<'a> {
    /// The submission without nodes.
    fn new(
        alloc: Global,
        shelf: &'a Table,
        submission: &'a Submission,
    ) -> Result<Hierarchy<'a>, AllocError>
        requires library { IsLibrary submission.now.library }
        ensures linked { IfOk result (λ h. AreLinked shelf.now submission.now h.bound h.numbers.items h.nodes.items) }
        ensures same { IfOk result (λ h. (h.shelf.now ≡ shelf.now) × (h.submission.now ≡ submission.now)) }
        ensures none { IfOk result (λ h. h.nodes.items ≡ []) }
    {
        let bound = table_of(alloc, submission.bound.as_slice())?;
        let numbers = vec![in alloc; None; submission.library.structures().len()]?;
        let nodes = Vec::new(alloc);
        Ok(Hierarchy {
            shelf,
            submission,
            bound,
            numbers,
            nodes,
        })
    }

    /// What a name refers to.
    fn link(&self, name: &Name) -> Link
        requires linked { AreLinked self.now.shelf.now self.now.submission.now self.now.bound self.now.numbers.items self.now.nodes.items }
        requires known { IsKnown self.now.shelf.now self.now.submission.now self.now.numbers.items name.now }
        ensures target { IsTarget self.now.submission.now (length self.now.shelf.now) self.now.nodes.items name.now result.target }
        ensures size { IsSizeHere self.now.shelf.now self.now.submission.now name.now result.size }
    {
        match self.submission.library.position(name) {
            Some(place) => {
                let number = self.numbers[place].unwrap();
                let size = self.nodes[number].size;
                Link {
                    target: Target::Own(number),
                    size,
                }
            }
            None => {
                let number = *self.bound.get(name).unwrap();
                let size = self.shelf.size(number).unwrap();
                Link {
                    target: Target::Outer(number),
                    size,
                }
            }
        }
    }

    /// The shapes, children and target sizes of elements.
    fn parts(&self, alloc: Global, elements: &[Element]) -> Result<Parts, AllocError>
        requires linked { AreLinked self.now.shelf.now self.now.submission.now self.now.bound self.now.numbers.items self.now.nodes.items }
        requires known { AreKnown self.now.shelf.now self.now.submission.now self.now.numbers.items elements.now }
        ensures shapes { IfOk result (λ parts. parts.shapes.items ≡ shape_places 0 elements.now) }
        ensures children { IfOk result (λ parts. AreChildren self.now.submission.now (flats self.now.shelf.now) self.now.nodes.items 0 elements.now parts.children.items) }
        ensures below { IfOk result (λ parts. AreSizesHere self.now.shelf.now self.now.submission.now elements.now parts.below.items) }
    {
        let mut shapes = Vec::new(alloc);
        let mut children = Vec::new(alloc);
        let mut below = Vec::new(alloc);
        for element in 0..elements.len() {
            let Element::Reference(reference) = &elements[element] else {
                shapes.push(element)?;
                continue;
            };
            let link = self.link(&reference.get().name);
            below.push(link.size)?;
            if link.size.count > 0 {
                let target = link.target;
                children.push(Child { element, target })?;
            }
        }
        Ok(Parts {
            shapes,
            children,
            below,
        })
    }

    /// Adds the node of a structure. The nodes of all structures that it places must exist.
    fn add(&mut self, alloc: Global, place: usize) -> Result<(), HierFault>
        requires linked { AreLinked self.old.shelf.now self.old.submission.now self.old.bound self.old.numbers.items self.old.nodes.items }
        requires place { IsPlace self.old.submission.now.library place }
        requires ready { IsReady self.old.shelf.now self.old.submission.now self.old.numbers.items place }
        requires few { length self.old.nodes.items < length self.old.submission.now.library }
        ensures linked { OnOk result (AreLinked self.old.shelf.now self.old.submission.now self.new.bound self.new.numbers.items self.new.nodes.items) }
        ensures same { OnOk result ((self.new.shelf.now ≡ self.old.shelf.now) × (self.new.submission.now ≡ self.old.submission.now)) }
        ensures one { OnOk result (IsOneMore place self.old.nodes.items self.new.nodes.items) }
        ensures numbers { OnOk result (self.new.numbers.items ≡ slice_set self.old.numbers.items place (Some (length self.old.nodes.items))) }
        ensures far { result ≡ Err HierFault.Extent → IsFarHere self.old.shelf.now self.old.submission.now place }
        ensures faults { IfErr result IsOfNodes }
    {
        let submission = self.submission;
        let structure = &submission.library.structures()[place];
        let parts = self.parts(alloc, structure.elements.as_slice())?;
        let Some(size) = size_of(structure, &parts.below) else {
            return Err(HierFault::Extent);
        };
        let number = self.nodes.len();
        self.nodes.push(parts.into_node(place, size))?;
        self.numbers[place] = Some(number);
        Ok(())
    }

    /// The nodes.
    fn into_nodes(self) -> Vec<Node>
        ensures { result ≡ self.entry.nodes }
    {
        let Hierarchy {
            shelf: _,
            submission: _,
            bound,
            numbers,
            nodes,
        } = self;
        drop(bound);
        drop(numbers);
        nodes
    }
}

/// Adds the nodes of these places in order, up to the top's.
fn nodes_upto(
    alloc: Global,
    hierarchy: Hierarchy,
    order: &[usize],
    top: usize,
) -> Result<Vec<Node>, HierFault>
    requires linked { AreLinked hierarchy.shelf.now hierarchy.submission.now hierarchy.bound hierarchy.numbers.items hierarchy.nodes.items }
    requires none { hierarchy.nodes.items ≡ [] }
    requires bound { IsBound hierarchy.shelf.now hierarchy.submission.now }
    requires top { place_of hierarchy.submission.now.library hierarchy.submission.now.top ≡ Some top }
    requires order { IsFromBelow (graph_of hierarchy.submission.now.library) top order.now }
    ensures ok { IfOk result (λ nodes. IsHierarchy hierarchy.entry.shelf.now hierarchy.entry.submission.now nodes.items) }
    ensures far { result ≡ Err HierFault.Extent → IsFar hierarchy.entry.shelf.now hierarchy.entry.submission.now }
    ensures faults { IfErr result IsOfNodes }
{
    let mut made = hierarchy;
    for place in order {
        made.add(alloc, *place)?;
        if *place == top {
            return Ok(made.into_nodes());
        }
    }
    Err(HierFault::NoTop)
}

/// The nodes of a submission's structures, from the lowest up to the top.
///
/// Cost: linear in the library, with a search for each name.
///
/// # Errors
/// `Extent` if a structure exceeds 2^30 nm in its own coordinates; or out of memory.
pub fn nodes_of(
    alloc: Global,
    shelf: &Table,
    submission: &Submission,
    outline: &Outline,
) -> Result<Vec<Node>, HierFault>
    requires library { IsLibrary submission.now.library }
    requires outline { IsOutline submission.now.library submission.now.top outline.now }
    requires bound { IsBound shelf.now submission.now }
    ensures ok { IfOk result (λ nodes. IsHierarchy shelf.now submission.now nodes.items) }
    ensures far { result ≡ Err HierFault.Extent → IsFar shelf.now submission.now }
    ensures faults { IfErr result IsOfNodes }
{
    let hierarchy = Hierarchy::new(alloc, shelf, submission)?;
    nodes_upto(alloc, hierarchy, &outline.order, outline.place)
}
