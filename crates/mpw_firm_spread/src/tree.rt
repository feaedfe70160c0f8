//! The structures of a layout, each with the work that one instance of it is by itself.

use mpw_columns_cuts::is_placed;
use mpw_deck::{Check, Rule};
use mpw_geom::Layer;
use mpw_hier::{Child, Node, Target};
use mpw_structures::{Element, Reference, Structure};
use mpw_tiles::Snapshot;
use std::alloc::{AllocError, Global};

/// A layout's structures and nodes, the rules of its deck, and whether equal instances of an array are checked once.
#[derive(Clone, Copy)]
pub(crate) struct Tree<'a> {
    pub(crate) structures: &'a [Structure],
    pub(crate) nodes: &'a [Node],
    pub(crate) rules: &'a [Rule],
    pub(crate) is_placed: bool,
}

/// Whether a check looks at a layer.
fn looks_at(check: Check, layer: Layer) -> bool {
    match check {
        Check::Width(own) => own == layer,
        Check::Space(own) => own == layer,
        Check::Separation(first, second) => first == layer || second == layer,
        Check::Enclosing(outer, inner) => outer == layer || inner == layer,
    }
}

/// How many instances a reference has.
pub(crate) fn count_of(reference: &Reference) -> u64 {
    u64::from(reference.columns).saturating_mul(u64::from(reference.rows))
}

impl<'a> Tree<'a> {
    /// The tree of the first submission of a layout. `None` if there is none.
    pub(crate) fn of(snapshot: &'a Snapshot) -> Option<Tree<'a>> {
        let shelf = snapshot.shelf();
        Some(Tree {
            structures: shelf.get(0)?.library.structures(),
            nodes: shelf.nodes(0)?,
            rules: snapshot.deck().rules().as_slice(),
            is_placed: is_placed(snapshot),
        })
    }

    /// Whether a rule looks at a layer.
    fn has_rule_on(self, layer: Layer) -> bool {
        for rule in self.rules {
            if looks_at(rule.check, layer) {
                return true;
            }
        }
        false
    }

    /// Whether an element is a shape at which a rule looks.
    pub(crate) fn is_looked_at(self, element: &Element) -> bool {
        match element {
            Element::Boundary(boundary) => self.has_rule_on(boundary.layer),
            Element::Path(path) => self.has_rule_on(path.get().layer),
            Element::Reference(_) => false,
        }
    }

    /// The elements of a node's structure.
    pub(crate) fn elements(self, node: &Node) -> &'a [Element] {
        match self.structures.get(node.structure) {
            Some(structure) => structure.elements.as_slice(),
            None => &[],
        }
    }

    /// What a child of a node with these elements places, if it is a node of the same library: the reference, and that node's index.
    pub(crate) fn placed_by(
        self,
        elements: &'a [Element],
        child: &Child,
    ) -> Option<(&'a Reference, usize)> {
        match (elements.get(child.element)?, child.target) {
            (Element::Reference(reference), Target::Own(place)) => Some((reference.get(), place)),
            _ => None,
        }
    }

    /// How many shapes of a node itself have a rule.
    fn own_work(self, node: &Node) -> u64 {
        let elements = self.elements(node);
        let mut work = 0u64;
        for index in 0..node.shapes.len() {
            match elements.get(node.shapes.at(index)) {
                Some(element) if self.is_looked_at(element) => work = work.saturating_add(1),
                _ => {}
            }
        }
        work
    }

    /// The work of a node: its own shapes with a rule, and the work of what it places. That of an array counts once if equal instances are
    /// checked once. The works are those of the nodes before it.
    fn work(self, node: &Node, works: &[u64]) -> u64 {
        let elements = self.elements(node);
        let mut work = self.own_work(node);
        for child in node.children.iter() {
            if let Some((reference, place)) = self.placed_by(elements, child) {
                let one = works.get(place).copied().unwrap_or(0);
                let times = if self.is_placed {
                    1
                } else {
                    count_of(reference)
                };
                work = work.saturating_add(one.saturating_mul(times));
            }
        }
        work
    }

    /// The work of each node. Cost: one pass over the elements of the structures.
    pub(crate) fn works(self, alloc: Global) -> Result<Vec<u64>, AllocError> {
        let mut works = Vec::with_capacity(alloc, self.nodes.len())?;
        for node in self.nodes {
            let work = self.work(node, works.as_slice());
            works.push(work)?;
        }
        Ok(works)
    }
}
