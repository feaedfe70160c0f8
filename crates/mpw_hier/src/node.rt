//! The hierarchy of a submission: the structures that its top reaches, each after those that it places.

use crate::places::Places;
use crate::size::Size;
use mpw_lists::SharedList;

/// What a reference places.
#[derive(Clone, Copy, PartialEq, Eq)]
pub enum Target {
    /// A node of the same submission, by number. It comes before the node that places it.
    Own(usize),
    /// The top of an earlier submission, by number.
    Outer(u32),
}

/// A reference to a target with at least one flat shape.
#[derive(Clone, Copy)]
pub struct Child {
    /// The index of the reference among the structure's elements.
    pub element: usize,
    /// What the reference places. It has at least one flat shape.
    pub target: Target,
}

/// A structure that the top of a submission reaches.
pub struct Node {
    /// The index of the structure in the library.
    pub structure: usize,
    /// The indices of its own shapes among its elements, in file order.
    pub shapes: Places,
    /// Its references to targets with flat shapes, in file order.
    pub children: Vec<Child>,
    /// The size of the structure with everything that it places.
    pub size: Size,
}

impl Drop for Node {
    fn drop(self) {
        let Node {
            structure: _,
            shapes,
            children,
            size: _,
        } = self;
        drop(shapes);
        drop(children);
    }
}

/// The nodes of a submission, each after those that it places. The top is last. Contracts see them as a list.
/// Copies share memory.
pub type Nodes = SharedList<Node>;
