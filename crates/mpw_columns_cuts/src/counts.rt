//! Estimates how many flat shapes a column's window has. The estimates decide where columns are cut, and nothing else.
//!
//! The extent is divided into bins of equal width. For each bin the number of shapes that begin in it and that end in it is counted, from the top
//! down. A placed structure that is narrow is counted at once with all its shapes, and instances at the same position along the axis are counted
//! together. A column's window has the shapes that have begun before its end and haven't ended before its beginning.

use crate::line::{Instances, Line, Reach, array_of, reach_of_box, shape_reach};
use mpw_edges::Axis;
use mpw_geom::Box2;
use mpw_hier::Node;
use mpw_structures::{Element, Structure};
use mpw_tiles::Snapshot;
use std::alloc::{AllocError, Global};

/// How many bins there are.
const BINS: u64 = 1 << 14;

/// What is at most this many bins wider than one bin is counted at once with all its shapes. That is about a hundredth of the layout.
const FEW_BINS: usize = 128;

/// The most levels that are visited.
const MOST_LEVELS: u32 = 64;

/// Where the bins begin, their width together, and how many shapes begin and end in each. At the end the numbers are cumulative.
#[derive(Drop)]
pub struct Counts {
    low: i64,
    width: u64,
    begun: Vec<u64>,
    ended: Vec<u64>,
}

/// The structures of a library, and its nodes.
#[derive(Clone, Copy)]
struct Tree<'a> {
    structures: &'a [Structure],
    nodes: &'a [Node],
}

/// Replaces each number by the sum of all numbers up to it.
fn add_up(numbers: &mut Vec<u64>) {
    let mut sum = 0u64;
    for k in 0..numbers.len() {
        sum = sum.saturating_add(numbers[k]);
        numbers[k] = sum;
    }
}

/// The sum of the first `count` numbers, given the cumulative ones.
fn sum_of(sums: &[u64], count: usize) -> u64 {
    match count.min(sums.len()).checked_sub(1) {
        Some(last) => sums.get(last).copied().unwrap_or(0),
        None => 0,
    }
}

/// Adds to the count of a bin, if there is such a bin.
fn count_in(numbers: &mut Vec<u64>, bin: usize, more: u64) {
    if bin < numbers.len() {
        numbers[bin] = numbers[bin].saturating_add(more);
    }
}

impl Counts {
    /// The bin of a position; the last one for a position after all of them.
    fn bin_of(&self, at: i64) -> usize {
        if at <= self.low {
            return 0;
        }
        let bin = at
            .abs_diff(self.low)
            .saturating_mul(BINS)
            .checked_div(self.width)
            .unwrap_or(0);
        bin.min(BINS - 1) as usize
    }

    /// Counts `times` shapes with this reach.
    fn add(&mut self, reach: Reach, times: u64) {
        let begin = self.bin_of(reach.low);
        let end = self.bin_of(reach.high);
        count_in(&mut self.begun, begin, times);
        count_in(&mut self.ended, end, times);
    }

    /// Whether something with this reach is at most [`FEW_BINS`] wider than one bin.
    fn is_narrow(&self, reach: Reach) -> bool {
        self.bin_of(reach.low).abs_diff(self.bin_of(reach.high)) <= FEW_BINS
    }

    /// Counts the shapes of a placed node, at most `depth` levels down.
    fn add_node(&mut self, tree: Tree<'_>, placed: Instances, depth: u32) {
        let Some(node) = tree.nodes.get(placed.node) else {
            return;
        };
        let (Some(extent), Some(structure)) = (
            node.size.extent,
            tree.structures.get(node.structure),
        ) else {
            return;
        };
        let reach = reach_of_box(placed.line, &extent);
        if depth == 0 || self.is_narrow(reach) {
            return self.add(reach, placed.times.saturating_mul(node.size.count));
        }
        let elements = structure.elements.as_slice();
        for index in 0..node.shapes.len() {
            self.add_shape(elements, node.shapes.at(index), placed);
        }
        for child in node.children.iter() {
            if let Some(array) = array_of(elements, child.element, child.target, placed) {
                for number in 0..array.count() {
                    self.add_node(tree, array.at(number), depth - 1);
                }
            }
        }
    }

    /// Counts a shape of a placed structure.
    fn add_shape(&mut self, elements: &[Element], place: usize, placed: Instances) {
        if let Some(element) = elements.get(place) {
            if let Some(reach) = shape_reach(placed.line, element) {
                self.add(reach, placed.times);
            }
        }
    }

    /// Counts the shapes of the top of the first submission, placed at the origin.
    fn add_top(&mut self, snapshot: &Snapshot, axis: Axis) {
        let shelf = snapshot.shelf();
        if let (Some(nodes), Some(submission)) = (shelf.nodes(0), shelf.get(0)) {
            let line = Line {
                axis,
                is_back: false,
                from: 0,
            };
            let tree = Tree {
                structures: submission.library.structures(),
                nodes,
            };
            let node = nodes.len().saturating_sub(1);
            let times = 1;
            self.add_node(tree, Instances { node, line, times }, MOST_LEVELS);
        }
    }

    /// The counts of a layout of one submission, placed where it was drawn. `seen` is its extent along the axis. Cost: a step for each
    /// instance that is wider than [`FEW_BINS`], or is in one that is, where instances at the same position along the axis are one; and a
    /// step for each shape of these.
    pub fn of(
        alloc: Global,
        snapshot: &Snapshot,
        axis: Axis,
        seen: &Box2,
    ) -> Result<Counts, AllocError> {
        let mut counts = Counts {
            low: seen.x0,
            width: seen.x0.abs_diff(seen.x1).saturating_add(1),
            begun: vec![in alloc; 0; BINS as usize]?,
            ended: vec![in alloc; 0; BINS as usize]?,
        };
        counts.add_top(snapshot, axis);
        add_up(&mut counts.begun);
        add_up(&mut counts.ended);
        Ok(counts)
    }

    /// An estimate of how many shapes touch the positions from `from` to before `to`. Constant time.
    pub fn shown(&self, from: i64, to: i64) -> u64 {
        let begun = sum_of(&self.begun, self.bin_of(to).saturating_add(1));
        let ended = sum_of(&self.ended, self.bin_of(from));
        begun.saturating_sub(ended)
    }
}
