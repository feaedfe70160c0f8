//! The work of a layout by its position along an axis: an estimate.
//!
//! The extent is divided into bins of equal width. For each bin the work that begins in it and that ends in it is summed, from the top down. An instance
//! that is narrow is counted at once. A column has the work that has begun before its end and hasn't ended before its beginning.

use crate::array::{Array, Instances};
use crate::line::{Line, Reach};
use crate::tree::Tree;
use mpw_edges::Axis;
use mpw_geom::Box2;
use mpw_hier::Node;
use std::alloc::{AllocError, Global};

/// How many bins there are.
const BINS: u64 = 1 << 14;

/// An instance that is at most this many bins wider than one bin is counted at once. That is about a hundredth of the layout.
const FEW_BINS: usize = 128;

/// The most levels that are visited.
const MOST_LEVELS: u32 = 64;

/// The work that begins and ends in each bin. At the end the numbers are cumulative.
#[derive(Drop)]
pub(crate) struct Bins {
    low: i64,
    width: u64,
    begun: Vec<u64>,
    ended: Vec<u64>,
}

/// The nodes of a layout, and the work of each.
#[derive(Clone, Copy)]
pub(crate) struct Works<'a> {
    pub(crate) tree: Tree<'a>,
    pub(crate) each: &'a [u64],
}

impl Works<'_> {
    /// How often a placed node counts: once, if equal ones are checked once.
    fn times(self, placed: Instances) -> u64 {
        if self.tree.is_placed { 1 } else { placed.times }
    }

    /// The work of a placed node with all that it places.
    fn of(self, placed: Instances) -> u64 {
        let work = self.each.get(placed.place).copied().unwrap_or(0);
        work.saturating_mul(self.times(placed))
    }

    /// The interval of a placed node. `None` if it has no shapes.
    fn reach(self, placed: Instances) -> Option<Reach> {
        let extent = self.tree.nodes.get(placed.place)?.size.extent?;
        Some(placed.line.reach_of_box(&extent))
    }
}

/// Adds to the number of a bin, if there is such a bin.
fn add_in(numbers: &mut Vec<u64>, bin: usize, more: u64) {
    if bin < numbers.len() {
        numbers[bin] = numbers[bin].saturating_add(more);
    }
}

/// Replaces each number by the sum of all numbers up to it.
fn add_up(numbers: &mut Vec<u64>) {
    let mut sum = 0u64;
    for k in 0..numbers.len() {
        sum = sum.saturating_add(numbers[k]);
        numbers[k] = sum;
    }
}

impl Bins {
    /// Bins over the extent of a layout from one position to another, without work.
    fn new(alloc: Global, low: i64, high: i64) -> Result<Bins, AllocError> {
        Ok(Bins {
            low,
            width: low.abs_diff(high).saturating_add(1),
            begun: vec![in alloc; 0; BINS as usize]?,
            ended: vec![in alloc; 0; BINS as usize]?,
        })
    }

    /// The bin of a position; the first or the last one for a position outside of all.
    fn bin_of(&self, at: i64) -> usize {
        if at <= self.low {
            return 0;
        }
        let bin = at
            .abs_diff(self.low)
            .saturating_mul(BINS)
            .checked_div(self.width)
            .unwrap_or(0);
        bin.min(BINS - 1) as usize
    }

    /// Adds the work of something with this interval.
    fn add(&mut self, reach: Reach, work: u64) {
        let begin = self.bin_of(reach.low);
        let end = self.bin_of(reach.high);
        add_in(&mut self.begun, begin, work);
        add_in(&mut self.ended, end, work);
    }

    /// Whether something with this interval is at most [`FEW_BINS`] wider than one bin.
    fn is_narrow(&self, reach: Reach) -> bool {
        self.bin_of(reach.low).abs_diff(self.bin_of(reach.high)) <= FEW_BINS
    }

    /// Adds the shapes of a placed node itself.
    fn add_shapes(&mut self, works: Works<'_>, node: &Node, placed: Instances) {
        let elements = works.tree.elements(node);
        for index in 0..node.shapes.len() {
            if let Some(element) = elements.get(node.shapes.at(index)) {
                if works.tree.is_looked_at(element) {
                    if let Some(reach) = placed.line.reach_of_shape(element) {
                        self.add(reach, works.times(placed));
                    }
                }
            }
        }
    }

    /// Adds the work of the instances of an array at once, if they are narrow and equal ones are checked once. Returns whether it did.
    fn add_at_once(&mut self, works: Works<'_>, array: Array) -> bool {
        if !works.tree.is_placed {
            return false;
        }
        let Some(first) = works.reach(array.first) else {
            return true;
        };
        if !self.is_narrow(first) {
            return false;
        }
        self.add(array.whole(first), works.of(array.first));
        true
    }

    /// Adds the work of a placed node, at most `depth` levels down.
    fn add_node(&mut self, works: Works<'_>, placed: Instances, depth: u32) {
        let (Some(node), Some(reach)) = (works.tree.nodes.get(placed.place), works.reach(placed))
        else {
            return;
        };
        if depth == 0 || self.is_narrow(reach) {
            return self.add(reach, works.of(placed));
        }
        self.add_shapes(works, node, placed);
        let elements = works.tree.elements(node);
        for child in node.children.iter() {
            if let Some((reference, place)) = works.tree.placed_by(elements, child) {
                let array = Array::of(reference, place, placed);
                let count = if self.add_at_once(works, array) {
                    0
                } else {
                    array.count()
                };
                for number in 0..count {
                    self.add_node(works, array.at(number), depth - 1);
                }
            }
        }
    }

    /// The work of a layout along an axis, whose top is the last node. `seen` is its extent, seen along the axis. Cost: a step for each instance that is
    /// wider than [`FEW_BINS`] or is in one that is, and a step for each shape of these. The only error is out of memory.
    pub(crate) fn of(
        alloc: Global,
        works: Works<'_>,
        axis: Axis,
        seen: &Box2,
    ) -> Result<Bins, AllocError> {
        let mut bins = Bins::new(alloc, seen.x0, seen.x1)?;
        let top = Instances {
            place: works.tree.nodes.len().saturating_sub(1),
            line: Line::of_top(axis),
            times: 1,
        };
        bins.add_node(works, top, MOST_LEVELS);
        add_up(&mut bins.begun);
        add_up(&mut bins.ended);
        Ok(bins)
    }

    /// An estimate of the work from a position to before another one. Constant time.
    pub(crate) fn work(&self, from: i64, to: i64) -> u64 {
        let begun = self.begun.get(self.bin_of(to)).copied().unwrap_or(0);
        let ended = match self.bin_of(from).checked_sub(1) {
            Some(last) => self.ended.get(last).copied().unwrap_or(0),
            None => 0,
        };
        begun.saturating_sub(ended)
    }
}
