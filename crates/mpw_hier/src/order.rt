//! A depth-first search of a graph from its top.
//!
//! The search stores its path in a vector, so no chain is too long for the stack. Each step reduces `left` or the path. So the number of
//! steps is at most the number of places and targets together, plus twice the number of places.

ghost use Rattle.std.specs.Prelude.{◌≡◌, ◌<◌, ◌+◌, [], length, map, Ok, IfOk, IfSome, IfNone, OnOk};
ghost use Rattle.mpw_hier.specs.Graph.{IsFromBelow};
ghost use Rattle.mpw_hier.specs.Internal.Graph.{IsGraph, HasCycle};
ghost use Rattle.mpw_hier.specs.declared.order.Step.TheVariants as kinds;

use crate::graph::Graph;
use std::alloc::{AllocError, Global};

/// The state of a search.
pub struct Descent {
    /// The place where the search began.
    pub top: usize,
    /// The number of steps that are left at each place: one for each target, one to leave it, and one more before it
    /// is entered.
    pub left: Vec<usize>,
    /// The path from the top to the current place.
    pub path: Vec<usize>,
    /// The places that are done, in order.
    pub order: Vec<usize>,
}

impl Drop for Descent {
    fn drop(self) {
        let Descent {
            top: _,
            left,
            path,
            order,
        } = self;
        drop(left);
        drop(path);
        drop(order);
    }
}

/// The result of a step.
#[derive(Clone, Copy, PartialEq, Eq)]
pub enum Step {
    /// The search continued: it entered a target, skipped one that is done, or left a place.
    On,
    /// The path is empty: all places that the top reaches are in order.
    Done,
    /// A target is already on the path.
    Cycle,
}

/// The number of steps of each place.
fn all_steps(alloc: Global, graph: &Graph) -> Result<Vec<usize>, AllocError>
    ensures { IfOk result (λ left. left.items ≡ map (λ places. length places + 2) graph.now) }
{
    let mut left = Vec::new(alloc);
    for place in 0..graph.len() {
        left.push(graph.count(place) + 2)?;
    }
    Ok(left)
}

impl Descent {
    ghost use Rattle.mpw_hier.specs.Internal.Descent.{IsUnderWay, work};

    /// The search at its start.
    fn new(alloc: Global, graph: &Graph, top: usize) -> Result<Descent, AllocError>
        requires { top < length graph.now }
        ensures under_way { IfOk result (IsUnderWay graph.now) }
        ensures top { IfOk result (λ descent. descent.top ≡ top) }
    {
        let mut left = all_steps(alloc, graph)?;
        left[top] = graph.count(top) + 1;
        let mut path = Vec::new(alloc);
        path.push(top)?;
        let order = Vec::new(alloc);
        Ok(Descent {
            top,
            left,
            path,
            order,
        })
    }

    /// One step: to the next target of the last place on the path, or out of that place after its last target.
    fn step(&mut self, graph: &Graph) -> Result<Step, AllocError>
        requires graph { IsGraph graph.now }
        requires under_way { IsUnderWay graph.now self.old }
        ensures under_way { OnOk result (IsUnderWay graph.now self.new) }
        ensures top { self.new.top ≡ self.old.top }
        ensures less { result ≡ Ok kinds.On → work self.new < work self.old }
        ensures done { result ≡ Ok kinds.Done → self.new.path.items ≡ [] }
        ensures cycle { result ≡ Ok kinds.Cycle → HasCycle graph.now self.old.top }
    {
        if self.path.is_empty() {
            return Ok(Step::Done);
        }
        let place = self.path[self.path.len() - 1];
        let steps = self.left[place];
        if steps <= 1 {
            self.order.push(place)?;
            self.left[place] = 0;
            self.path.truncate(self.path.len() - 1);
            return Ok(Step::On);
        }
        let target = graph.target(place, steps - 2);
        let entered = graph.count(target) + 1;
        if self.left[target] == 0 {
            self.left[place] = steps - 1;
            return Ok(Step::On);
        }
        if self.left[target] <= entered {
            return Ok(Step::Cycle);
        }
        self.path.push(target)?;
        self.left[target] = entered;
        Ok(Step::On)
    }

    /// The places that are done, in order.
    fn into_order(self) -> Vec<usize>
        ensures { result ≡ self.order }
    {
        let Descent {
            top: _,
            left,
            path,
            order,
        } = self;
        drop(left);
        drop(path);
        order
    }
}

/// The places that the top reaches, each after all of its targets. `None` if there is a cycle.
///
/// Cost: linear in the places and their targets.
///
/// # Errors
/// Out of memory.
pub fn order_from_below(
    alloc: Global,
    graph: &Graph,
    top: usize,
) -> Result<Option<Vec<usize>>, AllocError>
    requires graph { IsGraph graph.now }
    requires top { top < length graph.now }
    ensures order { IfOk result (λ found. IfSome found (λ order. IsFromBelow graph.now top order.items)) }
    ensures cycle { IfOk result (λ found. IfNone found (HasCycle graph.now top)) }
{
    let mut descent = Descent::new(alloc, graph, top)?;
    loop {
        match descent.step(graph)? {
            Step::On => {}
            Step::Done => return Ok(Some(descent.into_order())),
            Step::Cycle => return Ok(None),
        }
    }
}
