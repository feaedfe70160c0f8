//! The path of a walk: the structures that it has entered, from a root down.
//!
//! A turn gives the next shape of the last frame, or enters its next instance, which becomes the last
//! frame. A frame is removed after its last turn, and what misses the window is skipped; these are no
//! turns. Each structure has fewer levels than the one that places it, so there are never more frames than
//! levels.

ghost use Rattle.std.specs.Prelude.{◌≡◌, ◌≤◌, ◌<◌, ◌+◌, ◌^◌, [], ◌∷◌, ◌++◌, length, slice_get, Some, IfSome, IfNone};
ghost use Rattle.mpw_walk.specs.Internal.Frames.{IsNext, ShowsName};
ghost use Rattle.mpw_walk.specs.Turns.{given, behind_first};
ghost use Rattle.mpw_walk.specs.Way.{IsWay, IsPlaceable, left, item_of};
ghost use Rattle.mpw_walk.specs.Internal.Way.{Does};
ghost use Rattle.mpw_walk.specs.declared.way.Step.TheVariants as steps;

use crate::frame::{Frame, instance};
use crate::frames::Frames;
use crate::laws::names_are_walked;
use crate::root::{Placed, Root};
use crate::window::{is_given, is_in};
use mpw_geom::Box2;
use mpw_hier::{Shelf, Target};
use mpw_structures::Reference;

/// The result of a step.
#[derive(Clone, Copy)]
pub enum Step<'a> {
    /// It continued, and gave no item.
    On,
    /// The next item.
    Given(Placed<'a>),
    /// There are no more items.
    Ended,
}

/// The structures that a walk has entered.
pub struct Way<'a> {
    /// The shelf that has the roots' submissions.
    pub shelf: &'a Shelf,
    /// All roots, in the order in which they are walked.
    pub roots: &'a [Root],
    /// The window of the walk, if there is one.
    pub window: Option<Box2>,
    /// The next root.
    pub root: usize,
    /// Each structure is placed by the one before, the first one by a root.
    pub frames: Frames<'a>,
    /// The turns so far.
    pub turns: u64,
}

impl<'a> Drop for Way<'a> {
    fn drop(self) {
        let Way {
            shelf: _,
            roots: _,
            window: _,
            root: _,
            frames,
            turns: _,
        } = self;
        drop(frames);
    }
}

impl<'a> Way<'a> {
    /// Enters the next instance of a frame that was the last.
    fn enter(&mut self, frame: &Frame<'a>, target: Target, reference: &Reference)
        requires way { IsWay self.old (self.old.frames.items ++ frame.now ∷ []) }
        requires next { IsNext frame.now target reference.now }
        requires shapes { length frame.now.node.now.shapes ≤ frame.now.shape }
        ensures way { IsWay self.new self.new.frames.items }
        ensures does { Does steps.On self.old (self.old.frames.items ++ frame.now ∷ []) self.new }
    {
        names_are_walked();
        let entered = frame.target(self.shelf, target, reference);
        let placing = instance(reference, frame.row, frame.column).then(frame.placing);
        let extent = entered.node.size.extent;
        if !is_in(self.window, placing, extent) {
            let next = frame.behind_missed(reference, self.window, placing, extent);
            self.frames.push(next);
            return;
        }
        self.frames.push(frame.behind_instance(reference));
        self.frames.push(Frame { placing, ..entered });
        self.turns += 1;
    }

    /// Takes the next shape of a frame that was the last.
    fn give(&mut self, frame: &Frame<'a>) -> Step<'a>
        requires way { IsWay self.old (self.old.frames.items ++ frame.now ∷ []) }
        requires shape { frame.now.shape < length frame.now.node.now.shapes }
        requires next { frame.now.shape + 1 < 2 ^ 64 }
        ensures way { IsWay self.new self.new.frames.items }
        ensures does { Does result self.old (self.old.frames.items ++ frame.now ∷ []) self.new }
    {
        names_are_walked();
        let placed = frame.placed_element();
        let next = Frame {
            shape: frame.shape + 1,
            ..*frame
        };
        self.frames.push(next);
        if !is_given(self.window, &placed) {
            return Step::On;
        }
        self.turns += 1;
        Step::Given(placed)
    }

    /// The next turn of a frame that was the last. `None` after its last turn.
    fn go_on(&mut self, frame: &Frame<'a>) -> Step<'a>
        requires { IsWay self.old (self.old.frames.items ++ frame.now ∷ []) }
        ensures way { IsWay self.new self.new.frames.items }
        ensures does { Does result self.old (self.old.frames.items ++ frame.now ∷ []) self.new }
    {
        names_are_walked();
        if frame.shape < frame.node.shapes.len() {
            return self.give(frame);
        }
        if let Some((target, reference)) = frame.reference() {
            self.enter(frame, target, reference);
        }
        Step::On
    }

    /// Enters the next root, which has some shape, by its top.
    fn enter_root(&mut self, root: &Root, top: Frame<'a>)
        requires way { IsWay self.old [] }
        requires empty { self.old.frames.items ≡ [] }
        requires next { slice_get self.old.roots.now self.old.root ≡ Some root.now }
        requires shows { ShowsName self.old.shelf.now root.now.submission (λ s. s.top) top }
        requires low { top.node.now.size.height ≤ 64 }
        requires some { 0 < top.node.now.size.count }
        ensures way { IsWay self.new self.new.frames.items }
        ensures does { Does steps.On self.old [] self.new }
    {
        names_are_walked();
        let placing = root.placing;
        self.root += 1;
        if !is_in(self.window, placing, top.node.size.extent) {
            return;
        }
        self.frames.push(Frame { placing, ..top });
        self.turns += 1;
    }

    /// Enters the next root, if it has any shapes.
    fn begin(&mut self) -> Step<'a>
        requires way { IsWay self.old [] }
        requires empty { self.old.frames.items ≡ [] }
        ensures way { IsWay self.new self.new.frames.items }
        ensures does { Does result self.old [] self.new }
    {
        names_are_walked();
        let Some(root) = self.roots.get(self.root) else {
            return Step::Ended;
        };
        let top = Frame::top(self.shelf, root.submission);
        if top.node.size.count > 0 {
            self.enter_root(root, top);
            return Step::On;
        }
        self.root += 1;
        Step::On
    }

    /// One step.
    fn step(&mut self) -> Step<'a>
        requires { IsWay self.old self.old.frames.items }
        ensures way { IsWay self.new self.new.frames.items }
        ensures does { Does result self.old self.old.frames.items self.new }
    {
        match self.frames.pop() {
            Some(frame) => self.go_on(&frame),
            None => self.begin(),
        }
    }

    /// Continues to the next shape and gives it. `None` after the last.
    pub fn next(&mut self) -> Option<Placed<'a>>
        requires { IsWay self.old self.old.frames.items }
        ensures way { IsWay self.new self.new.frames.items }
        ensures some { IfSome result (λ placed. given (left self.old) ≡ item_of placed ∷ given (left self.new)) }
        ensures placeable { IfSome result IsPlaceable }
        ensures none { IfNone result (given (left self.old) ≡ []) }
        ensures left { left self.new ≡ behind_first (left self.old) }
        ensures turns { self.new.turns + length (left self.new) ≡ self.old.turns + length (left self.old) }
    {
        loop {
            match self.step() {
                Step::On => {}
                Step::Given(placed) => return Some(placed),
                Step::Ended => return None,
            }
        }
    }
}
