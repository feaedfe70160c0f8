//! Takes a sample of many entries, by which lines are compared.

use crate::cutting::Cut;
use crate::room::{Room, span_of};
use crate::view::View;
use mpw_columns_contents::Thing;
use mpw_geom::Box2;
use std::alloc::{AllocError, Global};

/// The approximate size of a sample.
const TAKEN: usize = 64;

/// Takes about 64 of many: the first, and then one at equal distances. Below 128 it takes all.
#[derive(Clone, Copy)]
pub(crate) struct Share {
    /// How many are left out after one that is taken.
    between: usize,
    /// How many are still left out before the next.
    left: usize,
}

impl Share {
    /// For `count` entries.
    pub fn of(count: usize) -> Share {
        Share {
            between: (count / TAKEN).saturating_sub(1),
            left: 0,
        }
    }

    /// Whether the next is taken.
    pub fn takes(&mut self) -> bool {
        let is_taken = self.left == 0;
        self.left = if is_taken {
            self.between
        } else {
            self.left.saturating_sub(1)
        };
        is_taken
    }
}

/// The boxes of some entries.
#[derive(Drop)]
pub(crate) struct Sample {
    boxes: Vec<Box2>,
}

impl Sample {
    /// An empty sample, with room for as many as are taken of `count`.
    fn empty(alloc: Global, count: usize) -> Result<Sample, AllocError> {
        Ok(Sample {
            boxes: Vec::with_capacity(alloc, count.min(TAKEN.saturating_mul(2)))?,
        })
    }

    /// Adds the box of an entry, if it has one.
    fn add(&mut self, room: Option<Room>) -> Result<(), AllocError> {
        if let Some(room) = room {
            self.boxes.push(room.whole())?;
        }
        Ok(())
    }

    /// A sample of the entries in a core's window. The only error is out of memory.
    pub fn of_things(
        alloc: Global,
        view: &View<'_>,
        things: &[Thing],
    ) -> Result<Sample, AllocError> {
        let mut sample = Sample::empty(alloc, things.len())?;
        let mut share = Share::of(things.len());
        for thing in things {
            if share.takes() {
                sample.add(view.room(thing))?;
            }
        }
        Ok(sample)
    }

    /// A sample of the arrays among them, of which there are `count`. The only error is out of memory.
    pub fn of_instances(
        alloc: Global,
        view: &View<'_>,
        things: &[Thing],
        instances: usize,
    ) -> Result<Sample, AllocError> {
        let mut sample = Sample::empty(alloc, instances)?;
        let mut share = Share::of(instances);
        for thing in things {
            if matches!(thing, Thing::Array(_)) && share.takes() {
                sample.add(view.instance_room(thing))?;
            }
        }
        Ok(sample)
    }

    /// The boxes.
    pub fn boxes(&self) -> &[Box2] {
        &self.boxes
    }

    /// How many boxes a line crosses farther inside than `slack`.
    pub fn crossed(&self, cut: Cut, slack: i64) -> u64 {
        let mut crossed = 0u64;
        for b in &self.boxes {
            let inside = span_of(b, cut.are_rows).moved_apart(slack.saturating_neg());
            if inside.has(cut.at) {
                crossed = crossed.saturating_add(1);
            }
        }
        crossed
    }
}
