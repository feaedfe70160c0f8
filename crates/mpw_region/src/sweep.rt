//! A sweep of boxes from below. At each row it has the list of the boxes that have the row.
//!
//! The boxes are sorted once by their lowest rows. A step goes up to a row, removes the boxes that end at
//! it or below, adds those that begin, and sorts the list from left to right. The part that the list had
//! before is sorted already, so the sort finds it as one run. A step costs the boxes that it removes,
//! leaves and adds, and a sort of those that it adds.

ghost use Rattle.std.specs.Prelude.{
  ◌≡◌,
  ◌≤◌,
  ◌≤ℤ◌,
  ◌<ℤ◌,
  int_lt,
  [],
  IfOk,
  OnOk,
  All,
  AllPairs,
  Contains,
  MatchOption,
  ◌↔◌,
  filter,
  length,
  take,
  drop,
};
ghost use Rattle.std.specs.List.Sorted.{IsPermutation};
ghost use Rattle.mpw_geom.specs.declared.plane.Box2.{Box2 as BoxValue};
ghost use Rattle.mpw_geom.specs.Plane.{HasArea};
ghost use Rattle.mpw_region.specs.Internal.Sweep.{HasRow, HoldsJust, BeginsBelow, BeginsLeft, IsLeastEnd, IsSweep};
ghost use Rattle.mpw_region.specs.Internal.Swept.{HasNoBorderWithin};

use mpw_geom::Box2;
use std::alloc::{AllocError, Global};

/// A sweep: its row, the boxes that have it, all boxes from below, and how many of these it has reached.
#[derive(Drop)]
pub struct Sweep {
    row: i64,
    active: Vec<Box2>,
    boxes: Vec<Box2>,
    next: usize,
}

/// Sorts the boxes by their lowest rows.
fn sort_from_below(boxes: &mut Vec<Box2>)
    ensures moved { IsPermutation boxes.old.items boxes.new.items }
    ensures ordered { AllPairs BeginsBelow boxes.new.items }
{
    boxes.sort_unstable_by_key(|b| b.y0);
}

/// Sorts the boxes by their first columns.
fn sort_from_left(boxes: &mut Vec<Box2>) -> Result<(), AllocError>
    ensures moved { IsPermutation boxes.old.items boxes.new.items }
    ensures ordered { OnOk result (AllPairs BeginsLeft boxes.new.items) }
{
    boxes.sort_by_key(|b| b.x0)
}

/// Removes the boxes that end at the row or below it.
fn drop_ended(active: &mut Vec<Box2>, row: i64)
    ensures { active.new.items ≡ filter (λ b. int_lt row b.y1) active.old.items }
{
    active.retain(
        |b: &Box2| -> bool
            ensures { result ≡ int_lt row b.now.y1 }
        { row < b.y1 },
    );
}

/// Adds the boxes from index `next` on that begin at the row or below it and end above it. Returns
/// the index of the first that begins above.
fn take_in(
    active: &mut Vec<Box2>,
    boxes: &[Box2],
    next: usize,
    row: i64,
) -> Result<usize, AllocError>
    requires within { next ≤ length boxes.now }
    requires ordered { AllPairs BeginsBelow boxes.now }
    requires begun { All (λ b. b.y0 ≤ℤ row) (take next boxes.now) }
    requires active { HoldsJust (take next boxes.now) (λ b. row <ℤ b.y1) active.old.items }
    ensures within { IfOk result (λ n. n ≤ length boxes.now) }
    ensures begun { IfOk result (λ n. All (λ b. b.y0 ≤ℤ row) (take n boxes.now)) }
    ensures ahead { IfOk result (λ n. All (λ b. row <ℤ b.y0) (drop n boxes.now)) }
    ensures active { IfOk result (λ n.
        HoldsJust (take n boxes.now) (λ b. row <ℤ b.y1) active.new.items) }
    ensures exact { OnOk result (HoldsJust boxes.now (λ b. HasRow b row) active.new.items) }
{
    for n in next..boxes.len() {
        let b = &boxes[n];
        if row < b.y0 {
            return Ok(n);
        }
        if row < b.y1 {
            active.push(*b)?;
        }
    }
    Ok(boxes.len())
}

/// The least of the row and the rows at which the boxes end.
fn least_end(boxes: &[Box2], row: i64) -> i64
    ensures { IsLeastEnd boxes.now row result }
{
    let mut least = row;
    for b in boxes {
        least = least.min(b.y1);
    }
    least
}

impl Sweep {
    /// A sweep of the boxes at its start, with an empty list. Cost: a sort of the boxes.
    ///
    /// # Errors
    /// Out of memory.
    pub fn new(alloc: Global, boxes: Vec<Box2>) -> Result<Sweep, AllocError>
        ensures sweep { IfOk result IsSweep }
        ensures boxes { IfOk result (λ s. IsPermutation boxes.items s.boxes.items) }
        ensures row { IfOk result (λ s. s.row ≡ i64.MIN) }
    {
        let mut boxes = boxes;
        sort_from_below(&mut boxes);
        Ok(Sweep {
            row: i64::MIN,
            active: Vec::new(alloc),
            boxes,
            next: 0,
        })
    }

    /// Goes up to the row. Its list then contains exactly the boxes that have the row, from the left.
    ///
    /// # Errors
    /// Out of memory. The sweep is then unusable.
    pub fn step(&mut self, row: i64) -> Result<(), AllocError>
        requires sweep { IsSweep self.old }
        requires upwards { self.old.row ≤ℤ row }
        ensures sweep { OnOk result (IsSweep self.new) }
        ensures row { OnOk result (self.new.row ≡ row) }
        ensures boxes { self.new.boxes ≡ self.old.boxes }
        ensures ahead { OnOk result (All (λ b. row <ℤ b.y0) (drop self.new.next self.old.boxes.items)) }
        ensures exact { OnOk result
            (HoldsJust self.old.boxes.items (λ b. HasRow b row) self.new.active.items) }
        ensures ordered { OnOk result (AllPairs BeginsLeft self.new.active.items) }
    {
        drop_ended(&mut self.active, row);
        let next = take_in(&mut self.active, self.boxes.as_slice(), self.next, row)?;
        sort_from_left(&mut self.active)?;
        self.next = next;
        self.row = row;
        Ok(())
    }

    /// The row of the last step.
    pub(crate) fn row(&self) -> i64
        ensures { result ≡ self.now.row }
    {
        self.row
    }

    /// A row from which on boxes begin: the lowest of their rows, if there are any.
    pub(crate) fn lowest(&self) -> i64
        requires { IsSweep self.now }
        ensures row { i64.MIN ≤ℤ result }
        ensures least { All (λ b. result ≤ℤ b.y0) self.now.boxes.items }
    {
        match self.boxes.as_slice() {
            [] => self.row,
            [first, ..] => first.y0,
        }
    }

    /// The next row at which a box begins or ends. `None` if all have ended. One pass over the boxes that have the row of the
    /// last step.
    pub(crate) fn next_border(&self) -> Option<i64>
        requires sweep { IsSweep self.now }
        requires ahead { All (λ b. self.now.row <ℤ b.y0) (drop self.now.next self.now.boxes.items) }
        requires filled { All HasArea self.now.boxes.items }
        ensures { MatchOption result (All (λ b. b.y1 ≤ℤ self.now.row) self.now.boxes.items)
            (λ next. (self.now.row <ℤ next)
            × All (HasNoBorderWithin (record { y0 = self.now.row; y1 = next })) self.now.boxes.items) }
    {
        let active = self.active.as_slice();
        if self.next < self.boxes.len() {
            return Some(least_end(active, self.boxes[self.next].y0));
        }
        match active {
            [] => None,
            [first, ..] => Some(least_end(active, first.y1)),
        }
    }

    /// The boxes that have the row of the last step.
    pub fn active(&self) -> &[Box2]
        ensures { result.now ≡ self.now.active.items }
    {
        self.active.as_slice()
    }
}
