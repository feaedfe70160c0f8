//! Solved cores and the content of their windows. A core with the same content elsewhere takes their pieces, displaced.

ghost use Rattle.std.specs.Prelude.{◌≡◌, [], map, All, IfOk, IfSome, IsTrue, OnOk};
ghost use Rattle.mpw_columns.specs.Internal.Checked.{IsLayout};
ghost use Rattle.mpw_columns.specs.Internal.Pieces.{AreLayoutPieces, AreThingsIn, IsMovedCore, IsSolved, IsSum, moved_key, seen_way};

use crate::things::Task;
use mpw_columns_contents::{Contents, Thing, code, displacement};
use mpw_edges::{Axis, Piece};
use mpw_geom::{Box2, Point};
use mpw_markers::Key;
use std::alloc::{AllocError, Global};
use std::collections::BTreeMap;

/// The most entries (shapes and arrays) of a core that is held.
const FEW_THINGS: usize = 8;

/// The most pieces of a core that is held.
const MOST_KEYS: usize = 1 << 16;

/// The most entries and pieces of all cores that are held.
const MOST_KEPT: usize = 1 << 20;

/// A solved core: the content of its window, and its pieces.
#[derive(Drop)]
pub(crate) struct Solved {
    core: Box2,
    things: Contents,
    keys: Vec<Key>,
}

/// Solved cores, with the index of the latest one for each code, and how many entries and pieces they have.
#[derive(Drop)]
pub(crate) struct Kept {
    solved: Vec<Solved>,
    latest: BTreeMap<u64, usize>,
    size: usize,
}

/// Whether a core with these entries is looked up and held: they are few, and one of them is an array.
fn are_few(things: &[Thing]) -> bool {
    if things.len() > FEW_THINGS {
        return false;
    }
    for thing in things {
        if let Thing::Array(_) = thing {
            return true;
        }
    }
    false
}

/// The position of an entry.
fn place_of(thing: &Thing) -> Point {
    match thing {
        Thing::Shape(shape) => shape.placing.by,
        Thing::Array(array) => array.first.by,
    }
}

/// A hash code with one more number.
fn mixed(code: u64, number: u64) -> u64 {
    (code ^ (code >> 29))
        .wrapping_mul(0x9E37_79B9_7F4A_7C15)
        .wrapping_add(number)
}

/// A hash code of a core and its entries. It is the same for the core displaced.
fn mark(axis: Axis, core: &Box2, things: &Contents) -> u64 {
    let mut from = Point { x: 0, y: 0 };
    if let Some(first) = things.things().first() {
        from = seen_way(axis, place_of(first));
    }
    let code = mixed(code(things), core.x0.abs_diff(core.x1));
    let code = mixed(code, core.y0.abs_diff(core.y1));
    let code = mixed(code, core.x0.abs_diff(from.x));
    mixed(code, core.y0.abs_diff(from.y))
}

/// A displacement, seen along an axis.
fn seen_way(axis: Axis, way: Point) -> Point
    ensures { result ≡ seen_way axis way }
{
    match axis {
        Axis::V => way,
        Axis::H => Point { x: way.y, y: way.x },
    }
}

/// Whether the sum of two numbers is a third one.
fn is_sum(a: i64, b: i64, sum: i64) -> bool
    ensures { IsTrue result → IsSum a b sum }
{
    match a.checked_add(b) {
        Some(found) => found == sum,
        None => false,
    }
}

/// Whether a box is another one, displaced.
fn is_moved_box(b: &Box2, way: Point, other: &Box2) -> bool
    ensures { IsTrue result → IsMovedCore way b.now other.now }
{
    if !is_sum(b.x0, way.x, other.x0) || !is_sum(b.x1, way.x, other.x1) {
        return false;
    }
    is_sum(b.y0, way.y, other.y0) && is_sum(b.y1, way.y, other.y1)
}

/// A key, displaced. `None` if 64 bits are too few.
fn moved_key(key: &Key, way: Point) -> Option<Key>
    ensures { IfSome result (λ k. k ≡ moved_key way key.now) }
{
    let piece = Piece {
        x1: key.piece.x1.checked_add(way.x)?,
        x2: key.piece.x2.checked_add(way.x)?,
        y0: key.piece.y0.checked_add(way.y)?,
        y1: key.piece.y1.checked_add(way.y)?,
        ..key.piece
    };
    Some(Key { piece, ..*key })
}

/// Keys, each displaced. `None` if 64 bits are too few. The only error is out of memory.
fn moved_keys(alloc: Global, keys: &[Key], way: Point) -> Result<Option<Vec<Key>>, AllocError>
    ensures { IfOk result (λ o. IfSome o (λ v. v.items ≡ map (moved_key way) keys.now)) }
{
    let mut moved = Vec::with_capacity(alloc, keys.len())?;
    for key in keys {
        match moved_key(key, way) {
            Some(key) => moved.push(key)?,
            None => return Ok(None),
        }
    }
    Ok(Some(moved))
}

/// A copy of keys.
fn copied(alloc: Global, keys: &[Key]) -> Result<Vec<Key>, AllocError>
    ensures { IfOk result (λ v. v.items ≡ keys.now) }
{
    let mut copy = Vec::new(alloc);
    copy.extend_from_slice(keys)?;
    Ok(copy)
}

impl Solved {
    /// The pieces of a core with these entries, if it is this one, displaced. The only error is out of memory.
    fn keys_of(
        &self,
        alloc: Global,
        task: &Task<'_>,
        core: &Box2,
        things: &Contents,
    ) -> Result<Option<Vec<Key>>, AllocError>
        requires layout { IsLayout task.now.layout.now }
        requires things { AreThingsIn task.now.layout.now task.now.axis core.now things.now }
        requires solved { IsSolved task.now.layout.now task.now.axis self.now }
        ensures { IfOk result (λ o. IfSome o (λ v. AreLayoutPieces task.now.layout.now task.now.axis core.now v.items)) }
    {
        let Some(way) = displacement(&self.things, things) else {
            return Ok(None);
        };
        let way = seen_way(task.axis, way);
        if !is_moved_box(&self.core, way, core) {
            return Ok(None);
        }
        moved_keys(alloc, self.keys.as_slice(), way)
    }
}

impl Kept {
    /// No cores so far.
    pub(crate) fn new(alloc: Global) -> Kept
        ensures { result.solved.items ≡ [] }
    {
        Kept {
            solved: Vec::new(alloc),
            latest: BTreeMap::new(alloc),
            size: 0,
        }
    }

    /// The pieces of a core with these entries, if it is a held one, displaced. Cost: linear in the entries and the pieces. The only error is out of memory.
    pub(crate) fn keys_of(
        &self,
        alloc: Global,
        task: &Task<'_>,
        core: &Box2,
        things: &Contents,
    ) -> Result<Option<Vec<Key>>, AllocError>
        requires layout { IsLayout task.now.layout.now }
        requires things { AreThingsIn task.now.layout.now task.now.axis core.now things.now }
        requires solved { All (IsSolved task.now.layout.now task.now.axis) self.now.solved.items }
        ensures { IfOk result (λ o. IfSome o (λ v. AreLayoutPieces task.now.layout.now task.now.axis core.now v.items)) }
    {
        if !are_few(things.things()) {
            return Ok(None);
        }
        match self.latest.get(&mark(task.axis, core, things)) {
            Some(place) if *place < self.solved.len() => {
                self.solved[*place].keys_of(alloc, task, core, things)
            }
            _ => Ok(None),
        }
    }

    /// Holds a core with its entries and its pieces, if these are few and there is room. The only error is out of memory.
    pub(crate) fn keep(
        &mut self,
        alloc: Global,
        task: &Task<'_>,
        core: &Box2,
        things: &Contents,
        keys: &[Key],
    ) -> Result<(), AllocError>
        requires layout { IsLayout task.now.layout.now }
        requires things { AreThingsIn task.now.layout.now task.now.axis core.now things.now }
        requires pieces { AreLayoutPieces task.now.layout.now task.now.axis core.now keys.now }
        requires solved { All (IsSolved task.now.layout.now task.now.axis) self.now.solved.items }
        ensures { OnOk result (All (IsSolved task.now.layout.now task.now.axis) self.new.solved.items) }
    {
        let size = self
            .size
            .saturating_add(keys.len())
            .saturating_add(FEW_THINGS);
        if !are_few(things.things()) || keys.len() > MOST_KEYS || size > MOST_KEPT {
            return Ok(());
        }
        let solved = Solved {
            core: *core,
            things: things.copy(alloc)?,
            keys: copied(alloc, keys)?,
        };
        self.size = size;
        self.latest
            .insert(mark(task.axis, core, things), self.solved.len())?;
        self.solved.push(solved)?;
        Ok(())
    }
}
