//! Finds for each column an earlier one that it repeats.
//!
//! The contents of blocks that repeat no earlier one are held by a hash code, as long as there is room. A block is compared only with the latest one of
//! the same code.

ghost use Rattle.std.specs.Prelude.{◌≡◌, ◌<◌, ◌≤◌, ◌+◌, ◌^◌, ◌∷◌, ◌++◌, [], length, All, IfOk, IfSome, OnOk};
ghost use Rattle.mpw_walk.specs.Roots.{root_at_origin};
ghost use Rattle.mpw_columns.specs.Internal.Blocks.{IsUprightIn, AreUprightIn};
ghost use Rattle.mpw_columns.specs.Internal.Checked.{IsLayout};
ghost use Rattle.mpw_columns.specs.Internal.Like.{places_from, AreLikes, AreContentsOf, AreAlike, IsKept, IsTold, MayAdd};

use crate::block::{Block, Columns};
use crate::equal::{contents_of, is_first_alone};
use crate::layout::Layout;
use mpw_columns_contents::{Contents, code};
use mpw_columns_cuts::lattices_of;
use mpw_columns_keys::Column;
use mpw_edges::Axis;
use std::alloc::{AllocError, Global};
use std::collections::BTreeMap;

/// The most entries (shapes and arrays) of all contents that are held.
const MOST_KEPT: usize = 1 << 20;

/// The most columns, times the shapes and references of all structures, each counted once. If there are more, no contents are made.
const MOST_LOOKED_AT: u64 = 1 << 22;

/// How often blocks are cut in two at most.
const MAX_DEPTH: u32 = 64;

/// A block, and its contents.
#[derive(Drop)]
pub(crate) struct Kept {
    block: Block,
    contents: Contents,
}

/// Which earlier columns the first columns repeat; the contents of their blocks, with the index of the latest one for each code; and the number of
/// entries in all.
#[derive(Drop)]
pub(crate) struct Earlier {
    likes: Vec<Option<usize>>,
    kept: Vec<Kept>,
    latest: BTreeMap<u64, usize>,
    things: usize,
}

/// A hash code of a block and its contents. It is the same for a displaced block with displaced contents.
fn mark(block: &Block, contents: &Contents) -> u64 {
    let width = block.whole.from.abs_diff(block.whole.to);
    code(contents).wrapping_add(width.wrapping_mul(0x9E37_79B9_7F4A_7C15))
}

impl Earlier {
    /// No columns so far.
    fn new(alloc: Global) -> Earlier
        ensures likes { result.likes.items ≡ [] }
        ensures kept { result.kept.items ≡ [] }
    {
        Earlier {
            likes: Vec::new(alloc),
            kept: Vec::new(alloc),
            latest: BTreeMap::new(alloc),
            things: 0,
        }
    }

    /// The index of the latest block whose contents have the code of these, if the block with these contents repeats it.
    fn like(&self, all: &Columns<'_>, block: &Block, contents: &Contents) -> Option<usize>
        requires upright { AreUprightIn all.now.layout.now all.now.list.now }
        requires kept { All (IsKept all.now.layout.now) self.now.kept.items }
        requires block { IsUprightIn all.now.layout.now block.now.whole }
        requires within { block.now.place + block.now.count ≤ length all.now.list.now }
        requires contents { AreContentsOf all.now.layout.now block.now.whole contents.now }
        ensures { IfSome result (λ earlier. AreAlike all.now.layout.now all.now.list.now earlier block.now.place block.now.count) }
    {
        let at = *self.latest.get(&mark(block, contents))?;
        if at >= self.kept.len() {
            return None;
        }
        let kept = &self.kept[at];
        if all.are_like(&kept.block, &kept.contents, block, contents) {
            Some(kept.block.place)
        } else {
            None
        }
    }

    /// Holds the contents of a block if there is room. The only error is out of memory.
    fn keep(&mut self, block: &Block, contents: Contents) -> Result<(), AllocError>
        ensures kept { OnOk result (MayAdd (record { block = block.now; contents = contents }) self.old.kept.items self.new.kept.items) }
        ensures likes { OnOk result (self.new.likes.items ≡ self.old.likes.items) }
    {
        let things = self.things.saturating_add(contents.things().len());
        if things > MOST_KEPT {
            return Ok(());
        }
        self.things = things;
        self.latest.insert(mark(block, &contents), self.kept.len())?;
        self.kept.push(Kept {
            block: *block,
            contents,
        })?;
        Ok(())
    }

    /// The index of an earlier block that the next `count` columns repeat. If there is none, their contents are held. The only error is out of
    /// memory.
    fn look(
        &mut self,
        alloc: Global,
        all: &Columns<'_>,
        count: usize,
    ) -> Result<Option<usize>, AllocError>
        requires layout { IsLayout all.now.layout.now }
        requires upright { AreUprightIn all.now.layout.now all.now.list.now }
        requires alone { all.now.layout.now.snapshot.now.roots ≡ root_at_origin 0 ∷ [] }
        requires some { 0 < count }
        requires within { length self.now.likes.items + count ≤ length all.now.list.now }
        requires kept { All (IsKept all.now.layout.now) self.now.kept.items }
        ensures like { IfOk result (λ o. IfSome o (λ earlier. AreAlike all.now.layout.now all.now.list.now earlier (length self.old.likes.items) count)) }
        ensures kept { OnOk result (All (IsKept all.now.layout.now) self.new.kept.items) }
        ensures likes { OnOk result (self.new.likes.items ≡ self.old.likes.items) }
    {
        let Some(block) = all.block(self.likes.len(), count) else {
            return Ok(None);
        };
        let Some(contents) = contents_of(alloc, all.layout, &block.whole)? else {
            return Ok(None);
        };
        match self.like(all, &block, &contents) {
            Some(earlier) => Ok(Some(earlier)),
            None => {
                self.keep(&block, contents)?;
                Ok(None)
            }
        }
    }

    /// Decides the next `count` columns one by one. The only error is out of memory.
    fn add_each(&mut self, alloc: Global, all: &Columns<'_>, count: usize) -> Result<(), AllocError>
        requires layout { IsLayout all.now.layout.now }
        requires upright { AreUprightIn all.now.layout.now all.now.list.now }
        requires alone { all.now.layout.now.snapshot.now.roots ≡ root_at_origin 0 ∷ [] }
        requires within { length self.now.likes.items + count ≤ length all.now.list.now }
        requires told { IsTold all.now.layout.now all.now.list.now (length self.now.likes.items) self.now }
        ensures { OnOk result (IsTold all.now.layout.now all.now.list.now (length self.old.likes.items + count) self.new) }
    {
        for _ in 0..count {
            let like = self.look(alloc, all, 1)?;
            self.likes.push(like)?;
        }
        Ok(())
    }

    /// Records that the next `count` columns repeat those from index `earlier` on. The only error is out of memory.
    fn add_like(&mut self, earlier: usize, count: usize) -> Result<(), AllocError>
        requires { earlier + count < 2 ^ 64 }
        ensures likes { OnOk result (self.new.likes.items ≡ self.old.likes.items ++ places_from earlier count) }
        ensures kept { OnOk result (self.new.kept.items ≡ self.old.kept.items) }
    {
        for k in 0..count {
            self.likes.push(Some(earlier + k))?;
        }
        Ok(())
    }

    /// Decides the next `count` columns: all at once if they repeat earlier ones, or else in two parts, which are cut in the same way at most `depth` times.
    /// The only error is out of memory.
    fn add(
        &mut self,
        alloc: Global,
        all: &Columns<'_>,
        count: usize,
        depth: u32,
    ) -> Result<(), AllocError>
        requires layout { IsLayout all.now.layout.now }
        requires upright { AreUprightIn all.now.layout.now all.now.list.now }
        requires alone { all.now.layout.now.snapshot.now.roots ≡ root_at_origin 0 ∷ [] }
        requires within { length self.now.likes.items + count ≤ length all.now.list.now }
        requires told { IsTold all.now.layout.now all.now.list.now (length self.now.likes.items) self.now }
        ensures { OnOk result (IsTold all.now.layout.now all.now.list.now (length self.old.likes.items + count) self.new) }
    {
        let place = self.likes.len();
        if count < 2 || depth == 0 || !all.may_repeat(place, count) {
            return self.add_each(alloc, all, count);
        }
        match self.look(alloc, all, count)? {
            Some(earlier) => self.add_like(earlier, count),
            None => {
                let part = all.part(place, count);
                self.add(alloc, all, part, depth - 1)?;
                self.add(alloc, all, count - part, depth - 1)
            }
        }
    }
}

/// `None` for each column.
fn none_of(
    alloc: Global,
    layout: &Layout<'_>,
    columns: &[Column],
) -> Result<Vec<Option<usize>>, AllocError>
    ensures { IfOk result (λ v. AreLikes layout.now columns.now v.items) }
{
    let mut likes = Vec::with_capacity(alloc, columns.len())?;
    for _ in columns {
        likes.push(None)?;
    }
    Ok(likes)
}

/// For each column the index of an earlier one that it repeats, as far as one has the same contents, displaced.
fn likes_of(
    alloc: Global,
    layout: &Layout<'_>,
    columns: &[Column],
) -> Result<Vec<Option<usize>>, AllocError>
    requires layout { IsLayout layout.now }
    requires upright { AreUprightIn layout.now columns.now }
    requires alone { layout.now.snapshot.now.roots ≡ root_at_origin 0 ∷ [] }
    ensures { IfOk result (λ v. AreLikes layout.now columns.now v.items) }
{
    let vertical = lattices_of(alloc, layout.snapshot, Axis::V)?;
    let horizontal = lattices_of(alloc, layout.snapshot, Axis::H)?;
    let all = Columns {
        layout,
        list: columns,
        vertical: vertical.as_slice(),
        horizontal: horizontal.as_slice(),
    };
    let mut earlier = Earlier::new(alloc);
    earlier.add(alloc, &all, columns.len(), MAX_DEPTH)?;
    Ok(earlier.likes)
}

/// Whether contents are made for a layout of `columns` columns. If structures have many shapes of their own, contents would cost more than they save.
fn are_few(layout: &Layout<'_>, columns: usize) -> bool {
    let Some(nodes) = layout.snapshot.shelf().nodes(0) else {
        return false;
    };
    let mut drawn = 0u64;
    for node in nodes {
        let own = (node.shapes.len() as u64).saturating_add(node.children.len() as u64);
        drawn = drawn.saturating_add(own);
    }
    drawn.saturating_mul(columns as u64) <= MOST_LOOKED_AT
}

/// For each column the index of an earlier one that it repeats, or `None`. Cost: what [`contents_of`] takes for each column, and a comparison with at
/// most one earlier column. The only error is out of memory.
pub(crate) fn equal_to_earlier(
    alloc: Global,
    layout: &Layout<'_>,
    columns: &[Column],
) -> Result<Vec<Option<usize>>, AllocError>
    requires layout { IsLayout layout.now }
    requires upright { AreUprightIn layout.now columns.now }
    ensures { IfOk result (λ v. AreLikes layout.now columns.now v.items) }
{
    if are_few(layout, columns.len()) && is_first_alone(layout.snapshot) {
        return likes_of(alloc, layout, columns);
    }
    none_of(alloc, layout, columns)
}
