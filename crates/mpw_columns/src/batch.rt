//! What the columns of a batch share: either the entries (shapes and arrays) of their windows or one list of rectangles.
//!
//! Entries serve better if the layout places few structures often. Rectangles are shared only if one list for the whole batch saves time.

ghost use Rattle.std.specs.Prelude.{◌≡◌, ◌+◌, ◌≤◌, ◌<◌, ◌↔◌, length, Contains, IfOk, IfSome};
ghost use Rattle.mpw_markers.specs.declared.marker.Key.{Key as KeyValue};
ghost use Rattle.mpw_columns_keys.specs.Columns.{seen_box, upright};
ghost use Rattle.mpw_columns.specs.Found.{IsFound};
ghost use Rattle.mpw_columns.specs.Internal.Blocks.{IsUprightIn, AreUprightIn};
ghost use Rattle.mpw_columns.specs.Internal.Checked.{IsLayout, IsShared, IsTop, IsBatch, HasThings};
ghost use Rattle.mpw_columns.specs.Internal.Pieces.{AreThingsIn, seen_layout};
ghost use Rattle.mpw_columns.specs.declared.layout.Layout.{Layout as LayoutValue};

use crate::block::{is_part, whole_of};
use crate::cores::{core_of, keys_in};
use crate::equal::{is_first_alone, is_same_axis};
use crate::layout::Layout;
use crate::shared::{Shared, rectangles_of, shared_of};
use crate::solve::runs_in;
use crate::things::{Task, all_things, is_inside, things_in, whole_core};
use mpw_columns_contents::Contents;
use mpw_columns_cuts::is_placed;
use mpw_columns_keys::Column;
use mpw_edges::Axis;
use mpw_geom::Box2;
use mpw_markers::Key;
use std::alloc::{AllocError, Global};

/// The entries (shapes and arrays) of the whole layout. `None` if rectangles serve better.
#[derive(Drop)]
pub(crate) struct Top {
    things: Option<Contents>,
}

/// The entries in the window of a column, listed once for all columns that lie in it.
#[derive(Drop)]
pub(crate) struct Listed {
    whole: Column,
    things: Contents,
}

/// What the columns of a batch share. Both are `None` if each column takes what it needs from the entries of the whole layout.
#[derive(Drop)]
pub(crate) struct Batch {
    rectangles: Option<Shared>,
    things: Option<Listed>,
}

/// The input of a batch's columns: what they share, and the entries of the whole layout.
#[derive(Clone, Copy)]
pub(crate) struct Source<'a> {
    pub(crate) top: &'a Top,
    pub(crate) batch: &'a Batch,
}

/// The entries of the whole layout. Cost: linear in the size of the top. The only error is out of memory.
pub(crate) fn top_of(alloc: Global, layout: &Layout<'_>) -> Result<Top, AllocError>
    requires { IsLayout layout.now }
    ensures { IfOk result (IsTop layout.now) }
{
    if !is_placed(layout.snapshot) || !is_first_alone(layout.snapshot) {
        return Ok(Top { things: None });
    }
    let Some(upright) = whole_core(&task_along(layout, Axis::V)) else {
        return Ok(Top { things: None });
    };
    let Some(lying) = whole_core(&task_along(layout, Axis::H)) else {
        return Ok(Top { things: None });
    };
    let things = all_things(alloc, layout, &upright, &lying)?;
    Ok(Top { things })
}

/// The layout, seen along an axis.
fn task_along<'a>(layout: &'a Layout<'a>, axis: Axis) -> Task<'a>
    ensures layout { result.layout.now ≡ layout.now }
    ensures axis { result.axis ≡ axis }
{
    Task { layout, axis }
}

impl Top {
    /// Whether there is a list of entries.
    pub(crate) fn has_things(&self) -> bool {
        self.things.is_some()
    }

    /// The entries of the whole layout, for a core that lies in it. `None` if there is no such list.
    fn for_core(&self, task: &Task<'_>, core: &Box2) -> Option<&Contents>
        requires top { IsTop task.now.layout.now self.now }
        ensures { IfSome result (λ things. AreThingsIn task.now.layout.now task.now.axis core.now things.now) }
    {
        let Some(things) = &self.things else {
            return None;
        };
        let Some(outer) = whole_core(task) else {
            return None;
        };
        if !is_inside(core, &outer) {
            return None;
        }
        Some(things)
    }

    /// The entries in the window of the smallest column that contains all these columns. `None` if there is no such list. Cost: one pass over the
    /// entries. The only error is out of memory.
    fn listed(
        &self,
        alloc: Global,
        layout: &Layout<'_>,
        columns: &[Column],
    ) -> Result<Option<Listed>, AllocError>
        requires layout { IsLayout layout.now }
        requires upright { AreUprightIn layout.now columns.now }
        requires top { IsTop layout.now self.now }
        ensures { IfOk result (λ o. IfSome o (HasThings layout.now)) }
    {
        if columns.is_empty() {
            return Ok(None);
        }
        let Some(whole) = whole_of(layout, columns, 0, columns.len()) else {
            return Ok(None);
        };
        let task = Task {
            layout,
            axis: whole.axis,
        };
        let core = core_of(layout, &whole);
        let Some(things) = self.for_core(&task, &core) else {
            return Ok(None);
        };
        match things_in(alloc, &task, &core, things)? {
            Some(things) => Ok(Some(Listed { whole, things })),
            None => Ok(None),
        }
    }

    /// What these columns share. The only error is out of memory.
    pub(crate) fn batch(
        &self,
        alloc: Global,
        layout: &Layout<'_>,
        columns: &[Column],
    ) -> Result<Batch, AllocError>
        requires layout { IsLayout layout.now }
        requires upright { AreUprightIn layout.now columns.now }
        requires top { IsTop layout.now self.now }
        ensures { IfOk result (IsBatch layout.now) }
    {
        if let Some(listed) = self.listed(alloc, layout, columns)? {
            return Ok(Batch {
                rectangles: None,
                things: Some(listed),
            });
        }
        let rectangles = shared_of(alloc, layout, columns)?;
        Ok(Batch {
            rectangles,
            things: None,
        })
    }
}

impl Batch {
    /// Nothing is shared.
    pub(crate) fn none() -> Batch
        ensures { (l : LayoutValue) → IsBatch l result }
    {
        Batch {
            rectangles: None,
            things: None,
        }
    }
}

impl Source<'_> {
    /// Entries that have in the window of a column's core exactly what the layout has there. `None` if rectangles serve better.
    fn things_of(&self, task: &Task<'_>, core: &Box2, column: &Column) -> Option<&Contents>
        requires top { IsTop task.now.layout.now self.now.top.now }
        requires batch { IsBatch task.now.layout.now self.now.batch.now }
        requires axis { task.now.axis ≡ column.now.axis }
        requires core { core.now ≡ upright (seen_box column.now.axis task.now.layout.now.extent) column.now }
        ensures { IfSome result (λ things. AreThingsIn task.now.layout.now task.now.axis core.now things.now) }
    {
        match &self.batch.things {
            Some(listed) if is_part(column, &listed.whole) => Some(&listed.things),
            _ => self.top.for_core(task, core),
        }
    }

    /// The keys of the maximal runs in the core of a column. They are found from the entries that the batch shares, or from its shared rectangles if it
    /// has some, or else from the entries of the whole layout. The only error is out of memory.
    pub(crate) fn keys_of(
        &self,
        alloc: Global,
        layout: &Layout<'_>,
        column: &Column,
    ) -> Result<Vec<Key>, AllocError>
        requires layout { IsLayout layout.now }
        requires upright { IsUprightIn layout.now column.now }
        requires top { IsTop layout.now self.now.top.now }
        requires batch { IsBatch layout.now self.now.batch.now }
        ensures { IfOk result (λ v. (k : KeyValue) → Contains v.items k ↔ IsFound layout.now.snapshot.now.deck.rules column.now.axis
            (seen_layout layout.now column.now.axis) (upright (seen_box column.now.axis layout.now.extent) column.now) k) }
    {
        let core = core_of(layout, column);
        let task = Task {
            layout,
            axis: column.axis,
        };
        if let Some(things) = self.things_of(&task, &core, column) {
            return runs_in(alloc, &task, &core, things);
        }
        let rectangles = rectangles_of(alloc, layout, &self.batch.rectangles, column)?;
        keys_in(alloc, layout, column.axis, &core, rectangles.as_slice())
    }
}

/// How many columns, from index `from` on, have the same axis: at most `most`.
pub(crate) fn count_along(columns: &[Column], from: usize, most: usize) -> usize
    requires some { 1 ≤ most }
    requires within { from + most ≤ length columns.now }
    ensures some { 1 ≤ result }
    ensures few { result ≤ most }
{
    let axis = columns[from].axis;
    for count in 1..most {
        if !is_same_axis(columns[from + count].axis, axis) {
            return count;
        }
    }
    most
}
