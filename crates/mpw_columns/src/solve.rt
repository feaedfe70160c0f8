//! Finds the runs of a core from the entries (shapes and arrays) of its window. The core is cut along lines that the entries suggest. Cores with the same
//! content up to translation are solved once.

ghost use Rattle.std.specs.Prelude.{◌≡◌, ◌≤◌, ◌<◌, ◌↔◌, true, false, length, drop, All, Contains, IfOk, IfSome, OnOk};
ghost use Rattle.mpw_markers.specs.declared.marker.Key.{Key as KeyValue};
ghost use Rattle.mpw_columns.specs.Found.{IsFound};
ghost use Rattle.mpw_columns.specs.Internal.Checked.{IsLayout};
ghost use Rattle.mpw_columns.specs.Internal.Found.{IsUpright};
ghost use Rattle.mpw_columns.specs.Internal.Pieces.{AddsLayoutPieces, AreLayoutPieces, AreThingsIn, AreRectanglesIn, IsCut, IsCutAcross, IsCutAlong, IsSolved, seen_layout};

use crate::cores::{keys_in, rectangles_in};
use crate::kept::Kept;
use crate::things::{Task, rectangles_of_things, things_in};
use mpw_columns_contents::Contents;
use mpw_columns_cuts::{Core, Cuts, cuts_of, shown_by};
use mpw_columns_keys::joined;
use mpw_edges::test_decides_pair_steps;
use mpw_geom::Box2;
use mpw_markers::Key;
use mpw_tiles::Rectangle;
use std::alloc::{AllocError, Global};

/// How often a core is cut at most.
const MAX_DEPTH: u32 = 256;

/// How much work on cuts a flat shape is worth, in visits of an entry: about half of the work of checking it in a core without cuts.
const WORTH: u64 = 96;

/// The work of a rectangle that is listed for a small core, in visits.
const RECTANGLE: u64 = 64;

/// A core that is seen along the axis, the entries of its window, and the lines along which it is still to be cut: rows (y) or positions across them (x).
#[derive(Clone, Copy)]
struct Work<'a> {
    core: Box2,
    things: &'a Contents,
    lines: &'a [i64],
    are_rows: bool,
}

/// The two parts of a core, and the lines in each.
#[derive(Clone, Copy)]
struct Halves<'a> {
    first: Box2,
    second: Box2,
    before: &'a [i64],
    behind: &'a [i64],
}

/// The cost of choosing lines for an entry, or of listing its shapes, in visits.
const LISTED: usize = 16;

/// The cost of each core in addition to its entries, in visits.
const CORE: usize = 256;

/// The pieces that were found, the cores that were solved, and how much work may still be spent on cuts and on the cores that they leave, in visits.
#[derive(Drop)]
struct Solution {
    keys: Vec<Key>,
    kept: Kept,
    left: u64,
}

/// The parts of a core left and right of a position, if that is inside.
fn cut_across(core: &Box2, at: i64) -> Option<(Box2, Box2)>
    ensures { IfSome result (λ h. IsCutAcross core.now at h.0 h.1) }
{
    if at <= core.x0 || core.x1 <= at {
        return None;
    }
    let left = Box2 {
        x0: core.x0,
        y0: core.y0,
        x1: at,
        y1: core.y1,
    };
    let right = Box2 {
        x0: at,
        y0: core.y0,
        x1: core.x1,
        y1: core.y1,
    };
    Some((left, right))
}

/// The parts of a core below and above a row, if that is inside.
fn cut_along(core: &Box2, at: i64) -> Option<(Box2, Box2)>
    ensures { IfSome result (λ h. IsCutAlong core.now at h.0 h.1) }
{
    if at <= core.y0 || core.y1 <= at {
        return None;
    }
    let below = Box2 {
        x0: core.x0,
        y0: core.y0,
        x1: core.x1,
        y1: at,
    };
    let above = Box2 {
        x0: core.x0,
        y0: at,
        x1: core.x1,
        y1: core.y1,
    };
    Some((below, above))
}

/// The parts of a core below and above a row, or left and right of a position, if that is inside.
fn cut(core: &Box2, at: i64, is_row: bool) -> Option<(Box2, Box2)>
    ensures { IfSome result (λ h. IsCut core.now h.0 h.1) }
{
    if is_row {
        return cut_along(core, at);
    }
    cut_across(core, at)
}

impl<'a> Work<'a> {
    /// How many visits a core takes: one for each entry if lines are given, otherwise what it takes to choose them or to list the shapes.
    fn cost(&self) -> usize {
        let count = self.things.things().len();
        let each = if self.lines.is_empty() { LISTED } else { 1 };
        count.saturating_mul(each).saturating_add(CORE)
    }

    /// The parts of the core at the middle one of its lines. `None` if there is none, or if it isn't inside.
    fn halves(&self) -> Option<Halves<'a>>
        ensures { IfSome result (λ h. IsCut self.now.core h.first h.second) }
    {
        let place = self.lines.len() / 2;
        if place >= self.lines.len() {
            return None;
        }
        let at = self.lines[place];
        let (first, second) = cut(&self.core, at, self.are_rows)?;
        let (before, rest) = self.lines.split_at(place);
        let (_, behind) = rest.split_at(1);
        Some(Halves {
            first,
            second,
            before,
            behind,
        })
    }
}

/// The rectangles in the window of a core, sorted by layer: those of its entries, or of the layout if these are too many. The only error is out of
/// memory.
fn leaf_rectangles(
    alloc: Global,
    task: &Task<'_>,
    core: &Box2,
    things: &Contents,
) -> Result<Vec<Rectangle>, AllocError>
    requires layout { IsLayout task.now.layout.now }
    requires upright { IsUpright core.now }
    requires things { AreThingsIn task.now.layout.now task.now.axis core.now things.now }
    ensures { IfOk result (λ v. AreRectanglesIn task.now.layout.now task.now.axis core.now v.items) }
{
    match rectangles_of_things(alloc, task, core, things)? {
        Some(rectangles) => Ok(rectangles),
        None => rectangles_in(alloc, task.layout, task.axis, core),
    }
}

/// Adds the pieces of a core that isn't cut any more. Returns how many rectangles it had. The only error is out of memory.
fn add_leaf(
    alloc: Global,
    keys: &mut Vec<Key>,
    task: &Task<'_>,
    core: &Box2,
    things: &Contents,
) -> Result<usize, AllocError>
    requires layout { IsLayout task.now.layout.now }
    requires upright { IsUpright core.now }
    requires things { AreThingsIn task.now.layout.now task.now.axis core.now things.now }
    ensures { OnOk result (AddsLayoutPieces task.now.layout.now task.now.axis core.now keys.old.items keys.new.items) }
{
    test_decides_pair_steps();
    let rectangles = leaf_rectangles(alloc, task, core, things)?;
    let mut found = keys_in(alloc, task.layout, task.axis, core, rectangles.as_slice())?;
    keys.append(&mut found)?;
    Ok(rectangles.len())
}

/// The work of a core that isn't cut any more: a visit for each flat shape of its entries, and the check of the rectangles that are listed.
fn leaf_work(task: &Task<'_>, work: &Work<'_>, listed: usize) -> u64 {
    shown_by(task.layout.snapshot.shelf(), work.things).saturating_add(
        (listed as u64).saturating_mul(RECTANGLE),
    )
}

impl Solution {
    /// Adds the pieces of a core that isn't cut any more, and counts its work. The only error is out of memory.
    fn add_leaf(
        &mut self,
        alloc: Global,
        task: &Task<'_>,
        work: &Work<'_>,
    ) -> Result<(), AllocError>
        requires layout { IsLayout task.now.layout.now }
        requires upright { IsUpright work.now.core }
        requires things { AreThingsIn task.now.layout.now task.now.axis work.now.core work.now.things.now }
        ensures pieces { OnOk result (AddsLayoutPieces task.now.layout.now task.now.axis work.now.core self.old.keys.items self.new.keys.items) }
        ensures kept { OnOk result (self.new.kept.solved.items ≡ self.old.kept.solved.items) }
    {
        let listed = add_leaf(alloc, &mut self.keys, task, &work.core, work.things)?;
        self.left = self.left.saturating_sub(leaf_work(task, work, listed));
        Ok(())
    }

    /// Whether a core of `count` entries may be cut. Counts their visits.
    fn may_cut(&mut self, count: usize) -> bool
        ensures keys { self.new.keys.items ≡ self.old.keys.items }
        ensures kept { self.new.kept.solved.items ≡ self.old.kept.solved.items }
    {
        let cost = (count as u64).saturating_add(1);
        let is_left = cost <= self.left;
        self.left = self.left.saturating_sub(cost);
        is_left
    }

    /// Adds the pieces of a core if it is a held one, displaced. Returns whether it is.
    fn add_kept(
        &mut self,
        alloc: Global,
        task: &Task<'_>,
        work: &Work<'_>,
    ) -> Result<bool, AllocError>
        requires layout { IsLayout task.now.layout.now }
        requires things { AreThingsIn task.now.layout.now task.now.axis work.now.core work.now.things.now }
        requires solved { All (IsSolved task.now.layout.now task.now.axis) self.now.kept.solved.items }
        ensures found { IfOk result (λ b. b ≡ true → AddsLayoutPieces task.now.layout.now task.now.axis work.now.core self.old.keys.items self.new.keys.items) }
        ensures none { IfOk result (λ b. b ≡ false → self.new.keys.items ≡ self.old.keys.items) }
        ensures kept { OnOk result (All (IsSolved task.now.layout.now task.now.axis) self.new.kept.solved.items) }
    {
        match self.kept.keys_of(alloc, task, &work.core, work.things)? {
            Some(mut keys) => {
                self.keys.append(&mut keys)?;
                Ok(true)
            }
            None => Ok(false),
        }
    }

    /// Holds a core. Its pieces begin at index `from`.
    fn keep(
        &mut self,
        alloc: Global,
        task: &Task<'_>,
        work: &Work<'_>,
        from: usize,
    ) -> Result<(), AllocError>
        requires layout { IsLayout task.now.layout.now }
        requires things { AreThingsIn task.now.layout.now task.now.axis work.now.core work.now.things.now }
        requires solved { All (IsSolved task.now.layout.now task.now.axis) self.now.kept.solved.items }
        requires within { from ≤ length self.now.keys.items }
        requires pieces { AreLayoutPieces task.now.layout.now task.now.axis work.now.core (drop from self.now.keys.items) }
        ensures kept { OnOk result (All (IsSolved task.now.layout.now task.now.axis) self.new.kept.solved.items) }
        ensures keys { OnOk result (self.new.keys.items ≡ self.old.keys.items) }
    {
        let (_, keys) = self.keys.as_slice().split_at(from);
        self.kept.keep(alloc, task, &work.core, work.things, keys)
    }
}

/// The entries of a part of a core, or those of the core if the part's are too many.
fn or_all<'a>(
    part: &'a Option<Contents>,
    all: &'a Contents,
    task: &Task<'_>,
    core: &Box2,
) -> &'a Contents
    requires part { IfSome part.now (AreThingsIn task.now.layout.now task.now.axis core.now) }
    requires all { AreThingsIn task.now.layout.now task.now.axis core.now all.now }
    ensures { AreThingsIn task.now.layout.now task.now.axis core.now result.now }
{
    match part {
        Some(part) => part,
        None => all,
    }
}

/// How often a core is still cut: once less, or never if no line is suggested.
fn depth_below(depth: u32, cuts: &Cuts) -> u32
    requires { 1 ≤ depth }
    ensures { result < depth }
{
    if cuts.lines.is_empty() { 0 } else { depth - 1 }
}

/// Adds the pieces of a core, which is cut at most `depth` times: along the given lines, and after these along those that its entries
/// suggest. The only error is out of memory.
fn solve(
    alloc: Global,
    task: &Task<'_>,
    solution: &mut Solution,
    work: &Work<'_>,
    depth: u32,
) -> Result<(), AllocError>
    requires layout { IsLayout task.now.layout.now }
    requires upright { IsUpright work.now.core }
    requires things { AreThingsIn task.now.layout.now task.now.axis work.now.core work.now.things.now }
    requires solved { All (IsSolved task.now.layout.now task.now.axis) solution.now.kept.solved.items }
    ensures pieces { OnOk result (AddsLayoutPieces task.now.layout.now task.now.axis work.now.core solution.old.keys.items solution.new.keys.items) }
    ensures solved { OnOk result (All (IsSolved task.now.layout.now task.now.axis) solution.new.kept.solved.items) }
{
    if depth == 0 {
        return solution.add_leaf(alloc, task, work);
    }
    if !solution.may_cut(work.cost()) {
        return solution.add_leaf(alloc, task, work);
    }
    if let Some(halves) = work.halves() {
        let part = things_in(alloc, task, &halves.first, work.things)?;
        let first = Work {
            core: halves.first,
            things: or_all(&part, work.things, task, &halves.first),
            lines: halves.before,
            are_rows: work.are_rows,
        };
        solve(alloc, task, solution, &first, depth - 1)?;
        let part = things_in(alloc, task, &halves.second, work.things)?;
        let second = Work {
            core: halves.second,
            things: or_all(&part, work.things, task, &halves.second),
            lines: halves.behind,
            are_rows: work.are_rows,
        };
        return solve(alloc, task, solution, &second, depth - 1);
    }
    if solution.add_kept(alloc, task, work)? {
        return Ok(());
    }
    let from = solution.keys.len();
    let cuts = cuts_of(
        alloc,
        task.layout.snapshot.shelf(),
        work.things,
        &seen_core(task, work),
    )?;
    let cut = Work {
        core: work.core,
        things: work.things,
        lines: cuts.lines.as_slice(),
        are_rows: cuts.are_rows,
    };
    solve(alloc, task, solution, &cut, depth_below(depth, &cuts))?;
    solution.keep(alloc, task, work, from)
}

/// The core, and how far its window exceeds it.
fn seen_core(task: &Task<'_>, work: &Work<'_>) -> Core {
    Core {
        axis: task.axis,
        area: work.core,
        margin: i64::from(task.layout.distance) + 1,
    }
}

/// How much work may be spent on cuts of a core with these entries, and on the cores that they leave, in visits.
fn work_for(task: &Task<'_>, things: &Contents) -> u64 {
    shown_by(task.layout.snapshot.shelf(), things).saturating_mul(WORTH)
}

/// The keys of the maximal runs in a core that is seen along the axis. The entries have exactly what the layout has in its window.
///
/// A core is cut along lines that its entries suggest, until few shapes are left. A part with the content of an earlier part, displaced, takes that
/// part's pieces. Each cut is a pass over the part's entries. Cuts and what they leave take at most half of the work of the core's flat shapes. If that is
/// spent, since many instances overlap or few parts repeat, the rest is checked without more cuts. The pieces of all parts are sorted, and those that touch
/// are joined. At most 2^20 entries and pieces of solved parts are held. The only error is out of memory.
pub(crate) fn runs_in(
    alloc: Global,
    task: &Task<'_>,
    core: &Box2,
    things: &Contents,
) -> Result<Vec<Key>, AllocError>
    requires layout { IsLayout task.now.layout.now }
    requires upright { IsUpright core.now }
    requires things { AreThingsIn task.now.layout.now task.now.axis core.now things.now }
    ensures { IfOk result (λ v. (k : KeyValue) → Contains v.items k
        ↔ IsFound task.now.layout.now.snapshot.now.deck.rules task.now.axis (seen_layout task.now.layout.now task.now.axis) core.now k) }
{
    let part = things_in(alloc, task, core, things)?;
    let work = Work {
        core: *core,
        things: or_all(&part, things, task, core),
        lines: &[],
        are_rows: false,
    };
    let mut solution = Solution {
        keys: Vec::new(alloc),
        kept: Kept::new(alloc),
        left: work_for(task, work.things),
    };
    solve(alloc, task, &mut solution, &work, MAX_DEPTH)?;
    joined(alloc, solution.keys)
}
