//! The cells that a marker touches, in alphabetical order.
//!
//! A marker stores the numbers of the submissions that it touches. Each submission has a rank: the index of its cell among the cells in
//! alphabetical order. The cells are visited in blocks of 64. One pass over the touched submissions marks the cells of a block, so no
//! memory is taken. A marker costs the number of cells, and one pass over its touched submissions for each block.
ghost use Rattle.std.specs.Prelude.{◌≡◌, ◌<◌, ◌^◌, ◌+◌, ◌||◌, ◌∷◌, [], ℕ, List, false, slice_get, slice_index_or, IfOk, IfSome, IfNone};
ghost use Rattle.mpw_geom.specs.Names.{by_name};
ghost use Rattle.mpw_roles.specs.Hierarchy.{Name as NameValue};
ghost use Rattle.mpw_replies.specs.Ranks.{AreMarks, IsMarked, is_at, is_met_at, met_left, met_of};
ghost use Rattle.mpw_replies.specs.Internal.Ranks.{AreRanks, IsRank};

use mpw_geom::Name;
use mpw_hier::Submission;
use std::alloc::{AllocError, Global};
use std::marker::Model;

/// How many cells are marked at once.
const BLOCK: usize = 64;

/// The state of the visit: the next index, and the marks of the block that begins at a base.
#[derive(Drop)]
struct Turn {
    at: usize,
    base: usize,
    marks: [bool; BLOCK],
}

/// The cells that a marker touches. Contracts see the list of those that are left: in alphabetical order, each once. It takes no memory.
#[derive(Drop)]
pub struct MetCells<'a> {
    cells: &'a [Name],
    ranks: &'a [usize],
    met: &'a [u32],
    turn: Turn,
}

impl<'a> Model for MetCells<'a> {
    ghost use Rattle.std.specs.Prelude.{List};
    ghost use Rattle.mpw_roles.specs.Hierarchy.{Name};
    ghost use Rattle.mpw_replies.specs.Ranks.{IsMarked, met_left};

    ghost Value = { List Name };

    ghost view = { λ c. met_left c.cells.now c.ranks.now c.met.now c.turn };

    ghost invariant = { λ c. IsMarked c.ranks.now c.met.now c.turn };
}

impl<'a> MetCells<'a> {
    /// The cells of the touched submissions. One pass over their numbers.
    pub(crate) fn new(cells: &'a [Name], ranks: &'a [usize], met: &'a [u32]) -> MetCells<'a>
        ensures { result ≡ met_of cells.now ranks.now met.now }
    {
        let turn = Turn {
            at: 0,
            base: 0,
            marks: marks_from(ranks, met, 0),
        };
        MetCells {
            cells,
            ranks,
            met,
            turn,
        }
    }

    /// The next cell, or none after the last. It takes no memory. Cost: one pass over the touched submissions for each 64 cells.
    pub fn next(&mut self) -> Option<&'a Name>
        ensures some { IfSome result (λ cell. self.old ≡ cell.now ∷ self.new) }
        ensures none { IfNone result (self.old ≡ []) }
    {
        next_met(&mut self.turn, self.cells, self.ranks, self.met)
    }
}

/// The next touched cell of a turn.
fn next_met<'a>(
    turn: &mut Turn,
    cells: &'a [Name],
    ranks: &[usize],
    met: &[u32],
) -> Option<&'a Name>
    requires { IsMarked ranks.now met.now turn.old }
    ensures marked { IsMarked ranks.now met.now turn.new }
    ensures some { IfSome result (λ cell. met_left cells.now ranks.now met.now turn.old ≡ cell.now ∷ met_left cells.now ranks.now met.now turn.new) }
    ensures none { IfNone result (met_left cells.now ranks.now met.now turn.old ≡ []) }
{
    while turn.at < cells.len() {
        let place = turn.at;
        if goes_over(turn, ranks, met) {
            return Some(&cells[place]);
        }
    }
    None
}

/// Whether the cell at the turn's index is touched. The turn moves on to the next index.
fn goes_over(turn: &mut Turn, ranks: &[usize], met: &[u32]) -> bool
    requires marked { IsMarked ranks.now met.now turn.old }
    requires room { turn.old.at + 1 < 2 ^ 64 }
    ensures met { result ≡ is_met_at ranks.now met.now turn.old.at }
    ensures next { turn.new.at ≡ turn.old.at + 1 }
    ensures marked { IsMarked ranks.now met.now turn.new }
{
    if turn.at - turn.base >= BLOCK {
        turn.base = turn.at;
        turn.marks = marks_from(ranks, met, turn.base);
    }
    let place = turn.at - turn.base;
    turn.at += 1;
    turn.marks[place]
}

/// Which of the 64 cells from the base on are touched: one of their submissions is. One pass over the touched submissions.
fn marks_from(ranks: &[usize], met: &[u32], base: usize) -> [bool; BLOCK]
    ensures { AreMarks ranks.now met.now base result }
{
    let mut marks = [false; BLOCK];
    for number in met {
        mark(&mut marks, base, rank_at(ranks, *number));
    }
    marks
}

/// Marks a rank if it is one of the 64 indexes from the base on.
fn mark(marks: &mut [bool; BLOCK], base: usize, rank: Option<usize>)
    ensures { (i : ℕ) → i < 64 → slice_index_or marks.new i false ≡ (slice_index_or marks.old i false || is_at (base + i) rank) }
{
    let Some(rank) = rank else {
        return;
    };
    if rank < base {
        return;
    }
    let place = rank - base;
    if place >= BLOCK {
        return;
    }
    marks[place] = true;
}

/// The rank of the submission with this number.
fn rank_at(ranks: &[usize], number: u32) -> Option<usize>
    ensures { result ≡ slice_get ranks.now number }
{
    ranks.get(number as usize).copied()
}

/// For each submission the index of its cell among the cells: a binary search each.
///
/// # Errors
/// Out of memory.
pub(crate) fn ranks_of(
    alloc: Global,
    cells: &[Name],
    submissions: &[Submission],
) -> Result<Vec<usize>, AllocError>
    requires { (names : List NameValue) × (cells.now ≡ by_name names) }
    ensures { IfOk result (λ ranks. AreRanks cells.now submissions.now ranks.items) }
{
    let mut ranks = Vec::with_capacity(alloc, submissions.len())?;
    for submission in submissions {
        ranks.push(rank_of(cells, &submission.cell))?;
    }
    Ok(ranks)
}

/// The index of a name among sorted names, or their number if it isn't among them.
fn rank_of(cells: &[Name], name: &Name) -> usize
    requires { (names : List NameValue) × (cells.now ≡ by_name names) }
    ensures { IsRank cells.now name.now result }
{
    match cells.binary_search(name) {
        Ok(rank) => rank,
        Err(_) => cells.len(),
    }
}
