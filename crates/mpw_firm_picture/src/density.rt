//! Draws markers as a density: how many lie in each square of a grid.
//!
//! Each marker is counted in one square, in one pass over them.
ghost use Rattle.std.specs.Prelude.{◌≡◌, ◌<◌, ◌≤◌, ◌*◌, ◌^◌, length, min, replicate, IfOk};
ghost use Rattle.mpw_firm_picture.specs.Density.{of_rule, drawn_count, most_drawn, cell_side, column_of, row_of, cell_of, cell_count, density, counts_of};

use crate::picture::Mark;
use crate::size::longer_side;
use mpw_geom::Box2;
use std::alloc::{AllocError, Global};

/// If there are more markers than this, they are drawn as a density.
const MOST_DRAWN: u128 = 20000;

/// The number of squares.
#[tactic(auto, unfolding(crate::specs::Density::cell_count))]
fn cell_count() -> usize
    ensures { result ≡ cell_count }
{
    2500
}

/// The side of a square, in nm.
#[tactic(auto, unfolding(crate::specs::Density::cell_side))]
pub(crate) fn cell_side(window: Box2) -> u64
    ensures side { result ≡ cell_side window }
    ensures some { 0 < result }
    ensures few { result < 2 ^ 60 }
{
    longer_side(window) / 50 + 1
}

/// The column of a marker, 0 to 49.
#[tactic(auto, unfolding(crate::specs::Density::column_of))]
fn column_of(window: Box2, mark: &Mark) -> u64
    ensures column { result ≡ column_of window mark.now }
    ensures few { result < 50 }
{
    (mark.area.x0.max(window.x0).abs_diff(window.x0) / cell_side(window)).min(49)
}

/// The row of a marker, 0 to 49.
#[tactic(auto, unfolding(crate::specs::Density::row_of))]
fn row_of(window: Box2, mark: &Mark) -> u64
    ensures row { result ≡ row_of window mark.now }
    ensures few { result < 50 }
{
    (mark.area.y0.max(window.y0).abs_diff(window.y0) / cell_side(window)).min(49)
}

/// The square in which a marker lies.
#[tactic(auto, unfolding(crate::specs::Density::cell_of, crate::specs::Density::cell_count))]
fn cell_of(window: Box2, mark: &Mark) -> usize
    ensures cell { result ≡ cell_of window mark.now }
    ensures few { result < cell_count }
{
    (50 * row_of(window, mark) + column_of(window, mark)) as usize
}

/// How many of the markers are of the rule at index `place` in its deck.
pub(crate) fn count_of(marks: &[Mark], place: usize) -> usize
    ensures { result ≡ length (of_rule marks.now place) }
{
    marks
        .iter()
        .filter(|mark| mark.rule as usize == place)
        .count()
}

/// How many markers of `rules` rules are drawn one by one. Cost: a pass over the markers for each rule.
fn drawn_count(limit: usize, rules: usize, marks: &[Mark]) -> u128
    ensures { result ≡ drawn_count limit rules marks.now }
{
    let mut total = 0u128;
    for place in 0..rules {
        total += count_of(marks, place).min(limit) as u128;
    }
    total
}

/// `count` zeros. The only error is out of memory.
fn zeros(alloc: Global, count: usize) -> Result<Vec<usize>, AllocError>
    ensures { IfOk result (λ zeros. zeros.items ≡ replicate count 0) }
{
    vec![in alloc; 0usize; count]
}

/// How many markers lie in each square. The only error is out of memory.
fn density(alloc: Global, window: Box2, marks: &[Mark]) -> Result<Vec<usize>, AllocError>
    ensures { IfOk result (λ counts. counts.items ≡ density window marks.now) }
{
    let cells = cell_count();
    let mut counts = zeros(alloc, cells)?;
    for mark in marks {
        let cell = cell_of(window, mark);
        let count = counts[cell];
        counts[cell] = count + 1;
    }
    Ok(counts)
}

/// How many markers lie in each square if they are drawn as a density; empty if they are drawn one by one. The only
/// error is out of memory.
#[tactic(auto, unfolding(crate::specs::Density::most_drawn))]
pub(crate) fn counts_of(
    alloc: Global,
    window: Box2,
    limit: usize,
    rules: usize,
    marks: &[Mark],
) -> Result<Vec<usize>, AllocError>
    ensures { IfOk result (λ counts. counts.items ≡ counts_of window limit rules marks.now) }
{
    if drawn_count(limit, rules, marks) > MOST_DRAWN {
        density(alloc, window, marks)
    } else {
        Ok(Vec::new(alloc))
    }
}
