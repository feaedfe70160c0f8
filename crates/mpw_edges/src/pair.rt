//! Finds pairs of edges, one of each list, that are near each other in a row of a core.
//!
//! All pairs within the distance are found, as the rules are defined, and not only the nearest. The edges of one list are at
//! least 2 nm apart in a row. So an edge has at most half the distance, in nm, of pairs in that row.

ghost use Rattle.std.specs.Prelude.{
  ◌≡◌,
  ◌↔◌,
  ◌+◌,
  ◌≤◌,
  ◌≤ℤ◌,
  ◌<ℤ◌,
  ◌-ℤ◌,
  ◌⊎◌,
  pos,
  ℤ,
  IsTrue,
  OnOk,
  MatchBool,
  MatchOption,
  All,
  AllPairs,
  IfOk,
  length,
  take,
  drop,
  false,
};
ghost use Rattle.mpw_region.specs.declared.runs.Line.{Line as LineValue};
ghost use Rattle.mpw_region.specs.Runs.{HoldsPlace, IsFilled};
ghost use Rattle.mpw_region.specs.Internal.Runs.{Adds};
ghost use Rattle.mpw_edges.specs.Internal.Pairs.{IsInRows, IsPairPlace, IsPairFrom, IsPairOf, IsLeftOf, AreEdges, IsBand, Moves};

use mpw_geom::Box2;
use mpw_region::{Line, Run};
use std::alloc::AllocError;

/// This many edges are tested one by one before a binary search.
const FEW: usize = 16;

/// An edge at `x` in the rows from `y0` to before `y1`, in nm.
#[derive(Clone, Copy)]
pub(crate) struct Edge {
    pub(crate) x: i64,
    pub(crate) y0: i64,
    pub(crate) y1: i64,
}

/// What makes two edges a pair: whether touching counts, the distance in nm that they must be nearer
/// than, and the core of the lower left point.
#[derive(Clone, Copy)]
pub(crate) struct Limits {
    pub(crate) touching: bool,
    pub(crate) distance: u32,
    pub(crate) core: Box2,
}

impl Limits {
    /// The limits for checks in which edges at the same position aren't a pair.
    pub(crate) fn apart(distance: u32, core: Box2) -> Limits
        ensures { result ≡ record { touching = false; distance = distance; core = core } }
    {
        Limits {
            touching: false,
            distance,
            core,
        }
    }

    ghost use Rattle.mpw_edges.specs.Internal.Pairs.{IsNear};

    /// Whether the edges are near each other.
    fn is_near(&self, from: &Edge, to: &Edge) -> bool
        ensures { MatchBool result
            (IsNear self.now from.now.x to.now.x) (IsNear self.now from.now.x to.now.x → ⊥) }
    {
        let behind = if self.touching {
            from.x <= to.x
        } else {
            from.x < to.x
        };
        behind && to.x.abs_diff(from.x) < u64::from(self.distance)
    }
}

/// The greatest of three.
fn greatest(a: i64, b: i64, c: i64) -> i64
    ensures { (j : ℤ) → (result ≤ℤ j) ↔ ((a ≤ℤ j) × (b ≤ℤ j) × (c ≤ℤ j)) }
{
    a.max(b).max(c)
}

/// The least of three.
fn least(a: i64, b: i64, c: i64) -> i64
    ensures { (j : ℤ) → (j <ℤ result) ↔ ((j <ℤ a) × (j <ℤ b) × (j <ℤ c)) }
{
    a.min(b).min(c)
}

/// The rows of the core that both edges have, from the first to before the second.
fn rows_of(from: &Edge, to: &Edge, core: &Box2) -> Option<(i64, i64)>
    ensures { MatchOption result
        ((j : ℤ) → IsInRows core.now from.now to.now j → ⊥)
        (λ r. (r.0 <ℤ r.1) × ((j : ℤ) →
        ((r.0 ≤ℤ j) × (j <ℤ r.1)) ↔ IsInRows core.now from.now to.now j)) }
{
    let y0 = greatest(from.y0, to.y0, core.y0);
    let y1 = least(from.y1, to.y1, core.y1);
    if y1 <= y0 {
        return None;
    }
    Some((y0, y1))
}

/// The run of rows of the core that both edges have, if they are near and the first lies in the
/// core.
fn run_of(side: u8, from: &Edge, to: &Edge, limits: &Limits) -> Option<Run>
    ensures { MatchOption result
        ((line : LineValue) (j : ℤ) → IsPairPlace side limits.now from.now to.now line j → ⊥)
        (λ r. IsFilled r × ((line : LineValue) (j : ℤ) →
        HoldsPlace r line j ↔ IsPairPlace side limits.now from.now to.now line j)) }
{
    let core = &limits.core;
    if !limits.is_near(from, to) || from.x < core.x0 || core.x1 <= from.x {
        return None;
    }
    let (y0, y1) = rows_of(from, to, core)?;
    Some(Run {
        line: Line {
            side,
            first: from.x,
            second: to.x,
        },
        from: y0,
        to: y1,
    })
}

/// Adds the rows of a pair of edges.
pub(crate) fn add_pair(
    runs: &mut Vec<Run>,
    side: u8,
    from: &Edge,
    to: &Edge,
    limits: &Limits,
) -> Result<(), AllocError>
    ensures { OnOk result (Adds runs.old.items runs.new.items
        (IsPairPlace side limits.now from.now to.now)) }
{
    if let Some(run) = run_of(side, from, to, limits) {
        runs.push(run)?;
    }
    Ok(())
}

/// Whether the second edge, to the right of the first, is too far from it to be a pair.
fn is_past(from: &Edge, to: &Edge, limits: &Limits) -> bool
    ensures { IsTrue result → pos limits.now.distance ≤ℤ (to.now.x -ℤ from.now.x) }
{
    from.x <= to.x && to.x.abs_diff(from.x) >= u64::from(limits.distance)
}

/// Whether the edge lies in the core's columns.
fn is_inside(from: &Edge, core: &Box2) -> bool
    ensures { MatchBool result
        ((core.now.x0 ≤ℤ from.now.x) × (from.now.x <ℤ core.now.x1))
        ((core.now.x0 ≤ℤ from.now.x) × (from.now.x <ℤ core.now.x1) → ⊥) }
{
    core.x0 <= from.x && from.x < core.x1
}

/// The index of the first edge that isn't left of this one. Those before `start` are left of it. The first few from there
/// are tested one by one, and the others by a binary search.
fn place_of(tos: &[Edge], start: usize, from: &Edge) -> usize
    requires ordered { AllPairs IsLeftOf tos.now }
    requires within { start ≤ length tos.now }
    requires left { All (λ to. to.x <ℤ from.now.x) (take start tos.now) }
    ensures within { result ≤ length tos.now }
    ensures left { All (λ to. to.x <ℤ from.now.x) (take result tos.now) }
{
    for k in start..tos.len().min(start.saturating_add(FEW)) {
        if from.x <= tos[k].x {
            return k;
        }
    }
    tos.partition_point(|to| to.x < from.x)
}

/// Adds the rows of each pair of this edge and one of a band's. Those before `start` are left of it. Cost: one test for each pair, and
/// one more.
fn add_pairs_from(
    runs: &mut Vec<Run>,
    side: u8,
    from: &Edge,
    tos: &[Edge],
    start: usize,
    limits: &Limits,
) -> Result<(), AllocError>
    requires ordered { AllPairs IsLeftOf tos.now }
    requires within { start ≤ length tos.now }
    requires left { All (λ to. to.x <ℤ from.now.x) (take start tos.now) }
    ensures { OnOk result (Adds runs.old.items runs.new.items
        (IsPairFrom side limits.now tos.now from.now)) }
{
    if !is_inside(from, &limits.core) {
        return Ok(());
    }
    for k in start..tos.len() {
        let to = &tos[k];
        if is_past(from, to, limits) {
            return Ok(());
        }
        add_pair(runs, side, from, to, limits)?;
    }
    Ok(())
}

/// Adds the rows of each pair of an edge of each of two bands, from left to right.
fn add_band_pairs(
    runs: &mut Vec<Run>,
    side: u8,
    froms: &[Edge],
    tos: &[Edge],
    limits: &Limits,
) -> Result<(), AllocError>
    requires froms { AllPairs IsLeftOf froms.now }
    requires tos { AllPairs IsLeftOf tos.now }
    ensures { OnOk result (Adds runs.old.items runs.new.items
        (IsPairOf side limits.now froms.now tos.now)) }
{
    let mut start = 0;
    for from in froms {
        start = place_of(tos, start, from);
        add_pairs_from(runs, side, from, tos, start, limits)?;
    }
    Ok(())
}

/// How many edges the band of the first one has. The first few are tested one by one, and the others by a binary search.
fn band_length(edges: &[Edge]) -> usize
    requires edges { AreEdges edges.now }
    requires some { 1 ≤ length edges.now }
    ensures { IsBand edges.now result }
{
    let first = &edges[0];
    for n in 1..edges.len().min(FEW) {
        if first.y0 < edges[n].y0 {
            return n;
        }
    }
    edges.partition_point(|edge| edge.y0 <= first.y0)
}

/// How many edges, from the first on, end where the other begins or below it. Cost: one test for each of them, and one more.
fn count_below(edges: &[Edge], other: &Edge) -> usize
    ensures within { result ≤ length edges.now }
    ensures below { All (λ e. e.y1 ≤ℤ other.now.y0) (take result edges.now) }
{
    for n in 0..edges.len() {
        if other.y0 < edges[n].y1 {
            return n;
        }
    }
    edges.len()
}

/// Whether the first edge ends no higher than the second.
fn ends_first(from: &Edge, to: &Edge) -> bool
    ensures { MatchBool result (from.now.y1 ≤ℤ to.now.y1) (to.now.y1 ≤ℤ from.now.y1) }
{
    from.y1 <= to.y1
}

/// Whether the edges end in the same row.
fn end_together(from: &Edge, to: &Edge) -> bool
    ensures { MatchBool result (from.now.y1 ≡ to.now.y1) (from.now.y1 ≡ to.now.y1 → ⊥) }
{
    from.y1 == to.y1
}

/// Adds the rows of each pair of the lists' lowest bands. Returns how many edges of each list have no
/// more pairs: those that lie below the other list, or else the band that ends first, or both bands.
fn add_bands(
    runs: &mut Vec<Run>,
    side: u8,
    froms: &[Edge],
    tos: &[Edge],
    limits: &Limits,
) -> Result<(usize, usize), AllocError>
    requires froms { AreEdges froms.now }
    requires tos { AreEdges tos.now }
    requires some_from { 1 ≤ length froms.now }
    requires some_to { 1 ≤ length tos.now }
    ensures from_within { IfOk result (λ r. r.0 ≤ length froms.now) }
    ensures to_within { IfOk result (λ r. r.1 ≤ length tos.now) }
    ensures further { IfOk result (λ r. 1 ≤ r.0 + r.1) }
    ensures moves { IfOk result (λ r.
        Moves runs.old.items (IsPairOf side limits.now froms.now tos.now)
        runs.new.items (IsPairOf side limits.now (drop r.0 froms.now) (drop r.1 tos.now))) }
{
    let low = count_below(froms, &tos[0]);
    if low > 0 {
        return Ok((low, 0));
    }
    let lower = count_below(tos, &froms[0]);
    if lower > 0 {
        return Ok((0, lower));
    }
    let band = band_length(froms);
    let other = band_length(tos);
    add_band_pairs(runs, side, &froms[..band], &tos[..other], limits)?;
    if end_together(&froms[0], &tos[0]) {
        return Ok((band, other));
    }
    if ends_first(&froms[0], &tos[0]) {
        Ok((band, 0))
    } else {
        Ok((0, other))
    }
}

/// Adds the rows of each pair of an edge of each list.
///
/// The bands of both lists are visited from below, by two pointers. In two bands with rows in common, each edge of the
/// first needs the near ones of the second: a search from where the search of the edge to its left ended, which is binary
/// if it goes far, and the pairs that it finds. Each pair is a run of its own: at most half the distance, in nm, for an
/// edge and a band.
pub(crate) fn add_pairs(
    runs: &mut Vec<Run>,
    side: u8,
    froms: &[Edge],
    tos: &[Edge],
    limits: &Limits,
) -> Result<(), AllocError>
    requires froms { AreEdges froms.now }
    requires tos { AreEdges tos.now }
    ensures { OnOk result (Adds runs.old.items runs.new.items
        (IsPairOf side limits.now froms.now tos.now)) }
{
    let mut i = 0;
    let mut j = 0;
    while i < froms.len() {
        if j >= tos.len() {
            return Ok(());
        }
        let (m, n) = add_bands(runs, side, &froms[i..], &tos[j..], limits)?;
        i += m;
        j += n;
    }
    Ok(())
}
