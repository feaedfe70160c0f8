//! Joins runs of whole numbers on lines.

ghost use Rattle.std.specs.Prelude.{◌≡◌, ◌↔◌, ◌≤ℤ◌, ◌<ℤ◌, ◌∷◌, ℤ, IfOk, IsTrue, All, MatchBool};
ghost use Rattle.std.specs.List.Sorted.{IsPermutation};
ghost use Rattle.mpw_region.specs.declared.runs.Line.{Line as LineValue};
ghost use Rattle.mpw_region.specs.Runs.{CoversPlace, IsFilled, AreApart};
ghost use Rattle.mpw_region.specs.Internal.Order.{AreInOrder, merged};

use std::alloc::{AllocError, Global};

/// The line of a run: a side and two numbers, in nm. Runs on different lines never touch.
#[derive(Clone, Copy, PartialEq, Eq, PartialOrd, Ord)]
pub struct Line {
    /// The side, 0 or 1. For the runs that checks find, it is that of their pair steps.
    pub side: u8,
    /// For the runs that checks find, `x1` of their pair steps.
    pub first: i64,
    /// For the runs that checks find, `x2` of their pair steps.
    pub second: i64,
}

/// The positions from `from` to before `to` on a line, in nm.
#[derive(Clone, Copy, PartialEq, Eq, PartialOrd, Ord)]
pub struct Run {
    /// The line on which it lies. Runs on different lines never touch.
    pub line: Line,
    /// The first position, in nm.
    pub from: i64,
    /// The position after the last one. It is above `from` if the run has a position.
    pub to: i64,
}

impl Run {
    /// Whether the next run is on the same line and overlaps or touches this one.
    fn reaches(&self, next: &Run) -> bool
        ensures { MatchBool result
            ((self.now.line ≡ next.now.line) × (next.now.from ≤ℤ self.now.to))
            ((self.now.line ≡ next.now.line) → self.now.to <ℤ next.now.from) }
    {
        self.line == next.line && next.from <= self.to
    }

    /// This run, extended to the end of the next.
    fn merge(&self, next: &Run) -> Run
        ensures { result ≡ merged self.now next.now }
    {
        Run {
            line: self.line,
            from: self.from,
            to: self.to.max(next.to),
        }
    }
}

/// The runs sorted by line, and on a line by their beginnings.
fn in_order(runs: Vec<Run>) -> Vec<Run>
    ensures moved { IsPermutation runs.items result.items }
    ensures ordered { AreInOrder result.items }
{
    let mut runs = runs;
    runs.sort_unstable();
    runs
}

/// Whether no run overlaps or touches the next one. One pass.
fn are_apart(runs: &[Run]) -> bool
    requires filled { All IsFilled runs.now }
    requires ordered { AreInOrder runs.now }
    ensures { IsTrue result → AreApart runs.now }
{
    for k in 1..runs.len() {
        if runs[k - 1].reaches(&runs[k]) {
            return false;
        }
    }
    true
}

/// Joins sorted runs that overlap or touch on one line, beginning with `first`.
fn join(alloc: Global, first: Run, rest: &[Run]) -> Result<Vec<Run>, AllocError>
    requires filled { All IsFilled (first ∷ rest.now) }
    requires ordered { AreInOrder (first ∷ rest.now) }
    ensures places { IfOk result (λ v. (line : LineValue) (at : ℤ) →
        CoversPlace v.items line at ↔ CoversPlace (first ∷ rest.now) line at) }
    ensures apart { IfOk result (λ v. AreApart v.items) }
{
    let mut joined = Vec::with_capacity(alloc, rest.len().saturating_add(1))?;
    let mut last = first;
    for run in rest {
        if last.reaches(run) {
            last = last.merge(run);
        } else {
            joined.push(last)?;
            last = *run;
        }
    }
    joined.push(last)?;
    Ok(joined)
}

/// The same positions as the runs, by sorted runs no two of which touch: on one line each ends before
/// the next begins, with a gap. Runs are sorted by line (side, first, second), then by position. Cost:
/// that of sorting the runs. If some are joined, the result is in memory in addition to them, 40 bytes
/// for each run.
///
/// # Errors
/// Out of memory.
pub fn join_runs(alloc: Global, runs: Vec<Run>) -> Result<Vec<Run>, AllocError>
    requires { All IsFilled runs.items }
    ensures places { IfOk result (λ v. (line : LineValue) (at : ℤ) →
        CoversPlace v.items line at ↔ CoversPlace runs.items line at) }
    ensures apart { IfOk result (λ v. AreApart v.items) }
{
    let runs = in_order(runs);
    if are_apart(runs.as_slice()) {
        return Ok(runs);
    }
    match runs.as_slice() {
        [] => Ok(Vec::new(alloc)),
        [first, rest @ ..] => join(alloc, *first, rest),
    }
}
