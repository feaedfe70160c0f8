//! The strips of a core, and what rules find in them.
//!
//! The bands of a strip are made once. They serve each rule of the same layers whose distance the
//! strip's window allows.

ghost use Rattle.std.specs.Prelude.{◌≡◌, ◌↔◌, ◌≤◌, ℕ, ℤ, IfOk, OnOk, All, Contains, AllPairs};
ghost use Rattle.mpw_geom.specs.declared.plane.Box2.{Box2 as BoxValue};
ghost use Rattle.mpw_region.specs.Banded.{AreBands};
ghost use Rattle.mpw_region.specs.declared.runs.Line.{Line as LineValue};
ghost use Rattle.mpw_region.specs.Runs.{CoversPlace, AreApart};
ghost use Rattle.mpw_region.specs.Internal.Runs.{Adds};
ghost use Rattle.mpw_edges.specs.Edges.{Squares};
ghost use Rattle.mpw_edges.specs.declared.run.Piece.{Piece as PieceValue};
ghost use Rattle.mpw_edges.specs.Pieces.{IsPiece, ComesBefore};
ghost use Rattle.mpw_checks.specs.Strips.{IsStrip, HasStepIn, FindsIn, AreStrips};

use mpw_deck::Rule;
use mpw_edges::{Piece, pieces_of, vertical_steps};
use mpw_geom::Box2;
use mpw_region::{Run, join_runs};
use std::alloc::{AllocError, Global};
use std::marker::Model;

/// A strip: its core, and the bands of both layers in its window.
pub struct Strip {
    pub(crate) core: Box2,
    pub(crate) first: Vec<Box2>,
    pub(crate) second: Vec<Box2>,
}

impl Drop for Strip {
    fn drop(self) {
        let Strip {
            core: _,
            first,
            second,
        } = self;
        drop(first);
        drop(second);
    }
}

/// A core in strips, along rows and along columns, with the bands of two layers. [`pieces_in`]
/// finds the pieces of rules in it.
pub struct Strips {
    rows: Vec<Strip>,
    columns: Vec<Strip>,
}

impl Drop for Strips {
    fn drop(self) {
        let Strips { rows, columns } = self;
        drop(rows);
        drop(columns);
    }
}

impl Model for Strips {
    ghost use Rattle.std.specs.Prelude.{All};
    ghost use Rattle.mpw_checks.specs.Strips.{BothWays, IsStrip};

    ghost Value = { BothWays };

    ghost view = { λ s. record { rows = s.rows.items; columns = s.columns.items } };

    ghost invariant = { λ s. All IsStrip s.rows.items × All IsStrip s.columns.items };
}

impl Strips {
    /// The strips of a core along rows, and those along columns.
    pub(crate) fn of(rows: Vec<Strip>, columns: Vec<Strip>) -> Strips
        requires rows { All IsStrip rows.items }
        requires columns { All IsStrip columns.items }
        ensures { result ≡ record { rows = rows.items; columns = columns.items } }
    {
        Strips { rows, columns }
    }

    /// The strips along rows.
    fn rows(&self) -> &[Strip]
        ensures strips { result.now ≡ self.now.rows }
        ensures banded { All IsStrip self.now.rows }
    {
        self.rows.as_slice()
    }

    /// The strips along columns.
    fn columns(&self) -> &[Strip]
        ensures strips { result.now ≡ self.now.columns }
        ensures banded { All IsStrip self.now.columns }
    {
        self.columns.as_slice()
    }
}

/// Adds what the rule finds in a strip.
fn add_runs(
    alloc: Global,
    found: &mut Vec<Run>,
    rule: &Rule,
    strip: &Strip,
) -> Result<(), AllocError>
    requires { IsStrip strip.now }
    ensures { OnOk result (Adds found.old.items found.new.items
        (λ line j. HasStepIn rule.now line j strip.now)) }
{
    let (first, second) = (strip.first.as_slice(), strip.second.as_slice());
    let runs = vertical_steps(alloc, rule, first, second, strip.core)?;
    found.extend_from_slice(runs.as_slice())?;
    Ok(())
}

/// The maximal runs of rows in which the rule finds a step in some strip.
fn runs_in(alloc: Global, rule: &Rule, strips: &[Strip]) -> Result<Vec<Run>, AllocError>
    requires { All IsStrip strips.now }
    ensures places { IfOk result (λ v. (line : LineValue) (j : ℤ) →
        CoversPlace v.items line j ↔ FindsIn strips.now rule.now line j) }
    ensures apart { IfOk result (λ v. AreApart v.items) }
{
    let mut found = Vec::new(alloc);
    for strip in strips {
        add_runs(alloc, &mut found, rule, strip)?;
    }
    join_runs(alloc, found)
}

/// What the rule finds in a core, as [`mpw_edges::pieces`] does. The strips must be those of the core, made from
/// the squares of the rule's layers, for a distance at least as great as the rule's.
///
/// Cost: that of the pairs in each strip, and a sort of what is found.
///
/// # Errors
/// Out of memory.
pub fn pieces_in(alloc: Global, rule: &Rule, strips: &Strips) -> Result<Vec<Piece>, AllocError>
    ensures exact { (distance : ℕ) (a b : Squares) (core : BoxValue) → AreStrips distance a b core strips.now
        → rule.now.distance ≤ distance → IfOk result (λ v. (p : PieceValue) →
        Contains v.items p ↔ IsPiece rule.now a b core p) }
    ensures ordered { IfOk result (λ v. AllPairs ComesBefore v.items) }
{
    let vertical = runs_in(alloc, rule, strips.rows())?;
    let horizontal = runs_in(alloc, rule, strips.columns())?;
    pieces_of(alloc, vertical.as_slice(), horizontal.as_slice())
}
