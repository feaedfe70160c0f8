//! Strips of a tile that several rules share.
//!
//! Consecutive rules often have the same layers: widths and spaces of a layer, and its distances to
//! another layer. The core is cut into strips once for them, with bands for the greatest of their
//! distances.

ghost use Rattle.std.specs.Prelude.{◌≡◌, ◌↔◌, Some, ℤ, IfOk, IfSome, IsTrue};
ghost use Rattle.mpw_geom.specs.Plane.{IsBoxInPlane};
ghost use Rattle.mpw_region.specs.Squares.{covers};
ghost use Rattle.mpw_job.specs.Answers.{listed_on};
ghost use Rattle.mpw_work.specs.Internal.Layers.{IsByLayer};
ghost use Rattle.mpw_work.specs.Internal.Shared.{squares_on, LooksAt, Serves, IsSharedOf};

use crate::layers::areas_on;
use mpw_checks::{Strips, strips_of};
use mpw_deck::{Check, Rule};
use mpw_geom::{Box2, Layer};
use mpw_tiles::Rectangle;
use std::alloc::{AllocError, Global};

/// The strips of a core with the bands of a first layer, and of a second if there is one, for rules
/// up to a distance in nm.
#[derive(Drop)]
pub(crate) struct Shared {
    pub(crate) first: Layer,
    pub(crate) second: Option<Layer>,
    pub(crate) distance: u32,
    pub(crate) strips: Strips,
}

/// Whether two layers are the same.
fn is_one(a: Layer, b: Layer) -> bool
    ensures { IsTrue result ↔ (a ≡ b) }
{
    a == b
}

/// Whether there is a second layer, and it is this one.
fn is_second(layer: Layer, second: Option<Layer>) -> bool
    ensures { IsTrue result → second ≡ Some layer }
{
    match second {
        Some(other) => is_one(other, layer),
        None => false,
    }
}

/// Whether the check's first layer is `first`, and its second layer, if it has one, is `second`.
fn looks_at(check: Check, first: Layer, second: Option<Layer>) -> bool
    ensures { IsTrue result → LooksAt check first second }
{
    match check {
        Check::Width(layer) => is_one(layer, first),
        Check::Space(layer) => is_one(layer, first),
        Check::Separation(a, b) => is_one(a, first) & is_second(b, second),
        Check::Enclosing(a, b) => is_one(a, first) & is_second(b, second),
    }
}

/// The second layer of the first rule that has one, among those at the front whose first layer is
/// `layer`.
fn partner(layer: Layer, rules: &[Rule]) -> Option<Layer> {
    for rule in rules {
        match rule.check {
            Check::Width(first) if first == layer => {}
            Check::Space(first) if first == layer => {}
            Check::Separation(first, second) if first == layer => return Some(second),
            Check::Enclosing(first, second) if first == layer => return Some(second),
            _ => return None,
        }
    }
    None
}

/// The greatest distance of the rules at the front with these layers.
fn widest(rules: &[Rule], first: Layer, second: Option<Layer>) -> u32 {
    let mut greatest = 0u32;
    for rule in rules {
        if !looks_at(rule.check, first, second) {
            return greatest;
        }
        greatest = greatest.max(rule.distance);
    }
    greatest
}

/// The layers of the check. A check of one layer also gets the second layer of the rules after it,
/// so that they can share its strips.
fn layers_for(check: Check, rules: &[Rule]) -> (Layer, Option<Layer>)
    ensures { LooksAt check result.0 result.1 }
{
    match check {
        Check::Width(layer) => (layer, partner(layer, rules)),
        Check::Space(layer) => (layer, partner(layer, rules)),
        Check::Separation(first, second) => (first, Some(second)),
        Check::Enclosing(first, second) => (first, Some(second)),
    }
}

/// The areas on the second layer. The rectangles must be sorted by layer. Empty if there is no second layer.
#[tactic(auto, unfolding(mpw_geom::specs::Plane::any_has_square))]
fn second_areas(
    alloc: Global,
    rectangles: &[Rectangle],
    second: Option<Layer>,
) -> Result<Vec<Box2>, AllocError>
    requires { IsByLayer rectangles.now }
    ensures { IfOk result (λ v. (i j : ℤ) → covers v.items i j ≡ squares_on (listed_on rectangles.now) second i j) }
{
    match second {
        Some(layer) => areas_on(alloc, rectangles, layer),
        None => Ok(Vec::new(alloc)),
    }
}

impl Shared {
    /// Whether the strips serve the rule: they have its layers, and its distance is not too great
    /// for them.
    fn serves(&self, rule: &Rule) -> bool
        ensures { IsTrue result → Serves self.now rule.now }
    {
        (rule.distance <= self.distance) & looks_at(rule.check, self.first, self.second)
    }

    /// The strips for a rule and for those that follow. The rectangles must be sorted by layer. Cost: what
    /// [`mpw_checks::strips_of`] takes for those on its layers. The only error is out of memory.
    fn of(
        alloc: Global,
        rule: &Rule,
        rules: &[Rule],
        rectangles: &[Rectangle],
        core: Box2,
    ) -> Result<Shared, AllocError>
        requires plane { IsBoxInPlane core }
        requires ordered { IsByLayer rectangles.now }
        ensures shared { IfOk result (IsSharedOf core (listed_on rectangles.now)) }
        ensures serves { IfOk result (λ s. Serves s rule.now) }
    {
        let (first, second) = layers_for(rule.check, rules);
        let distance = rule.distance.max(widest(rules, first, second));
        let on_first = areas_on(alloc, rectangles, first)?;
        let on_second = second_areas(alloc, rectangles, second)?;
        let strips = strips_of(
            alloc,
            distance,
            on_first.as_slice(),
            on_second.as_slice(),
            core,
        )?;
        Ok(Shared {
            first,
            second,
            distance,
            strips,
        })
    }
}

/// The given strips if they serve the rule, or else new ones for it and the rules that follow. The
/// only error is out of memory.
pub(crate) fn shared_for(
    alloc: Global,
    held: Option<Shared>,
    rule: &Rule,
    rules: &[Rule],
    rectangles: &[Rectangle],
    core: Box2,
) -> Result<Shared, AllocError>
    requires plane { IsBoxInPlane core }
    requires ordered { IsByLayer rectangles.now }
    requires held { IfSome held (IsSharedOf core (listed_on rectangles.now)) }
    ensures shared { IfOk result (IsSharedOf core (listed_on rectangles.now)) }
    ensures serves { IfOk result (λ s. Serves s rule.now) }
{
    if let Some(shared) = held {
        if shared.serves(rule) {
            return Ok(shared);
        }
    }
    Shared::of(alloc, rule, rules, rectangles, core)
}
