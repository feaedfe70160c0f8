//! What a check looks at. `specs/Looks.antt` has what contracts say of it.
ghost use Rattle.std.specs.Prelude.{◌≡◌, is_none, IfOk, IfErr};
ghost use Rattle.std.specs.List.{list_all};
ghost use Rattle.mpw_firm_sources.specs.Looks.{IsLookedAt, IsOfLook, empty_layer, empty_of, idle_text, looks, shows};
ghost use Rattle.mpw_firm_messages.specs.Told.{Refuses};

use crate::target::Target;
use mpw_deck::{Check, Rule};
use mpw_firm_messages::{FirmFault, refusal};
use mpw_geom::Layer;
use mpw_tiles::Snapshot;
use std::alloc::{AllocError, Global};

/// Whether a layout shows a shape on a layer. It goes over the structures and their elements once, and not over the shapes.
///
/// # Errors
/// Out of memory.
fn shows(alloc: Global, snapshot: &Snapshot, layer: Layer) -> Result<bool, AllocError>
    ensures { IfOk result (λ shown. shown ≡ shows snapshot.now layer) }
{
    mpw_firm_layers::shows(alloc, snapshot.shelf(), snapshot.roots(), layer)
}

/// The first of two layers on which a layout shows no shape.
///
/// # Errors
/// Out of memory.
fn empty_of(
    alloc: Global,
    snapshot: &Snapshot,
    first: Layer,
    second: Layer,
) -> Result<Option<Layer>, AllocError>
    ensures { IfOk result (λ empty. empty ≡ empty_of snapshot.now first second) }
{
    if !shows(alloc, snapshot, first)? {
        return Ok(Some(first));
    }
    if !shows(alloc, snapshot, second)? {
        return Ok(Some(second));
    }
    Ok(None)
}

/// A layer of a check on which a layout shows no shape, the first of them.
///
/// # Errors
/// Out of memory.
pub(crate) fn empty_layer(
    alloc: Global,
    snapshot: &Snapshot,
    check: Check,
) -> Result<Option<Layer>, AllocError>
    ensures { IfOk result (λ empty. empty ≡ empty_layer snapshot.now check) }
{
    match check {
        Check::Width(layer) | Check::Space(layer) => {
            let shown = shows(alloc, snapshot, layer)?;
            Ok(if shown { None } else { Some(layer) })
        }
        Check::Separation(first, second) | Check::Enclosing(first, second) => {
            empty_of(alloc, snapshot, first, second)
        }
    }
}

/// Whether a layout shows shapes on each layer of these rules.
///
/// # Errors
/// Out of memory.
fn all_look(alloc: Global, snapshot: &Snapshot, rules: &[Rule]) -> Result<bool, AllocError>
    ensures { IfOk result (λ look. look ≡ list_all (λ rule. is_none (empty_layer snapshot.now rule.check)) rules.now) }
{
    for rule in rules {
        if empty_layer(alloc, snapshot, rule.check)?.is_some() {
            return Ok(false);
        }
    }
    Ok(true)
}

/// Whether there are rules, and a layout shows shapes on each of their layers.
///
/// # Errors
/// Out of memory.
fn looks(alloc: Global, snapshot: &Snapshot, rules: &[Rule]) -> Result<bool, AllocError>
    ensures { IfOk result (λ look. look ≡ looks snapshot.now rules.now) }
{
    match rules {
        [] => Ok(false),
        _ => all_look(alloc, snapshot, rules),
    }
}

/// What is printed about a layout of which a rule looks at nothing.
#[tactic(auto, unfolding(crate::specs::Looks::idle_text))]
fn told_of_nothing(alloc: Global, file: &str, top: &str) -> FirmFault
    ensures { Refuses (idle_text file.now top.now) result }
{
    refusal(format!(in alloc;
        "{file}: {top}: a rule looks at nothing, or there is none, as the notes say: --strict asks \
        for shapes on each layer of each rule"
    ))
}

/// Refuses a layout, if that is asked for, of which a rule looks at nothing, or under a deck without rules.
///
/// # Errors
/// `Refused`, and `Memory`.
pub fn look(
    alloc: Global,
    strict: bool,
    target: &Target<'_>,
    snapshot: &Snapshot,
) -> Result<(), FirmFault>
    ensures looked { IfOk result (λ _. IsLookedAt strict snapshot.now) }
    ensures refused { IfErr result (IsOfLook target.now strict snapshot.now) }
{
    if strict && !looks(alloc, snapshot, snapshot.deck().rules().as_slice())? {
        return Err(told_of_nothing(alloc, target.file, target.top.as_str()));
    }
    Ok(())
}
