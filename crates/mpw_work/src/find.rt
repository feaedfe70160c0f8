//! Finds the markers of a tile: first the runs of each rule in the core, then what all of them
//! touch.

ghost use Rattle.std.specs.Prelude.{◌≡◌, ◌++◌, IfOk, OnOk, map};
ghost use Rattle.mpw_geom.specs.declared.plane.Box2.{Box2 as BoxValue};
ghost use Rattle.mpw_job.specs.Layers.{Coverage};
ghost use Rattle.mpw_work.specs.Internal.Shared.{Serves, IsSharedOf};
ghost use Rattle.mpw_job.specs.Answers.{key_at, Answers};
ghost use Rattle.mpw_work.specs.Internal.Found.{AddsRule, AreKeys};

use crate::layers::by_layer;
use crate::met::markers_of;
use crate::shared::{Shared, shared_for};
use mpw_checks::pieces_in;
use mpw_deck::Rule;
use mpw_edges::Piece;
use mpw_job::TileJob;
use mpw_markers::{Key, Marker};
use std::alloc::{AllocError, Global};

/// Adds the keys of the runs of the rule at index `place`.
fn add_keys(keys: &mut Vec<Key>, place: u32, runs: &[Piece]) -> Result<(), AllocError>
    ensures { OnOk result (keys.new.items ≡ keys.old.items ++ map (key_at place) runs.now) }
{
    for run in runs {
        keys.push(Key {
            rule: place,
            piece: *run,
        })?;
    }
    Ok(())
}

/// Adds the keys of the runs of the rule at index `place`. They are found in strips that serve the rule.
fn add_rule(
    alloc: Global,
    keys: &mut Vec<Key>,
    place: u32,
    rule: &Rule,
    shared: &Shared,
) -> Result<(), AllocError>
    requires { Serves shared.now rule.now }
    ensures { (core : BoxValue) (on : Coverage) → IsSharedOf core on shared.now →
        OnOk result (AddsRule core on place rule.now keys.old.items keys.new.items) }
{
    let runs = pieces_in(alloc, rule, &shared.strips)?;
    add_keys(keys, place, runs.as_slice())?;
    Ok(())
}

/// The keys of the markers that answer the job, in order.
fn keys_found(alloc: Global, job: &TileJob) -> Result<Vec<Key>, AllocError>
    ensures { IfOk result (λ v. AreKeys job.now v.items) }
{
    job.is_tile_job();
    let core = job.core();
    let sorted = by_layer(alloc, job.window().as_slice())?;
    let rectangles = sorted.as_slice();
    let rules = job.rules().as_slice();
    let mut keys = Vec::new(alloc);
    let mut held: Option<Shared> = None;
    for place in 0..rules.len() {
        let rule = &rules[place];
        let shared = shared_for(alloc, held, rule, &rules[place..], rectangles, core)?;
        add_rule(alloc, &mut keys, place as u32, rule, &shared)?;
        held = Some(shared);
    }
    Ok(keys)
}

/// The markers that answer the job, in order.
pub(crate) fn found(alloc: Global, job: &TileJob) -> Result<Vec<Marker>, AllocError>
    ensures { IfOk result (λ v. Answers job.now v.items) }
{
    let keys = keys_found(alloc, job)?;
    let markers = markers_of(alloc, job.window().as_slice(), keys.as_slice())?;
    Ok(markers)
}
