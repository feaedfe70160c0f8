//! The jobs of a run's tiles.

ghost use Rattle.std.specs.Prelude.{◌≡◌, ◌<◌, Some, length, IfOk};
ghost use Rattle.mpw_tiles.specs.Plan.{tiles};
ghost use Rattle.mpw_tiles.specs.Snapshots.{plan_for};
ghost use Rattle.mpw_job.specs.Laws.{tile_job_of};

use crate::job::TileJob;
use crate::laws::cores_lie_in_plane;
use mpw_tiles::{Plan, Snapshot, Windows};
use std::alloc::AllocError;

/// The job of a tile, for the run with that number over the snapshot. `plan` is what [`Snapshot::plan`] returns, and `windows` are the snapshot's.
/// It shares the window and the rules. Constant time, without more memory.
///
/// # Errors
/// If no more copies can be counted.
pub fn tile_job(
    run: u32,
    tile: u32,
    snapshot: &Snapshot,
    plan: &Plan,
    windows: &Windows,
) -> Result<TileJob, AllocError>
    requires plan { plan_for snapshot.now ≡ Some plan.now }
    requires tile { tile < tiles plan.now }
    requires windows { tile < length windows.now }
    ensures { IfOk result (λ job. job ≡ tile_job_of snapshot.now plan.now windows.now run tile) }
{
    cores_lie_in_plane();
    snapshot.is_snapshot();
    let core = plan.core(tile);
    let rules = snapshot.deck().rules().copy()?;
    let window = windows.as_slice()[tile as usize].copy()?;
    Ok(TileJob::new(run, tile, core, window, rules))
}
