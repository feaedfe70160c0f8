//! Whether snapshots, and jobs of tiles, are equal by value: the tests of the definitions.

ghost use Rattle.std.specs.Prelude.{◌≡◌};
ghost use Rattle.mpw_run.specs.Same.{same_snapshot, same_tile_job};

use crate::laws::tests_are_exact;
use mpw_job::TileJob;
use mpw_tiles::Snapshot;

/// Whether the snapshots have equal decks, roots and submissions. It stops at the first difference,
/// and takes no memory.
pub(crate) fn is_same_snapshot(a: &Snapshot, b: &Snapshot) -> bool
    ensures { result ≡ same_snapshot a.now b.now }
{
    tests_are_exact();
    a.is_same(b)
}

/// Whether the jobs have equal numbers, cores, windows and rules. It stops at the first difference,
/// and takes no memory.
pub(crate) fn is_same_tile_job(a: &TileJob, b: &TileJob) -> bool
    ensures { result ≡ same_tile_job a.now b.now }
{
    tests_are_exact();
    a.is_same(b)
}
