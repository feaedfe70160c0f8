//! The snapshot of a library: its structure `TOP` as it is drawn, and four rules.
//!
//! Layer 1/0 has width 56 and space 51; layers 1/0 and 2/0 have separation 9 and enclosing 10.

use anyhow::Result;
use gate_plain::{deck_of, drawn};
use mpw_tiles::Snapshot;
use std::alloc::Global;

/// Cells in an array of 8 by 8, 300 nm apart. `bench/README.md` counts its rectangles and markers.
pub const SAMPLE: &str =
    "TOP: a E 8 8 0 0 2400 0 0 2400; E: b 1/0 0 0 100 250; b 1/0 0 100 250 150; b 1/0 200 0 250 90; b 2/0 5 20 45 60; b 2/0 105 20 125 40";

/// The side of the sample's tiles, in nm: the seams at 1320 cut its fifth column and row of cells.
pub const SAMPLE_SIDE: &str = "1320";

/// The rules.
const RULES: &str =
    "width w 1/0 56; space s 1/0 51; separation x 1/0 2/0 9; enclosing e 1/0 2/0 10";

/// The snapshot of a library's structure `TOP`, as it is drawn, with tiles of that side.
pub fn snapshot(alloc: Global, text: &[u8], side: &str) -> Result<Snapshot> {
    drawn(alloc, deck_of(alloc, side, RULES)?, text)
}
