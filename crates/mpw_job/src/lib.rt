//! Jobs of a run, to cut a snapshot into windows and to find the markers of a tile, and their answers.
//!
//! A job has everything that it needs, so it can be executed anywhere. An answer has its job, and its type guarantees that the answer is
//! correct: the windows of a [`CutAnswer`] represent its snapshot, and the markers of a [`TileAnswer`] are those of its core.
//! [`answers_make_the_layout`] says what follows: the book stitched from the answers of all tiles has exactly the markers of the flat
//! layout. Nothing here executes a job, so a crate that only stores jobs and takes answers doesn't depend on the code that does.
#![tactic(auto)]

mod answer;
mod job;
mod laws;
mod tiles;

pub use answer::{Answer, CutAnswer, TileAnswer};
pub use job::{CutJob, Gate, Job, TileJob};
pub use laws::{
    answers_make_the_layout, cores_lie_in_plane, each_marker_meets_some, layout_determines_markers,
    no_shapes_no_markers, tests_tell_markers, tests_tell_shown,
};
pub use tiles::tile_job;
