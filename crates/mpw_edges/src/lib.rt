//! The four checks inside one core: pairs of edges nearer than a rule's distance, row by row, and
//! their maximal runs of rows.
#![tactic(auto)]

mod edges;
mod laws;
mod pair;
mod run;
mod search;

pub use laws::{exchange_exchanges_axes, test_decides_pair_steps, window_decides};
pub use run::{Axis, Piece};
pub use search::{pieces, pieces_of, vertical_steps};
