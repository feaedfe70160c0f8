//! What a tile's window decides. The contract is the law.

ghost use Rattle.mpw_run_laws.specs.Windows.{SquaresDecideRows, SquaresDecideAnswers};

use mpw_tiles::{each_window_decides, each_window_tells_met};

/// If two windows of a tile have the same squares, by layer and origin, however these are cut into rectangles, they have the same rows: the same pair
/// steps of the tile's core, and the same origins that each row touches. So the markers that answer the tile's job are the same too.
pub fn squares_decide()
    ensures rows { SquaresDecideRows }
    ensures answers { SquaresDecideAnswers }
{
    each_window_decides();
    each_window_tells_met();
}
