//! Why a submission can't be placed, or a placement can't be removed.

ghost use Rattle.std.specs.Prelude.{◌≡◌};
ghost use Rattle.mpw_placings.specs.declared.fault.PlacingFault.TheVariants.{Memory};

use std::alloc::AllocError;
use thiserror::Error;

/// Why a submission can't be placed, in the order of the tests, or a placement can't be removed.
#[derive(Clone, Copy, Debug, PartialEq, Eq, Error)]
pub enum PlacingFault {
    /// The cell has no submission.
    #[error("the cell has no submission")]
    NoCell,
    /// There is a placement of that cell and label.
    #[error("the cell is placed under that label already")]
    Known,
    /// A shape of the submission would reach beyond 2^30 nm.
    #[error("a shape would lie beyond 2^30 nm")]
    Extent,
    /// All placements together would have more than 2^20 flat shapes.
    #[error("more than 2^20 shapes")]
    Shapes,
    /// There are 4096 placements.
    #[error("there are 4096 placings already")]
    Full,
    /// There is no placement of that cell and label.
    #[error("the cell is not placed under that label")]
    Unknown,
    /// Memory ran out. The placements are unchanged.
    #[error("out of memory")]
    Memory,
}

impl From<AllocError> for PlacingFault {
    ghost from_gives = { λ _ fault. fault ≡ Memory };

    fn from(_error: AllocError) -> PlacingFault {
        PlacingFault::Memory
    }
}
