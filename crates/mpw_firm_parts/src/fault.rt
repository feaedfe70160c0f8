//! Why parts aren't stitched.
ghost use Rattle.std.specs.Prelude.{◌≡◌, Some};
ghost use Rattle.mpw_firm_parts.specs.declared.fault.PartsFault.TheVariants.{Memory};
ghost use Rattle.mpw_firm_parts.specs.Stitching.{word_of};

use std::alloc::AllocError;
use std::fmt;
use thiserror::Error;

/// What a part doesn't share with the first.
#[derive(Clone, Copy, Debug)]
pub enum Difference {
    /// The library's text.
    Library,
    /// The deck's text.
    Deck,
    /// The structure's name.
    Top,
    /// The extent, or the number of columns.
    Plan,
}

impl Difference {
    /// What the part has another one of: `library`, `deck`, `structure` or `plan of columns`.
    #[tactic(auto, unfolding(crate::specs::Stitching::word_of))]
    pub fn word(self) -> &'static str
        ensures { result.now ≡ word_of self }
    {
        match self {
            Difference::Library => "library",
            Difference::Deck => "deck",
            Difference::Top => "structure",
            Difference::Plan => "plan of columns",
        }
    }
}

impl fmt::Display for Difference {
    ghost output = { λ difference. Some (word_of difference) };

    fn fmt<W: fmt::Write>(&self, f: &mut fmt::Formatter<W>) -> fmt::Result {
        f.write_str(self.word())
    }
}

/// Why parts aren't stitched.
#[derive(Clone, Copy, Debug, Error)]
pub enum PartsFault {
    /// Memory runs out.
    #[error("out of memory")]
    Memory,
    /// There is no part.
    #[error("there is no part")]
    NoPart,
    /// The part at that place, counted from 0, is of another check.
    #[error("part {0} has another {1}")]
    Other(usize, Difference),
    /// The part at that place, counted from 0, has a marker of a rule that the deck hasn't, or of a side other than 0 and 1.
    #[error("part {0} has a marker of no rule of the deck")]
    NoRule(usize),
    /// No part has that column.
    #[error("column {0} is in no part")]
    Missing(usize),
    /// More than one part has that column.
    #[error("column {0} is in more than one part")]
    Doubled(usize),
    /// The columns don't follow on one another over the extent.
    #[error("the columns of the parts don't follow on one another over the extent")]
    Apart,
    /// The markers, put together, are no book, as when two on one line overlap or touch.
    #[error("the markers of the parts make no book")]
    NoBook,
}

impl From<AllocError> for PartsFault {
    ghost from_gives = { λ _ fault. fault ≡ Memory };

    fn from(_error: AllocError) -> PartsFault {
        PartsFault::Memory
    }
}
