//! What may end the decision table of a request of the layouts.
ghost use Rattle.std.specs.Prelude.{◌≡◌};

use mpw_geom::Name;
use mpw_permissions::{Object, Operation};
use mpw_replies::{Ending, Ends};
use mpw_trail::{Code, Denial};

/// What may end the decision table of a request of the layouts.
#[derive(Drop)]
pub enum LayoutEnding {
    /// A refusal, by its code.
    Refused(Code),
    /// A library that uses this cell, which the session may not use.
    Unusable(Name),
}

impl Ends for LayoutEnding {
    ghost use Rattle.mpw_layouts.specs.Layouts.{ending_of};

    ghost ending = { ending_of };

    fn ending(self) -> Ending {
        match self {
            LayoutEnding::Refused(why) => Ending::Refused(why),
            LayoutEnding::Unusable(cell) => {
                Ending::Denied(Denial::Permission(Operation::Use, Object::Cell(cell)))
            }
        }
    }
}
