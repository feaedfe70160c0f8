//! What may end the decision table of a sign-off request.
ghost use Rattle.std.specs.Prelude.{◌≡◌};

use mpw_geom::Name;
use mpw_replies::{Ending, Ends};
use mpw_trail::{Code, Denial};

/// What may end the decision table of a sign-off request.
#[derive(Drop)]
pub enum SignOffEnding {
    /// A refusal, by its code.
    Refused(Code),
    /// The user submitted this cell, which the marker touches.
    Submitter(Name),
    /// The user asked for the waiver.
    Asker,
}

impl Ends for SignOffEnding {
    ghost use Rattle.mpw_signoff.specs.SigningOff.{ending_of};

    ghost ending = { ending_of };

    fn ending(self) -> Ending {
        match self {
            SignOffEnding::Refused(why) => Ending::Refused(why),
            SignOffEnding::Submitter(cell) => Ending::Denied(Denial::Submitter(cell)),
            SignOffEnding::Asker => Ending::Denied(Denial::Asker),
        }
    }
}
