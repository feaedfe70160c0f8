//! What the words of a command line ask `mpw check` and `mpw stitch` for.
//!
//! [`read_options`] reads them: a check by its [`Options`], parts by their [`StitchOptions`], or a text. `specs/Given.antt` says what is taken
//! of a command line's values, and `specs/Commands.antt` which command the words ask for.
#![tactic(auto)]

mod choices;
mod options;
mod out_file;
mod picture_options;
mod stitch_options;

pub use choices::{Choices, Portion};
pub use options::{Asked, Options, Telling, read_options};
pub use picture_options::Wanted;
pub use stitch_options::StitchOptions;
