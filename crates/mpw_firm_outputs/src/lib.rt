//! Where `mpw check` and `mpw stitch` write, and the texts that they write.
//!
//! [`put`] writes a [`Text`] and puts it into its place, whole and at once: it goes over any [`Outputs`], of which contracts see
//! what was put where. [`put_listing`] does the same with the listing of all markers, whose lines all threads make. [`Host`] are a process's
//! own: its standard output, and files that are written beside their places and renamed. [`apart`] refuses an output that is an input or
//! another output. [`rule_counts`] is how many markers each rule has, and [`Counts`] are such numbers, as [`Text::Counts`] prints them.
//! [`left_out_text`] says of which rules a limit leaves markers out.
#![tactic(auto)]

mod host;
mod listed;
mod outputs;
mod spot;
mod summary;
mod texts;
mod uses;

pub use host::{Host, Space};
pub use listed::put_listing;
pub use outputs::{Draft, Outputs, Place, put};
pub use spot::FileSpot;
pub use summary::{Counts, left_out_text, rule_counts};
pub use texts::{Text, Writer};
pub use uses::{Use, apart};
