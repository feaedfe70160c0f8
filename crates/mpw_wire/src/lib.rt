//! Reads requests from lines of text.
//!
//! A request is a line of words with one space between them. After some lines comes a payload, whose number of bytes the line gives.
//! [`parse_line`] reads such a line. [`read_request`] takes a line with its payload off a source. A token is turned into its SHA-256 digest
//! at once, and is stored nowhere.
#![tactic(auto)]

mod fault;
mod key;
mod line;
mod operand;
mod placement;
mod read;
mod request;

pub use fault::WireFault;
pub use line::MAX_LINE;
pub use operand::Origin;
pub use read::{Asked, read_request};
pub use request::{LineAsk, MAX_PAYLOAD, parse, parse_line};
