//! Writes replies as lines of text.
//!
//! [`write_reply`] writes the text of a reply, and [`write_refusal`] that of a refusal of a line. They take no memory: a reply gives its
//! lines one by one, and each is written at once. [`write_bytes`], [`write_parts`] and [`flush`] write other texts to the same sinks.
#![tactic(auto)]

mod first_line;
mod key;
mod markers;
mod reply;
mod reply_line;
mod shape;
mod trail;
mod write;

pub use mpw_requests::axis_letter;
pub use reply::{LineRefusal, replies_begin_with_their_first_lines, write_refusal, write_reply};
pub use write::{flush, write_bytes, write_parts};
