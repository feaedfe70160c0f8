//! The contents of a store, for an audit: its rows as a table, a row's payload, and whether every row is valid.
//!
//! No desk is made from the rows. So an auditor needs no officer, and learns what was accepted, by which connection, in which order. Only
//! reopening the store shows that a desk accepts the rows.
#![tactic(auto)]

mod checked;
mod fault;
mod listed;
mod payload;
mod row_text;

pub use checked::check_rows;
pub use fault::ListingFault;
pub use listed::{write_head, write_rows};
pub use payload::payload_at;
