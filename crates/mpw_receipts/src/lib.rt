//! The register of all calls of a desk, and the receipts of each connection. They show that the history has what a connection was answered.
//!
//! A [`Register`] has all calls, in their order. It is next to the history, where one thread at a time adds a call. [`Receipts`] have the
//! number of a connection and the calls of that connection alone. They belong to the thread that serves it, outside any lock.
//! [`Register::add_own`] adds a call to both, and nothing else adds to receipts. So at the end it is enough to [compare](Register::compare)
//! receipts with the register: they are then the register's calls of their number, in their order, each once.
//!
//! Calls exist here in the proofs alone: none is copied, stored or read. A register takes one word of memory, whatever the number of calls,
//! and receipts take none. Each operation costs at most three loads of that word and one compare-exchange, and waits for nothing.
//!
//! Register and receipts are seats of one `atomic_table`. What a seat knows is its view. Only a move of that seat changes it. The table's
//! rule says that all views are parts of one whole. To change what is known, begin with the rule (`rule.rt`), go on to the move
//! (`moves.rt`), and then show that it preserves the rule (`proofs/`).
#![tactic(auto)]

mod laws;
mod moves;
mod owner;
mod recorded;
mod register;
mod rule;

pub use laws::{calls_are_added_to_their_owner, receipts_are_calls_in_order};
pub use recorded::{Naming, Recorded};
pub use register::{Opened, Receipts, Register};
