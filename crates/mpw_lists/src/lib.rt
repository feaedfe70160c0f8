//! Values and lists that copies share, and comparison by value.
//!
//! - The copies of a [`Shared`] value share it. Contracts see that value. The copies of a [`SharedList`] share its vector. Contracts
//!   see the list of its items.
//! - Items that can be compared are [`Same`]. [`are_same`] compares slices of them.
//! - [`roomy_copy`] copies a list and leaves room for one more item.
#![tactic(auto)]

mod copies;
mod same;
mod shared;
mod value;

pub use copies::roomy_copy;
pub use same::{Same, are_same};
pub use shared::SharedList;
pub use value::Shared;
