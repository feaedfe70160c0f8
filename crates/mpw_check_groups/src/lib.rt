//! Splits a check by groups of rules. The rules of a group share layers with one another, directly or by a chain, and none with the rules of other groups.
//!
//! A group is checked over its part of the layout: only the shapes on its layers. So wires of other groups don't make equal cells unequal, and
//! a structure without shapes of the group isn't visited.
//!
//! - [`groups_of`] finds the groups of a deck's rules.
//! - [`Group::part`] makes the part of a layout for a group. Its flat list is that of the layout without the shapes on other layers.
//! - [`owners_of`] finds each rule among the groups. [`joined`] joins the books of the groups' parts in the order of the rules: the result has the markers
//!   of the layout ([`groups_make_the_layout`]).
#![tactic(auto)]

mod elements;
mod group;
mod joining;
mod laws;
mod layers;
mod part;
mod shelf;

pub use group::{Group, groups_of};
pub use joining::{Owner, add_rule, joined, owners_of};
pub use laws::groups_make_the_layout;
pub use part::are_worthwhile;
