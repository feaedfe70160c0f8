//! The law of secrecy: what a session learns from its own listings, and from requests to waive or to sign, depends on its view alone.
//!
//! The view of a session is what it may know of a desk:
//! - its user, with the active and the authorized roles, and what these may do;
//! - of each cell that it may read, the present submission, with those of its shapes that come from cells that it may read;
//! - how far the run is, with its number;
//! - of a finished run, the full markers, each with the cells that it touches, those of which the user submitted what it touches, and its
//!   waiver; and for each rule its name and the count of its masked markers.
//!
//! If a connection's sessions on two desks have the same view, the desks give the same answers to `whoami`, `cells`, `shapes`, `status`,
//! `markers`, `waivers`, `waive` and `sign`, whatever else they have. The conditions are that neither desk is closed or at its limit, and
//! that both or neither store each change. The views are the same after them.
//!
//! Two requests show more than the view, each to sessions with a permission of its own: `verdict` counts all markers, and `trail` shows the
//! requests of all users.
//!
//! A second law holds of every state of a desk: the signer of a waiver neither asked for it nor submitted what its marker touches. A third
//! is about the verdict: a wafer with the verdict `clean` may start ([`clean_wafers_may_start`]).
#![tactic(auto)]

mod laws;

pub use laws::{
    clean_wafers_may_start, desks_of_equal_views_answer_alike, equal_views_give_equal_answers,
    equal_views_give_equal_listings, every_state_is_signed_apart,
};
