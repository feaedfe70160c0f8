//! Laws of waivers that none of the desk's calls needs: who asks for one and who signs it, and that each happens once.
//!
//! [`ask_once`] and [`sign_once`] make the two calls of a request, the test and the change, one after the other. The laws do nothing. Their
//! contracts speak of the decision tables of requests. No program links this crate.
#![tactic(auto)]

mod calls;
mod laws;

pub use calls::{ask_once, sign_once};
pub use laws::{
    asked_exactly, askers_stay, second_askers_are_refused, second_signatures_are_refused,
    signatures_stay, signed_exactly,
};
