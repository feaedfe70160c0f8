//! Small GDSII libraries for golden tests, built record by record or by a short notation ([`text_of_library`]).
//!
//! A [`Sample`] begins with a unit, takes structures with their elements, and returns its bytes:
//! ```text
//! let mut text = Sample::new(alloc, NANOMETRE)?;
//! text.begin("TOP")?;
//! text.boundary(1, 0, &[(0, 0), (10, 0), (10, 20), (0, 20), (0, 0)])?;
//! text.place("PAD", 5, 5)?;
//! text.end()?;
//! let bytes = text.finish()?;
//! ```
//! Every call adds its records whole, or changes nothing.
#![tactic(auto)]

mod coded;
mod encode;
mod error;
mod notation;
mod record;
mod references;
mod sample;
mod shapes;
mod words;

pub use error::SampleError;
pub use notation::text_of_library;
pub use sample::{NANOMETRE, Sample};
pub use words::{NotationError, hex_bytes};
