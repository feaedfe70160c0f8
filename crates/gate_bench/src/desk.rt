//! Makes a new desk for the benches.

use mpw_core::Core;
use mpw_geom::Name;
use mpw_requests::digest_of;
use std::alloc::{AllocError, Global};

/// A new desk of the officer `root`, whose token is `abc`. It is in a box, so that dropping it is one step.
pub fn new_desk(alloc: Global) -> Result<Box<Core>, AllocError> {
    match Name::read(alloc, b"root") {
        Ok(officer) => Core::new_boxed(alloc, officer, digest_of(b"abc")),
        Err(_) => Err(AllocError),
    }
}
