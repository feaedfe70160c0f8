//! What a name refers to in a submission, by a plain search.

use anyhow::{Result, bail};
use mpw_geom::Name;
use mpw_hier::Submission;
use mpw_structures::Structure;

/// The library's structure of the name.
pub fn own<'a>(submission: &'a Submission, name: &Name) -> Option<&'a Structure> {
    for structure in submission.library.structures() {
        if structure.name.as_str() == name.as_str() {
            return Some(structure);
        }
    }
    None
}

/// The submission that the name is bound to.
///
/// # Errors
/// It isn't bound.
pub fn bound(submission: &Submission, name: &Name) -> Result<u32> {
    for binding in submission.bound.as_slice() {
        if binding.name.as_str() == name.as_str() {
            return Ok(binding.submission);
        }
    }
    bail!("a bound name")
}
