//! Shows what no clause says of the policy: a table of requests, and the role masks compared with a plain search.
mod hierarchies;
mod sessions;
mod sets;

use mpw_geom::Name;
use std::alloc::{AllocError, Global};
use std::io;

/// The name of a text that is known to be one.
fn name(alloc: Global, text: &str) -> Result<Name, AllocError> {
    match Name::read(alloc, text.as_bytes()) {
        Ok(name) => Ok(name),
        Err(_) => Err(AllocError),
    }
}

/// The name of a role with a number.
fn role_name(alloc: Global, number: usize) -> Result<Name, AllocError> {
    let text = format!(in alloc; "r{number}")?;
    name(alloc, text.as_str())
}

/// Shows what the policy answers.
pub(crate) fn run(rt: &HostRuntime) -> io::Result<()> {
    sets::show(rt)?;
    sessions::show(rt)?;
    hierarchies::show(rt)
}
