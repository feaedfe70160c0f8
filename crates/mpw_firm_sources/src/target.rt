//! What a message is about.

use mpw_geom::Name;

/// What a refusal is about: the library's file, and the structure.
#[derive(Clone, Copy, Drop)]
pub struct Target<'a> {
    /// The name of the library's file.
    pub file: &'a str,
    /// The structure that is checked.
    pub top: &'a Name,
}
