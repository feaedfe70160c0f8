//! The names outside a library, and the submissions to which they are bound.

use mpw_geom::Name;
use mpw_lists::{Same, SharedList};

/// A name outside a library, with the number of the submission to which it is bound.
#[derive(Drop)]
pub struct Binding {
    /// A name that the top reaches and that is no structure of the library.
    pub name: Name,
    /// The number of the submission, from 0: the present one of the cell of that name when the library was submitted.
    pub submission: u32,
}

impl Same for Binding {
    /// Whether both bindings have the same name and the same submission.
    fn is_same(&self, other: &Binding) -> bool {
        self.submission == other.submission && self.name == other.name
    }
}

/// Bindings in order. Contracts see them as a list. Copies share memory.
pub type Bindings = SharedList<Binding>;
