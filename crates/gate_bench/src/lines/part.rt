//! The lines of a connection, and its replies.

use std::alloc::{AllocError, Global};

/// The lines of a connection.
#[derive(Drop)]
pub struct Part {
    /// The connection's number.
    pub connection: u32,
    /// Its name in the table of times.
    pub name: String,
    /// The lines, each with its line feed.
    pub text: String,
    /// How many lines the text has.
    pub lines: usize,
}

impl Part {
    /// A connection without lines.
    pub fn new(alloc: Global, connection: u32, name: &str) -> Result<Part, AllocError> {
        Ok(Part {
            connection,
            name: String::from_str(alloc, name)?,
            text: String::new(alloc),
            lines: 0,
        })
    }

    /// Adds a line.
    pub fn push(&mut self, line: &str) -> Result<(), AllocError> {
        self.text.push_str(line)?;
        self.text.push_str("\n")?;
        self.lines = self.lines.saturating_add(1);
        Ok(())
    }
}

/// How many of the replies' lines begin like those of accepted requests.
pub fn accepted(replies: &str) -> usize {
    let mut accepted = 0usize;
    for line in replies.lines() {
        accepted = accepted.saturating_add(usize::from(line.starts_with("OK ")));
    }
    accepted
}
