//! Bytes from which lines and payloads are taken.

/// What is left of the input.
#[derive(Drop)]
pub struct Input<'a> {
    rest: &'a [u8],
}

impl<'a> Input<'a> {
    /// The input of these bytes.
    pub fn new(rest: &'a [u8]) -> Input<'a> {
        Input { rest }
    }

    /// The next line, without its line feed; none if no line feed is left.
    pub fn line(&mut self) -> Option<&'a [u8]> {
        let end = self.rest.iter().position(|byte| *byte == b'\n')?;
        let (line, rest) = (&self.rest[..end], &self.rest[end + 1..]);
        self.rest = rest;
        Some(line)
    }

    /// That many bytes, or none if fewer are left.
    pub fn take(&mut self, count: usize) -> Option<&'a [u8]> {
        let taken = self.rest.get(..count)?;
        self.rest = self.rest.get(count..)?;
        Some(taken)
    }
}
