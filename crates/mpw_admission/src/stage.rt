//! What a connection is read for: a line, or the payload that belongs to it.
ghost use Rattle.std.specs.Prelude.{◌≡◌};
ghost use Rattle.mpw_admission.specs.Stage.{is_line, is_payload, is_rest, stage_after, stage_with};

/// What a connection is read for.
#[derive(Clone, Copy)]
pub enum Stage {
    /// For the first byte of a line.
    Rest,
    /// For the rest of a line.
    Line,
    /// For a payload, of which so many bytes have come.
    Payload(u64),
}

impl Stage {
    /// What it is read for after one more byte. A line feed ends a line, and what follows before the reply is its payload.
    pub fn after(self, byte: u8) -> Stage
        ensures { result ≡ stage_after self byte }
    {
        match self {
            Stage::Payload(bytes) => Stage::Payload(bytes.saturating_add(1)),
            _ if byte == b'\n' => Stage::Payload(0),
            _ => Stage::Line,
        }
    }

    /// What it is read for after so many more bytes, if they are of a payload. A line stays as it is.
    pub fn with(self, more: u64) -> Stage
        ensures { result ≡ stage_with self more }
    {
        match self {
            Stage::Payload(bytes) => Stage::Payload(bytes.saturating_add(more)),
            stage => stage,
        }
    }

    /// Whether it is read for the first byte of a line.
    pub fn is_rest(self) -> bool
        ensures { result ≡ is_rest self }
    {
        matches!(self, Stage::Rest)
    }

    /// Whether it is read for the rest of a line.
    pub fn is_line(self) -> bool
        ensures { result ≡ is_line self }
    {
        matches!(self, Stage::Line)
    }

    /// Whether it is read for a payload.
    pub fn is_payload(self) -> bool
        ensures { result ≡ is_payload self }
    {
        matches!(self, Stage::Payload(_))
    }
}
