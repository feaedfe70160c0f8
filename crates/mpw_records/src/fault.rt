//! The faults of a GDSII text.
ghost use Rattle.std.specs.Prelude.{◌≡◌, Some};
ghost use Rattle.mpw_records.specs.Words.{code_word, fault_text};

use std::error::Error;
use std::fmt;

/// The kind of a fault of a record, an element or a library.
#[derive(Clone, Copy, PartialEq, Eq)]
pub enum Code {
    /// A record passes the end of the text, or the text ends before ENDLIB.
    Short,
    /// A record's length is odd or below 4.
    BadLength,
    /// A record's data type isn't that of its record type.
    BadType,
    /// A record is in a position that the grammar doesn't allow.
    Unexpected,
    /// A record has too much or too little data.
    BadSize,
    /// A name is empty, too long, or has a byte outside 21 to 7E hex.
    BadName,
    /// The database unit isn't one of 1 to 1000 nm.
    Unit,
    /// A magnification isn't 1.
    Magnification,
    /// An angle isn't a multiple of 90 degrees from -360 to 360.
    Angle,
    /// An edge is neither horizontal nor vertical.
    NotManhattan,
    /// A path's type is neither 0 nor 2 nor 4.
    RoundPath,
    /// A path's width is odd.
    OddWidth,
    /// All points of a path are equal.
    PointPath,
    /// An array's columns or rows are fewer than 1.
    Columns,
    /// An array's step isn't a whole number of nm.
    Pitch,
    /// Two structures have the same name.
    DoubleName,
    /// An angle is absolute.
    Absolute,
}

impl Code {
    /// The code's word.
    #[tactic(auto, unfolding(crate::specs::Words::code_word))]
    fn word(self) -> &'static str
        ensures { result.now ≡ code_word self }
    {
        match self {
            Code::Short => "short",
            Code::BadLength => "badlength",
            Code::BadType => "badtype",
            Code::Unexpected => "unexpected",
            Code::BadSize => "badsize",
            Code::BadName => "badname",
            Code::Unit => "unit",
            Code::Magnification => "mag",
            Code::Angle => "angle",
            Code::NotManhattan => "notmanhattan",
            Code::RoundPath => "roundpath",
            Code::OddWidth => "oddwidth",
            Code::PointPath => "pointpath",
            Code::Columns => "columns",
            Code::Pitch => "pitch",
            Code::DoubleName => "doublename",
            Code::Absolute => "absolute",
        }
    }
}

impl fmt::Display for Code {
    ghost output = { λ code. Some (code_word code) };

    fn fmt<W: fmt::Write>(&self, f: &mut fmt::Formatter<W>) -> fmt::Result {
        f.write_str(self.word())
    }
}

impl fmt::Debug for Code {
    fn fmt<W: fmt::Write>(&self, f: &mut fmt::Formatter<W>) -> fmt::Result {
        f.write_str(self.word())
    }
}

impl Error for Code {}

/// A fault, and the offset in bytes of the record that has it. If no byte is left, the offset is
/// the number of bytes.
#[derive(Clone, Copy, Debug, PartialEq, Eq)]
pub struct ReadFault {
    /// The first test that the record fails.
    pub code: Code,
    /// In bytes from the text's front: the offset of the record, or the number of bytes if none is left.
    pub offset: usize,
}

impl fmt::Display for ReadFault {
    ghost output = { λ fault. Some (fault_text fault) };

    #[tactic(auto, unfolding(crate::specs::Words::fault_text))]
    fn fmt<W: fmt::Write>(&self, f: &mut fmt::Formatter<W>) -> fmt::Result {
        let ReadFault { code, offset } = *self;
        write!(f, "{code} at byte {offset}")
    }
}

impl Error for ReadFault {}
