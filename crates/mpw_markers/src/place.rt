//! The position of a marker in a book's order, as numbers that can be compared.

ghost use Rattle.std.specs.Prelude.{◌≡◌};
ghost use Rattle.mpw_markers.specs.Internal.Places.{axis_place, place_of};

use crate::marker::Key;
use mpw_edges::Axis;

/// A line as numbers in the order of lines: axis 0 is `V`, and 1 is `H`.
#[derive(Clone, Copy, PartialEq, Eq, PartialOrd, Ord)]
pub(crate) struct LinePlace {
    /// The rule's index in the deck, from 0.
    pub rule: u32,
    /// 0 for vertical edges, 1 for horizontal ones.
    pub axis: u8,
    /// Which of the two kinds of pairs of a rule with two layers it is; 0 for other rules.
    pub side: u8,
    /// The first edge, in nm.
    pub x1: i64,
    /// The second edge, in nm.
    pub x2: i64,
}

/// The position of a marker in a book's order: its line and its rows.
#[derive(Clone, Copy, PartialEq, Eq, PartialOrd, Ord)]
pub(crate) struct Place {
    /// The line, which is compared first.
    pub line: LinePlace,
    /// The first row, in nm.
    pub y0: i64,
    /// The row after the last one, in nm.
    pub y1: i64,
}

/// The axis' number in the order of lines.
fn axis_place(axis: Axis) -> u8
    ensures { result ≡ axis_place axis }
{
    match axis {
        Axis::V => 0,
        Axis::H => 1,
    }
}

impl Key {
    /// The position in a book's order of a marker with this key.
    pub(crate) fn place(&self) -> Place
        ensures { result ≡ place_of self.now }
    {
        Place {
            line: LinePlace {
                rule: self.rule,
                axis: axis_place(self.piece.axis),
                side: self.piece.side,
                x1: self.piece.x1,
                x2: self.piece.x2,
            },
            y0: self.piece.y0,
            y1: self.piece.y1,
        }
    }
}
