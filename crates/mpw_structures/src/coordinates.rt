//! Coordinates, in a text of GDSII Stream or in their own allocation.

ghost use Rattle.std.specs.Prelude.{◌≡◌, ◌+◌, ◌*◌, ◌<◌, ◌≤◌, ◌^◌, unsigned_abs, length, IfSome, IsTrue};
ghost use Rattle.mpw_structures.specs.Coordinates.{scaled, point_from};
ghost use Rattle.mpw_structures.specs.Internal.Coordinates.{ArePoints};

use byteorder::{BigEndian, ByteOrder};
use mpw_geom::Point;
use std::sync::Arc;

/// The bytes of a coordinate (GDSII Stream release 6, four-byte signed integer).
const NUMBER: usize = 4;
/// The bytes of a point.
pub(crate) const POINT: usize = 8;

/// A four-byte signed number of database units, in nm.
#[tactic(auto, unfolding(crate::specs::Coordinates::scaled))]
pub fn scale(unit: u16, bytes: &[u8]) -> i64
    requires unit { unit ≤ 1000 }
    requires bytes { 4 ≤ length bytes.now }
    ensures value { result ≡ scaled unit bytes.now }
    ensures bound { unsigned_abs result < 2 ^ 42 }
{
    i64::from(BigEndian::read_i32(bytes)) * i64::from(unit)
}

/// A text from which points are read.
#[derive(Drop)]
pub(crate) struct Text {
    pub bytes: Arc<Vec<u8>>,
    /// The database unit in nm.
    pub unit: u16,
}

impl Text {
    /// The point that begins at a byte.
    pub fn point(&self, at: usize) -> Point
        requires unit { self.now.unit ≤ 1000 }
        requires there { at + 8 ≤ length self.now.bytes.value.items }
        ensures { result ≡ point_from self.now.unit self.now.bytes.value.items at }
    {
        let bytes = self.bytes.as_slice();
        let y = at + NUMBER;
        Point {
            x: scale(self.unit, &bytes[at..]),
            y: scale(self.unit, &bytes[y..]),
        }
    }

    /// Whether the text has exactly these points from a byte on.
    fn has(&self, at: usize, points: &[Point]) -> bool
        requires { self.now.unit ≤ 1000 }
        ensures { IsTrue result → ArePoints self.now at (length points.now) points.now }
    {
        let length = self.bytes.len();
        if length < at || (length - at) / POINT < points.len() {
            return false;
        }
        for index in 0..points.len() {
            if self.point(at + POINT * index) != points[index] {
                return false;
            }
        }
        true
    }

    /// The position of these points in the text, if it has them from a byte on.
    pub fn place(&self, at: usize, points: &[Point]) -> Option<Place>
        requires { self.now.unit ≤ 1000 }
        ensures { IfSome result (λ place. ArePoints self.now place.at place.count points.now) }
    {
        let place = Place {
            at: u32::try_from(at).ok()?,
            count: u32::try_from(points.len()).ok()?,
        };
        if !self.has(at, points) {
            return None;
        }
        Some(place)
    }
}

/// The position of points in a text.
#[derive(Clone, Copy)]
pub(crate) struct Place {
    /// The offset of the first byte.
    pub at: u32,
    /// The number of points.
    pub count: u32,
}

/// Where points are stored.
#[derive(Drop)]
pub(crate) enum Coordinates {
    /// In a text, one after the other.
    Shared(Text),
    /// In their own allocation.
    Own(Vec<Point>),
}
