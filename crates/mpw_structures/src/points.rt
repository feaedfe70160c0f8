//! The points of an element.

ghost use Rattle.std.specs.Prelude.{◌≡◌, ◌↔◌, ◌+◌, ◌*◌, ◌<◌, ◌≤◌, length, drop, slice_index_or, IfOk, IsTrue};
ghost use Rattle.mpw_structures.specs.Coordinates.{no_point};

use crate::coordinates::{Coordinates, POINT, Text};
use mpw_geom::Point;
use std::alloc::{AllocError, Global};
use std::marker::Model;
use std::sync::Arc;

/// The points of an element in file order, in nm. If the text from which they were read has exactly these points, they stay in it and
/// take 16 bytes, whatever their number. Otherwise they are in their own allocation.
pub struct Points {
    source: Arc<Coordinates>,
    /// Where they begin in a text.
    at: u32,
    /// How many points are in the text.
    count: u32,
}

impl Drop for Points {
    fn drop(self) {
        let Points {
            source,
            at: _,
            count: _,
        } = self;
        drop(source);
    }
}

impl Model for Points {
    ghost use Rattle.std.specs.Prelude.{List};
    ghost use Rattle.mpw_geom.specs.declared.plane.Point.{Point};
    ghost use Rattle.mpw_structures.specs.Internal.Coordinates.{points_in, Fits};

    ghost Value = { List Point };

    ghost view = { λ a. points_in a.source.value a.at a.count };

    ghost invariant = { λ a. Fits a.source.value a.at a.count };
}

impl Points {
    /// The points of a vector. The only error is out of memory.
    pub fn from_vec(alloc: Global, points: Vec<Point>) -> Result<Points, AllocError>
        ensures { IfOk result (λ found. found ≡ points.items) }
    {
        Ok(Points {
            source: Arc::new(alloc, Coordinates::Own(points))?,
            at: 0,
            count: 0,
        })
    }

    /// How many there are.
    pub fn len(&self) -> usize
        ensures { result ≡ length self.now }
    {
        match &*self.source {
            Coordinates::Shared(_) => self.count as usize,
            Coordinates::Own(points) => points.len(),
        }
    }

    /// The point at an index, in constant time.
    pub fn at(&self, index: usize) -> Point
        requires { index < length self.now }
        ensures { result ≡ slice_index_or self.now index no_point }
    {
        match &*self.source {
            Coordinates::Shared(text) => text.point(self.at as usize + POINT * index),
            Coordinates::Own(points) => points[index],
        }
    }

    /// All of them, as a view.
    pub fn view(&self) -> PointsView<'_>
        ensures { result ≡ self.now }
    {
        PointsView {
            points: self,
            from: 0,
            count: self.len(),
        }
    }

    /// The points in a vector. The only error is out of memory.
    pub fn to_vec(&self, alloc: Global) -> Result<Vec<Point>, AllocError>
        ensures { IfOk result (λ points. points.items ≡ self.now) }
    {
        let count = self.len();
        let mut points = Vec::with_capacity(alloc, count)?;
        for index in 0..count {
            points.push(self.at(index))?;
        }
        Ok(points)
    }

    /// The same points, in constant time and without more memory.
    ///
    /// # Errors
    /// If no more copies can be counted.
    pub fn copy(&self) -> Result<Points, AllocError>
        ensures { IfOk result (λ points. points ≡ self.now) }
    {
        Ok(Points {
            source: self.source.clone()?,
            at: self.at,
            count: self.count,
        })
    }

    /// Whether the lists have the same points in the same order. Stops at the first difference, and takes no memory.
    pub fn is_same(&self, other: &Points) -> bool
        ensures { IsTrue result ↔ (self.now ≡ other.now) }
    {
        if self.len() != other.len() {
            return false;
        }
        for index in 0..self.len() {
            if self.at(index) != other.at(index) {
                return false;
            }
        }
        true
    }
}

/// The points of an element from an index on. Contracts see them as a list.
#[derive(Drop)]
pub struct PointsView<'a> {
    points: &'a Points,
    /// How many points come before these.
    from: usize,
    /// How many points the element has.
    count: usize,
}

impl<'a> Model for PointsView<'a> {
    ghost use Rattle.std.specs.Prelude.{List, drop};
    ghost use Rattle.mpw_structures.specs.Internal.Coordinates.{IsFrom};
    ghost use Rattle.mpw_geom.specs.declared.plane.Point.{Point};

    ghost Value = { List Point };

    ghost view = { λ a. drop a.from a.points.now };

    ghost invariant = { λ a. IsFrom a.from a.count a.points.now };
}

impl<'a> PointsView<'a> {
    /// How many there are.
    pub fn len(&self) -> usize
        ensures { result ≡ length self.now }
    {
        self.count - self.from
    }

    /// The point at an index, in constant time.
    pub fn at(&self, index: usize) -> Point
        requires { index < length self.now }
        ensures { result ≡ slice_index_or self.now index no_point }
    {
        self.points.at(self.from + index)
    }

    /// The points after the first.
    pub fn behind(self) -> PointsView<'a>
        requires { 1 ≤ length self }
        ensures { result ≡ drop 1 self.entry }
    {
        PointsView {
            points: self.points,
            from: self.from + 1,
            count: self.count,
        }
    }
}

/// A text of GDSII Stream, in which the points of elements can stay. Contracts see its bytes. Copies share memory.
pub struct SharedText {
    source: Arc<Coordinates>,
}

impl Drop for SharedText {
    fn drop(self) {
        let SharedText { source } = self;
        drop(source);
    }
}

impl Model for SharedText {
    ghost use Rattle.std.specs.Prelude.{ℕ, List};
    ghost use Rattle.mpw_structures.specs.Internal.Coordinates.{bytes_in, HasUnit};

    ghost Value = { List ℕ };

    ghost view = { λ a. bytes_in a.source.value };

    ghost invariant = { λ a. HasUnit a.source.value };
}

impl SharedText {
    /// A text whose database unit is `unit` nm.
    ///
    /// # Errors
    /// Out of memory, or if no more copies can be counted.
    pub fn new(alloc: Global, bytes: &Arc<Vec<u8>>, unit: u16) -> Result<SharedText, AllocError>
        requires { unit ≤ 1000 }
        ensures { IfOk result (λ text. text ≡ bytes.now.value.items) }
    {
        let bytes = bytes.clone()?;
        Ok(SharedText {
            source: Arc::new(alloc, Coordinates::Shared(Text { bytes, unit }))?,
        })
    }

    /// These points. They stay in the text if it has exactly these from a byte on; otherwise they are in their own allocation. Cost: linear
    /// in the points.
    ///
    /// # Errors
    /// Out of memory, or if no more copies can be counted.
    pub fn points(&self, alloc: Global, at: usize, points: Vec<Point>) -> Result<Points, AllocError>
        ensures { IfOk result (λ found. found ≡ points.items) }
    {
        let place = match &*self.source {
            Coordinates::Shared(text) => text.place(at, &points),
            Coordinates::Own(_) => None,
        };
        match place {
            Some(place) => Ok(Points {
                source: self.source.clone()?,
                at: place.at,
                count: place.count,
            }),
            None => Points::from_vec(alloc, points),
        }
    }
}
