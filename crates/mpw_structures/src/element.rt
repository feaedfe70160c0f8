//! The elements of a structure: shapes and references.

ghost use Rattle.std.specs.Prelude.{◌≡◌, ◌↔◌, IfOk, IsTrue};

use crate::boxed::Boxed;
use crate::points::Points;
use mpw_geom::{Layer, Name, Orient, Point};
use mpw_lists::Same;
use std::alloc::{AllocError, Global};

/// A polygon by its corners in file order, without the closing point (GDSII Stream, BOUNDARY and
/// BOX). Other repeated points stay. The edge from the last corner to the first is implied.
pub struct Boundary {
    /// Its layer with its datatype, or with its BOXTYPE for a BOX.
    pub layer: Layer,
    /// The corners, at least one, in nm.
    pub points: Points,
}

impl Drop for Boundary {
    fn drop(self) {
        let Boundary { layer: _, points } = self;
        drop(points);
    }
}

/// A wire along a centre line (GDSII Stream, PATH). Consecutive equal points are merged.
pub struct Path {
    /// Its layer with its datatype.
    pub layer: Layer,
    /// The whole width in nm, even; 0 if none was given.
    pub width: i64,
    /// The extension of the first segment backwards, in nm. It may be negative.
    pub begin: i64,
    /// The extension of the last segment forwards, in nm. It may be negative.
    pub end: i64,
    /// The points of the centre line in file order, in nm: at least two, each different from the one before.
    pub points: Points,
}

impl Drop for Path {
    fn drop(self) {
        let Path {
            layer: _,
            width: _,
            begin: _,
            end: _,
            points,
        } = self;
        drop(points);
    }
}

/// Places a structure, once or in rows and columns (GDSII Stream, SREF and AREF).
pub struct Reference {
    /// The structure that is placed.
    pub name: Name,
    /// How each instance is mirrored and turned, about the structure's own origin.
    pub orient: Orient,
    /// The position of the structure's origin in the first column of the first row, in nm.
    pub origin: Point,
    /// The number of columns, 1 to 32767; 1 for a single instance.
    pub columns: u16,
    /// The number of rows, 1 to 32767; 1 for a single instance.
    pub rows: u16,
    /// The step from one column to the next, in nm; zero for a single instance.
    pub column_step: Point,
    /// The step from one row to the next, in nm; zero for a single instance.
    pub row_step: Point,
}

impl Drop for Reference {
    fn drop(self) {
        let Reference {
            name,
            orient: _,
            origin: _,
            columns: _,
            rows: _,
            column_step: _,
            row_step: _,
        } = self;
        drop(name);
    }
}

/// An element of a structure.
#[derive(Drop)]
pub enum Element {
    /// A BOUNDARY or a BOX.
    Boundary(Boundary),
    /// A PATH.
    Path(Boxed<Path>),
    /// An SREF or an AREF. It has no shape of its own.
    Reference(Boxed<Reference>),
}

impl Boundary {
    /// The same boundary, which shares its points.
    ///
    /// # Errors
    /// If no more copies can be counted.
    pub fn copy(&self) -> Result<Boundary, AllocError>
        ensures { IfOk result (λ boundary. boundary ≡ self.now) }
    {
        let layer = self.layer;
        let points = self.points.copy()?;
        Ok(Boundary { layer, points })
    }

    /// Whether the boundaries have the same layer and the same points, in order. Cost: linear in the points, up to the first
    /// difference. Takes no memory.
    pub fn is_same(&self, other: &Boundary) -> bool
        ensures { IsTrue result ↔ (self.now ≡ other.now) }
    {
        self.layer == other.layer && self.points.is_same(&other.points)
    }
}

impl Path {
    /// The same path, which shares its points.
    ///
    /// # Errors
    /// If no more copies can be counted.
    pub fn copy(&self) -> Result<Path, AllocError>
        ensures { IfOk result (λ path. path ≡ self.now) }
    {
        Ok(Path {
            layer: self.layer,
            width: self.width,
            begin: self.begin,
            end: self.end,
            points: self.points.copy()?,
        })
    }

    /// Whether the paths have the same layer, width, ends and points, in order. Cost: linear in the points, up to the first
    /// difference. Takes no memory.
    pub fn is_same(&self, other: &Path) -> bool
        ensures { IsTrue result ↔ (self.now ≡ other.now) }
    {
        self.layer == other.layer
            && self.width == other.width
            && self.begin == other.begin
            && self.end == other.end
            && self.points.is_same(&other.points)
    }
}

impl Reference {
    /// The same reference. The only error is out of memory.
    pub fn copy(&self) -> Result<Reference, AllocError>
        ensures { IfOk result (λ reference. reference ≡ self.now) }
    {
        Ok(Reference {
            name: self.name.copy()?,
            orient: self.orient,
            origin: self.origin,
            columns: self.columns,
            rows: self.rows,
            column_step: self.column_step,
            row_step: self.row_step,
        })
    }

    /// Whether the references place a structure with the same name, in the same orientation and at the same origin.
    fn is_placed_alike(&self, other: &Reference) -> bool
        ensures { IsTrue result ↔ ((self.now.name ≡ other.now.name) × (self.now.orient ≡ other.now.orient) × (self.now.origin ≡ other.now.origin)) }
    {
        self.name == other.name && self.orient == other.orient && self.origin == other.origin
    }

    /// Whether the references have as many columns and rows, with the same steps.
    fn has_same_array(&self, other: &Reference) -> bool
        ensures { IsTrue result ↔ ((self.now.columns ≡ other.now.columns) × (self.now.rows ≡ other.now.rows) × (self.now.column_step ≡ other.now.column_step) × (self.now.row_step ≡ other.now.row_step)) }
    {
        self.columns == other.columns
            && self.rows == other.rows
            && self.column_step == other.column_step
            && self.row_step == other.row_step
    }

    /// Whether the references place a structure with the same name in the same way. Takes no memory.
    pub fn is_same(&self, other: &Reference) -> bool
        ensures { IsTrue result ↔ (self.now ≡ other.now) }
    {
        self.is_placed_alike(other) & self.has_same_array(other)
    }
}

impl Element {
    /// The same element. The only error is out of memory, or that no more copies can be counted.
    pub fn copy(&self, alloc: Global) -> Result<Element, AllocError>
        ensures { IfOk result (λ element. element ≡ self.now) }
    {
        match self {
            Element::Boundary(boundary) => Ok(Element::Boundary(boundary.copy()?)),
            Element::Path(path) => Ok(Element::Path(Boxed::new(alloc, path.get().copy()?)?)),
            Element::Reference(reference) => {
                let copy = reference.get().copy()?;
                Ok(Element::Reference(Boxed::new(alloc, copy)?))
            }
        }
    }
}

impl Same for Element {
    /// Whether the elements are the same. Cost: linear in the points, up to the first difference. Takes no memory.
    fn is_same(&self, other: &Element) -> bool {
        match (self, other) {
            (Element::Boundary(a), Element::Boundary(b)) => a.is_same(b),
            (Element::Path(a), Element::Path(b)) => a.get().is_same(b.get()),
            (Element::Reference(a), Element::Reference(b)) => a.get().is_same(b.get()),
            _ => false,
        }
    }
}
