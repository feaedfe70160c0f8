//! The entries of contents: shapes and arrays of instances. All coordinates are those of the submission's top, in nm.

use mpw_geom::{Box2, Placing, Point};

/// A shape, placed.
#[derive(Clone, Copy)]
pub struct Shape {
    /// The index of its structure in the library.
    pub structure: usize,
    /// Its index among the structure's elements.
    pub element: usize,
    /// The placing from the structure's coordinates to those of the top.
    pub placing: Placing,
    /// Its box: the shape misses each window that the box misses. `None` if its coordinates are too large to be placed, so that
    /// any window may touch it.
    pub area: Option<Box2>,
}

/// Instances of a structure in columns and rows. A single instance is an array of one column and one row.
#[derive(Clone, Copy)]
pub struct Array {
    /// The index of the structure in the library.
    pub structure: usize,
    /// The index of the structure's node among those of the submission.
    pub node: usize,
    /// The placing of the instance in the first column and the first row.
    pub first: Placing,
    /// The number of columns.
    pub columns: u16,
    /// The number of rows.
    pub rows: u16,
    /// The displacement from one column to the next.
    pub column_step: Point,
    /// The displacement from one row to the next.
    pub row_step: Point,
}

/// An entry of contents.
#[derive(Clone, Copy)]
pub enum Thing {
    /// A shape.
    Shape(Shape),
    /// An array of instances.
    Array(Array),
}
