//! One number of many, which another order or another number changes.

use mpw_geom::{Layer, Name, Point};
use mpw_structures::Points;

/// The sum so far: each number is added to 1,000,003 times the sum before it, modulo 2^64.
#[derive(Clone, Copy)]
pub struct Sum {
    value: u64,
}

impl Sum {
    /// The sum of no number.
    pub fn new() -> Sum {
        Sum { value: 0 }
    }

    /// Adds a number.
    pub fn add(&mut self, number: u64) {
        self.value = self.value.wrapping_mul(1_000_003).wrapping_add(number);
    }

    /// A number that may be below 0, modulo 2^64.
    pub fn add_signed(&mut self, number: i64) {
        self.add(u64::from_be_bytes(number.to_be_bytes()));
    }

    /// Adds a count.
    pub fn add_count(&mut self, count: usize) {
        self.add(count as u64);
    }

    /// The number of a name's bytes, and each of them.
    pub fn add_name(&mut self, name: &Name) {
        self.add_count(name.as_bytes().len());
        for byte in name.as_bytes() {
            self.add(u64::from(*byte));
        }
    }

    /// A layer and its datatype.
    pub fn add_layer(&mut self, layer: Layer) {
        self.add(u64::from(layer.layer));
        self.add(u64::from(layer.datatype));
    }

    /// Both coordinates.
    pub fn add_point(&mut self, point: Point) {
        self.add_signed(point.x);
        self.add_signed(point.y);
    }

    /// The number of points, and each of them.
    pub fn add_points(&mut self, points: &Points) {
        self.add_count(points.len());
        for index in 0..points.len() {
            self.add_point(points.at(index));
        }
    }

    /// The sum.
    pub fn value(self) -> u64 {
        self.value
    }
}
