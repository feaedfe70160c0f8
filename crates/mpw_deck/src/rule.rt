//! Rules: a check with its layers, a name and a distance.

ghost use Rattle.std.specs.Prelude.{◌≡◌, IfOk};

use mpw_geom::{Layer, Name};
use mpw_lists::Same;
use std::alloc::AllocError;

/// A check, named after the KLayout DRC reference, with its layers.
#[derive(Clone, Copy, PartialEq, Eq)]
pub enum Check {
    /// `width` of a layer: a rise, and the fall to its right if all squares between are covered.
    Width(Layer),
    /// `space` of a layer: a fall, and each rise to its right, even after other shapes.
    Space(Layer),
    /// `separation` of two layers: a fall of one, and a rise of the other at the same position or to its right. The side is the layer
    /// that falls: 0 the first, 1 the second. Touching edges count.
    Separation(Layer, Layer),
    /// `enclosing`, of the second layer by the first. Side 0: a rise of the first, and one of the second at the same position or to its right.
    /// Side 1: a fall of the second, and one of the first at the same position or to its right. Coinciding edges count.
    Enclosing(Layer, Layer),
}

/// A rule: its name, which has no colon, its check, and its distance in nm, 1 to 65535.
pub struct Rule {
    /// The name that identifies its markers. A deck that was read has no other rule with that name.
    pub name: Name,
    /// Which edges are checked, and on which layers.
    pub check: Check,
    /// Edges nearer than this are too near. Edges exactly at this distance are allowed.
    pub distance: u32,
}

impl Drop for Rule {
    fn drop(self) {
        let Rule {
            name,
            check: _,
            distance: _,
        } = self;
        drop(name);
    }
}

impl Rule {
    /// The same rule. Constant time. The only memory is the count of the name's copies.
    ///
    /// # Errors
    /// If no more copies of the name can be counted.
    pub fn copy(&self) -> Result<Rule, AllocError>
        ensures { IfOk result (λ rule. rule ≡ self.now) }
    {
        let name = self.name.copy()?;
        Ok(Rule {
            name,
            check: self.check,
            distance: self.distance,
        })
    }
}

impl Same for Rule {
    /// Whether the rules have equal names, checks with equal layers, and equal distances.
    fn is_same(&self, other: &Rule) -> bool {
        self.name == other.name && self.check == other.check && self.distance == other.distance
    }
}
