//! Computes the size of a structure from the sizes of its targets: flat shapes, levels and extent.
//!
//! Each element has a size, and sizes are added up. A count or a height beyond its limit becomes the number after the limit, and
//! stays that number whatever is added.

ghost use Rattle.std.specs.Prelude.{◌≡◌, ◌+◌, ◌*◌, ◌^◌, ◌≤◌, ℕ, min, List, [], ◌∷◌, All, IfSome, IfNone, length};
ghost use Rattle.std.specs.List.{AllZip};
ghost use Rattle.mpw_structures.specs.Element.{IsElement, IsReference};
ghost use Rattle.mpw_hier.specs.Structures.{references, referenced_names};
ghost use Rattle.mpw_hier.specs.Items.{Item, shown_items};
ghost use Rattle.mpw_hier.specs.Values.{shown_height};
ghost use Rattle.mpw_hier.specs.Boxes.{element_box, extent_of};
ghost use Rattle.mpw_hier.specs.Sizes.{Total, IsExtentNear, IsToldBy, total_of};
ghost use Rattle.mpw_hier.specs.Internal.Sizes.{IsExtentFar, AreToldBy};
ghost use Rattle.mpw_hier.specs.Internal.SizeParts.{nothing, together, array_extent, shape_total, array_total, part_total, behind};

use crate::size_array::array_box;
use crate::size_box::{hull, is_box_near};
use crate::size_shape::element_box;
use mpw_geom::Box2;
use mpw_structures::{Element, Reference, Structure};

/// The greatest limit of flat shapes that a caller may set for a submission, 2^40. A size has the exact count up to this number.
pub const MAX_SHAPES: u64 = 1 << 40;

/// The count that represents all counts beyond 2^40.
const MANY: u64 = MAX_SHAPES + 1;

/// The height that represents all heights beyond 64.
const DEEP: u32 = 65;

/// The size of a structure, up to the limits.
#[derive(Clone, Copy)]
pub struct Size {
    /// Flat shapes. At most 2^40 + 1, which represents all counts beyond the limit.
    pub count: u64,
    /// Levels. At most 65, which represents all heights beyond the limit.
    pub height: u32,
    /// The least box of all shapes' boxes, in nm; `None` if there are no shapes.
    pub extent: Option<Box2>,
}

impl Size {
    /// The size of a structure without elements.
    fn nothing() -> Size
        ensures { IsToldBy nothing result }
    {
        Size {
            count: 0,
            height: 1,
            extent: None,
        }
    }

    /// The size of both together.
    fn plus(self, other: Size) -> Size
        ensures { (a b : Total) → IsToldBy a self → IsToldBy b other → IsToldBy (together a b) result }
    {
        Size {
            count: self.count.saturating_add(other.count).min(MANY),
            height: self.height.max(other.height),
            extent: hull(self.extent, other.extent),
        }
    }
}

/// The size of a shape; `None` if it exceeds 2^30 nm.
fn shape_size(element: &Element) -> Option<Size>
    requires { IsElement element.now }
    ensures size { IfSome result (IsToldBy (shape_total element.now)) }
    ensures far { IfNone result (IsExtentFar (element_box element.now)) }
{
    let extent = element_box(element);
    if let Some(b) = extent {
        if !is_box_near(b) {
            return None;
        }
    }
    Some(Size {
        count: 1,
        height: 1,
        extent,
    })
}

/// The number of flat shapes of all instances of a target with `count` flat shapes, up to the limit.
fn array_count(reference: &Reference, count: u64) -> u64
    ensures { result ≡ min (2 ^ 40 + 1) (reference.now.columns * reference.now.rows * count) }
{
    let instances = u64::from(reference.columns) * u64::from(reference.rows);
    instances.saturating_mul(count).min(MANY)
}

/// The size of all instances of a target; `None` if they exceed 2^30 nm.
fn array_size(reference: &Reference, target: Size) -> Option<Size>
    requires reference { IsReference reference.now }
    requires near { IsExtentNear target.extent }
    ensures size { (t : Total) → IsToldBy t target → IfSome result (IsToldBy (array_total reference.now t)) }
    ensures far { IfNone result (IsExtentFar (array_extent reference.now target.extent)) }
{
    let mut extent = None;
    if let Some(b) = target.extent {
        extent = Some(array_box(reference, b)?);
    }
    Some(Size {
        count: array_count(reference, target.count),
        height: target.height.min(DEEP - 1) + 1,
        extent,
    })
}

/// The size of an element. If it is a reference, the first entry of `left` is the size of its target. `None`
/// if it exceeds 2^30 nm.
fn part_size(element: &Element, left: &[Size]) -> Option<Size>
    requires element { IsElement element.now }
    requires targets { length (references (element.now ∷ [])) ≤ length left.now }
    requires near { All (λ size. IsExtentNear size.extent) left.now }
    ensures size { (ts : List Total) → AllZip IsToldBy ts left.now → IfSome result (IsToldBy (part_total element.now ts)) }
    ensures far { (ts : List Total) → AllZip IsToldBy ts left.now → IfNone result (IsExtentFar (part_total element.now ts).extent) }
{
    match element {
        Element::Reference(reference) => array_size(reference.get(), left[0]),
        _ => shape_size(element),
    }
}

/// The remaining sizes: without the first one if the element is a reference.
fn behind<'a>(element: &Element, left: &'a [Size]) -> &'a [Size]
    requires { length (references (element.now ∷ [])) ≤ length left.now }
    ensures { result.now ≡ behind element.now left.now }
{
    match element {
        Element::Reference(_) => &left[1..],
        _ => left,
    }
}

/// The size of a structure. `below` has the size of each reference's target, in file order. `None`
/// if its extent exceeds 2^30 nm.
///
/// Cost: linear in the points and references. Takes no memory.
pub fn size_of(structure: &Structure, below: &[Size]) -> Option<Size>
    requires elements { All IsElement structure.now.elements }
    requires targets { length below.now ≡ length (references structure.now.elements) }
    requires near { All (λ size. IsExtentNear size.extent) below.now }
    ensures size { (number : ℕ) (items : List ℕ → List Item) (heights : List ℕ → ℕ) → AreToldBy items heights (referenced_names structure.now.elements) below.now → IfSome result (IsToldBy (total_of (shown_items number structure.now items) (shown_height structure.now heights))) }
    ensures far { (number : ℕ) (items : List ℕ → List Item) (heights : List ℕ → ℕ) → AreToldBy items heights (referenced_names structure.now.elements) below.now → IfNone result (IsExtentFar (extent_of (shown_items number structure.now items))) }
{
    let mut size = Size::nothing();
    let mut left = below;
    for element in structure.elements.as_slice() {
        size = size.plus(part_size(element, left)?);
        left = behind(element, left);
    }
    Some(size)
}
