//! Computes the position of an element in the coordinates of a top, by the references that lead to its structure.
ghost use Rattle.std.specs.Prelude.{◌≡◌, ◌≤◌, All, IfOk, IfSome, IsTrue, option_map};
ghost use Rattle.mpw_firm_faults.specs.Lifting.{IsKnown, above, area_of, are_near, high, is_near, lifted, low, placed_area, point_of, read_of, step_from, to_step, way_from};
ghost use Rattle.mpw_geom.specs.Names.{name_eq};
ghost use Rattle.mpw_geom.specs.Plane.{IsInPlane};
ghost use Rattle.mpw_firm_skipping.specs.Structures.{name_at};

use crate::area::own_area;
use crate::details::first_point;
use crate::way::{Seen, Way, name_at, way_from};
use mpw_firm_skipping::ElementSpan;
use mpw_geom::{Box2, Placing, Point};
use std::alloc::{AllocError, Global};
use std::marker::Model;

/// How many levels of references are followed upwards.
const MAX_LEVELS: usize = 64;

/// A text, in which positions are lifted to the top. What leads to a structure is searched for once, so each search costs one visit of each
/// element, and each further position in that structure none. Contracts see the text, its unit, its elements and the top.
pub struct Lifts<'a> {
    seen: Seen<'a>,
    known: Vec<Known>,
}

impl Drop for Lifts<'_> {
    fn drop(self) {
        let Lifts { seen: _, known } = self;
        drop(known);
    }
}

impl<'a> Model for Lifts<'a> {
    ghost use Rattle.std.specs.Prelude.{◌≤◌, All};
    ghost use Rattle.mpw_firm_faults.specs.Lifting.{IsKnown, Read, read_of};

    ghost Value = { Read };

    ghost view = { λ l. read_of l.seen };

    ghost invariant = { λ l. (l.seen.unit ≤ 1000) × All (IsKnown (read_of l.seen)) l.known.items };
}

/// A box in the coordinates of the structure whose STRNAME is at an offset.
#[derive(Clone, Copy)]
struct Step {
    structure: usize,
    area: Box2,
}

/// The only reference that may lead to the structure whose STRNAME is at an offset, if there is just one, and it is such a reference.
#[derive(Clone, Copy)]
struct Known {
    at: usize,
    way: Option<Way>,
}

/// Whether a coordinate lies within -2^47 to 2^47 nm.
fn is_near(z: i64) -> bool
    ensures { result ≡ is_near z }
{
    z.unsigned_abs() <= 1 << 47
}

/// Whether both coordinates of a point lie within -2^47 to 2^47 nm.
fn are_near(point: Point) -> bool
    ensures near { result ≡ are_near point }
    ensures plane { IsTrue result → IsInPlane point }
{
    is_near(point.x) & is_near(point.y)
}

/// The image of a box under a placing, if both the box and the displacement are near the origin.
fn placed_area(placing: Placing, area: Box2) -> Option<Box2>
    ensures { result ≡ placed_area placing area }
{
    let (low, high) = (
        Point {
            x: area.x0,
            y: area.y0,
        },
        Point {
            x: area.x1,
            y: area.y1,
        },
    );
    if !are_near(placing.by) {
        return None;
    }
    if !are_near(low) {
        return None;
    }
    if !are_near(high) {
        return None;
    }
    Some(Box2::between(placing.apply(low), placing.apply(high)))
}

/// The same, if it is known.
fn known_at(seen: &Seen<'_>, known: &[Known], at: usize) -> Option<Option<Way>>
    requires { All (IsKnown (read_of seen.now)) known.now }
    ensures { IfSome result (λ way. way ≡ way_from seen.now.unit seen.now.text.now seen.now.spans.now at) }
{
    for one in known {
        if one.at == at {
            return Some(one.way);
        }
    }
    None
}

/// The same. It is known afterwards.
fn way_to(
    alloc: Global,
    seen: &Seen<'_>,
    known: &mut Vec<Known>,
    at: usize,
) -> Result<Option<Way>, AllocError>
    requires unit { seen.now.unit ≤ 1000 }
    requires known { All (IsKnown (read_of seen.now)) known.old.items }
    ensures way { IfOk result (λ way. way ≡ way_from seen.now.unit seen.now.text.now seen.now.spans.now at) }
    ensures known { All (IsKnown (read_of seen.now)) known.new.items }
{
    match known_at(seen, known.as_slice(), at) {
        Some(way) => Ok(way),
        None => {
            let way = way_from(alloc, seen, at)?;
            known.push(Known { at, way })?;
            Ok(way)
        }
    }
}

/// The box of a structure in the one that a reference to it is in.
fn above(area: Box2, way: Option<Way>) -> Option<Step>
    ensures { result ≡ above area way }
{
    match way {
        Some(Way { structure, placing }) => match placed_area(placing, area) {
            Some(area) => Some(Step { structure, area }),
            None => None,
        },
        None => None,
    }
}

/// The box one level up, by the only reference that may lead to the structure whose STRNAME is at an offset.
fn step_from(
    alloc: Global,
    seen: &Seen<'_>,
    known: &mut Vec<Known>,
    at: usize,
    area: Box2,
) -> Result<Option<Step>, AllocError>
    requires unit { seen.now.unit ≤ 1000 }
    requires known { All (IsKnown (read_of seen.now)) known.old.items }
    ensures step { IfOk result (λ step. step ≡ step_from seen.now.unit seen.now.text.now seen.now.spans.now at area) }
    ensures known { All (IsKnown (read_of seen.now)) known.new.items }
{
    let way = way_to(alloc, seen, known, at)?;
    Ok(above(area, way))
}

/// Whether the structure whose STRNAME is at an offset is the top.
fn is_top(seen: &Seen<'_>, at: usize) -> bool
    ensures { result ≡ name_eq (name_at seen.now.text.now at) seen.now.top.now }
{
    name_at(seen.text, at) == seen.top
}

/// The box in the top's coordinates, at most `levels` levels up.
fn lift(
    alloc: Global,
    seen: &Seen<'_>,
    known: &mut Vec<Known>,
    levels: usize,
    step: Step,
) -> Result<Option<Box2>, AllocError>
    requires unit { seen.now.unit ≤ 1000 }
    requires known { All (IsKnown (read_of seen.now)) known.old.items }
    ensures area { IfOk result (λ found. found ≡ lifted levels seen.now.unit seen.now.text.now seen.now.spans.now seen.now.top.now step.structure step.area) }
    ensures known { All (IsKnown (read_of seen.now)) known.new.items }
{
    if is_top(seen, step.structure) {
        return Ok(Some(step.area));
    }
    if levels == 0 {
        return Ok(None);
    }
    match step_from(alloc, seen, known, step.structure, step.area)? {
        Some(next) => lift(alloc, seen, known, levels - 1, next),
        None => Ok(None),
    }
}

/// The lower left corner of a box.
fn low(area: Box2) -> Point
    ensures { result ≡ low area }
{
    Point {
        x: area.x0,
        y: area.y0,
    }
}

/// The corner of a box in the top's coordinates, if it is there.
fn corner(area: Option<Box2>) -> Option<Point>
    ensures { result ≡ option_map low area }
{
    match area {
        Some(area) => Some(low(area)),
        None => None,
    }
}

impl<'a> Lifts<'a> {
    /// A text in which nothing is known yet.
    pub fn new(alloc: Global, seen: Seen<'a>) -> Lifts<'a>
        requires { seen.unit ≤ 1000 }
        ensures { result ≡ read_of seen.entry }
    {
        Lifts {
            seen,
            known: Vec::new(alloc),
        }
    }

    /// The text.
    pub fn text(&self) -> &'a [u8]
        ensures { result.now ≡ self.now.text }
    {
        self.seen.text
    }

    /// A box in the top's coordinates.
    fn lift(
        &mut self,
        alloc: Global,
        structure: usize,
        area: Box2,
    ) -> Result<Option<Box2>, AllocError>
        ensures same { self.new ≡ self.old }
        ensures area { IfOk result (λ found. found ≡ lifted 64 self.old.unit self.old.text self.old.spans self.old.top structure area) }
    {
        let step = Step { structure, area };
        lift(alloc, &self.seen, &mut self.known, MAX_LEVELS, step)
    }

    /// The least box with all points of an element in the top's coordinates, in nm. `None` if the element has no points. Each structure on the way to the top
    /// must be placed exactly once in the text, by a reference that can be read and that has neither columns nor rows; otherwise the result is `None`. A
    /// reference whose target isn't found counts as one to every structure. The result is also `None` with more than 64 levels, or if a box or a displacement
    /// on the way exceeds 2^47 nm.
    ///
    /// # Errors
    /// Out of memory.
    pub fn area_in_top(
        &mut self,
        alloc: Global,
        element: &ElementSpan,
    ) -> Result<Option<Box2>, AllocError>
        ensures same { self.new ≡ self.old }
        ensures area { IfOk result (λ area. area ≡ area_of self.old.unit self.old.text self.old.spans self.old.top element.now) }
    {
        match own_area(self.seen.unit, self.seen.text, element.points) {
            Some(area) => self.lift(alloc, element.structure, area),
            None => Ok(None),
        }
    }

    /// The first point of an element in the top's coordinates, in nm, if it is known by the rules of [`Lifts::area_in_top`].
    ///
    /// # Errors
    /// Out of memory.
    pub fn point_in_top(
        &mut self,
        alloc: Global,
        element: &ElementSpan,
    ) -> Result<Option<Point>, AllocError>
        ensures same { self.new ≡ self.old }
        ensures point { IfOk result (λ point. point ≡ point_of self.old.unit self.old.text self.old.spans self.old.top element.now) }
    {
        match first_point(self.seen.unit, self.seen.text, element.points) {
            Some(point) => {
                let area = self.lift(alloc, element.structure, Box2::at(point))?;
                Ok(corner(area))
            }
            None => Ok(None),
        }
    }
}
