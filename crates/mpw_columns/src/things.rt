//! What a core's window contains, as a list of entries: shapes, and arrays of instances.
//!
//! If the layout places few structures often, such a list is far shorter than a list of the rectangles. A part of the core has a part of the
//! list. It is made from that list and not from the layout.

ghost use Rattle.std.specs.Prelude.{◌≡◌, ◌+◌, ◌++◌, ◌∷◌, ◌≤ℤ◌, [], List, All, IfOk, IfSome, IsTrue, OnOk};
ghost use Rattle.mpw_hier.specs.Items.{Item};
ghost use Rattle.mpw_walk.specs.Roots.{root_at_origin};
ghost use Rattle.mpw_columns_contents.specs.Contents.{IsBoxed};
ghost use Rattle.mpw_columns_contents.specs.Things.{drawn, element_in, things_items};
ghost use Rattle.mpw_tiles.specs.Snapshots.{shown};
ghost use Rattle.mpw_edges.specs.declared.run.Axis.TheVariants.{V, H};
ghost use Rattle.mpw_job.specs.Answers.{listed_on};
ghost use Rattle.mpw_columns_keys.specs.Columns.{seen_box, across};
ghost use Rattle.mpw_columns.specs.Internal.Checked.{IsLayout};
ghost use Rattle.mpw_columns.specs.Internal.Found.{AgreeIn, IsUpright};
ghost use Rattle.mpw_columns.specs.Internal.Listed.{ShowSeen};
ghost use Rattle.mpw_columns.specs.Internal.Pieces.{AreThingsIn, IsInside, IsSpan, MeetsSquaresOf, seen_layout, smaller, whole_core};

use crate::cores::by_layer;
use crate::layout::Layout;
use crate::list::{list_shape, seen_box};
use crate::part::{parts_in, window_of};
use mpw_columns_contents::{Contents, Part, Shape, Thing, element_of};
use mpw_edges::Axis;
use mpw_geom::Box2;
use mpw_tiles::{Rectangle, squares_lie_in_boxes};
use mpw_walk::{Placed, roots_at_origin_show_their_submission};
use std::alloc::{AllocError, Global};

/// The most entries of a core.
const MOST_THINGS: usize = 1 << 24;

/// The most shapes of a core that are listed.
const MOST_SHAPES: usize = 1 << 22;

/// An array with at most this many instances is opened, if an instance has more than [`MANY_SHAPES`] flat shapes.
const FEW_INSTANCES: u32 = 4;

/// The most flat shapes of an instance whose array isn't opened, if it has at most [`FEW_INSTANCES`] instances.
const MANY_SHAPES: u64 = 64;

/// The greatest absolute coordinate of a core, in nm.
const FARTHEST: i64 = 1 << 40;

/// A layout, and the axis along which its cores are seen.
#[derive(Clone, Copy)]
pub(crate) struct Task<'a> {
    pub(crate) layout: &'a Layout<'a>,
    pub(crate) axis: Axis,
}

/// The core of all columns of the axis.
pub(crate) fn whole_core(task: &Task<'_>) -> Option<Box2>
    ensures core { IfSome result (λ b. b ≡ whole_core task.now.layout.now task.now.axis) }
    ensures upright { IfSome result IsUpright }
{
    let seen = seen_box(task.axis, &task.layout.extent);
    if seen.x0 > seen.x1 || seen.x0 < -FARTHEST {
        return None;
    }
    if seen.x1 >= FARTHEST || seen.y0 < -FARTHEST || seen.y1 > FARTHEST {
        return None;
    }
    Some(Box2 {
        x0: seen.x0,
        y0: seen.y0,
        x1: seen.x1 + 1,
        y1: seen.y1,
    })
}

fn is_at_most(a: i64, b: i64) -> bool
    ensures { IsTrue result → a ≤ℤ b }
{
    a <= b
}

/// Whether a core lies within another one.
pub(crate) fn is_inside(core: &Box2, outer: &Box2) -> bool
    ensures { IsTrue result → IsInside core.now outer.now }
{
    if !is_at_most(outer.x0, core.x0) || !is_at_most(core.x1, outer.x1) {
        return false;
    }
    is_at_most(outer.y0, core.y0) && is_at_most(core.y1, outer.y1)
}

/// Whether a number is at most another one, and neither exceeds four times [`FARTHEST`] in magnitude.
fn is_span(low: i64, high: i64) -> bool
    ensures { IsTrue result → IsSpan low high }
{
    -4 * FARTHEST <= low && low <= high && high <= 4 * FARTHEST
}

/// The box without its outermost points.
fn smaller(b: &Box2) -> Box2
    requires x { IsSpan b.now.x0 b.now.x1 }
    requires y { IsSpan b.now.y0 b.now.y1 }
    ensures { result ≡ smaller b.now }
{
    Box2 {
        x0: b.x0 + 1,
        y0: b.y0 + 1,
        x1: b.x1 - 1,
        y1: b.y1 - 1,
    }
}

/// A box that touches each box that shares a unit square with the given one. If it then still has a point, it is smaller by 1 on each side: so boxes that
/// only touch the given one are left out.
fn inner(b: &Box2) -> Box2
    ensures { MeetsSquaresOf b.now result }
{
    if !is_span(b.x0, b.x1) || !is_span(b.y0, b.y1) {
        return *b;
    }
    let small = smaller(b);
    if !is_span(small.x0, small.x1) || !is_span(small.y0, small.y1) {
        return *b;
    }
    small
}

/// A box that everything touches that has a square in a core's window, in the layout's coordinates.
fn window(task: &Task<'_>, core: &Box2) -> Box2
    requires { IsUpright core.now }
    ensures { MeetsSquaresOf (seen_box task.now.axis (across core.now (task.now.layout.now.distance + 1))) result }
{
    let wide = window_of(core, task.layout.distance);
    inner(&seen_box(task.axis, &wide))
}

/// The entries out of these in a core's window, with large instances opened. `None` if there are too many. Cost: what [`Contents::within`] takes. The
/// only error is out of memory.
pub(crate) fn things_in(
    alloc: Global,
    task: &Task<'_>,
    core: &Box2,
    things: &Contents,
) -> Result<Option<Contents>, AllocError>
    requires layout { IsLayout task.now.layout.now }
    requires upright { IsUpright core.now }
    requires things { AreThingsIn task.now.layout.now task.now.axis core.now things.now }
    ensures { IfOk result (λ o. IfSome o (AreThingsIn task.now.layout.now task.now.axis core.now)) }
{
    squares_lie_in_boxes();
    let part = Part {
        boxes: task.layout.boxes,
        window: window(task, core),
        most: MOST_THINGS,
        instances: FEW_INSTANCES,
        shapes: MANY_SHAPES,
    };
    things.within(alloc, task.layout.snapshot.shelf(), &part)
}

/// The top as one entry, which is the whole layout. The only error is out of memory.
fn top_thing(alloc: Global, layout: &Layout<'_>) -> Result<Option<Contents>, AllocError>
    requires layout { IsLayout layout.now }
    requires alone { layout.now.snapshot.now.roots ≡ root_at_origin 0 ∷ [] }
    ensures boxed { IfOk result (λ o. IfSome o (All (IsBoxed layout.now.snapshot.now.shelf))) }
    ensures shown { IfOk result (λ o. IfSome o (λ things. things_items layout.now.snapshot.now.shelf things ≡ shown layout.now.snapshot.now)) }
{
    roots_at_origin_show_their_submission();
    Contents::top(alloc, layout.snapshot.shelf())
}

/// The entries of the whole layout, without the top's shapes on other layers, for cores of either axis. `None` if the layout is too large. Cost: linear in
/// the size of the top. The only error is out of memory.
pub(crate) fn all_things(
    alloc: Global,
    layout: &Layout<'_>,
    upright: &Box2,
    lying: &Box2,
) -> Result<Option<Contents>, AllocError>
    requires layout { IsLayout layout.now }
    requires upright { IsUpright upright.now }
    requires lying { IsUpright lying.now }
    requires alone { layout.now.snapshot.now.roots ≡ root_at_origin 0 ∷ [] }
    ensures { IfOk result (λ o. IfSome o (λ things. AreThingsIn layout.now V upright.now things × AreThingsIn layout.now H lying.now things)) }
{
    squares_lie_in_boxes();
    let shelf = layout.snapshot.shelf();
    let Some(top) = top_thing(alloc, layout)? else {
        return Ok(None);
    };
    let wide = window_of(upright, layout.distance);
    let high = seen_box(Axis::H, &window_of(lying, layout.distance));
    let part = Part {
        boxes: layout.boxes,
        window: wide.join(high),
        most: MOST_THINGS,
        instances: FEW_INSTANCES,
        shapes: MANY_SHAPES,
    };
    let Some(all) = top.within(alloc, shelf, &part)? else {
        return Ok(None);
    };
    let on_layers = all.on_layers(alloc, shelf, layout.layers)?;
    Ok(Some(on_layers))
}

/// Lists the rectangles of a shape. The only error is out of memory.
fn list_thing(
    alloc: Global,
    listed: &mut Vec<Rectangle>,
    task: &Task<'_>,
    shape: &Shape,
) -> Result<(), AllocError>
    requires { IsLayout task.now.layout.now }
    ensures { OnOk result ((done : List Item) → ShowSeen task.now.layout.now.layers.now task.now.axis done listed.old.items
        → ShowSeen task.now.layout.now.layers.now task.now.axis
        (done ++ drawn shape.now.placing (element_in task.now.layout.now.snapshot.now.shelf shape.now.structure shape.now.element)) listed.new.items) }
{
    let Some(element) = element_of(task.layout.snapshot.shelf(), shape) else {
        return Ok(());
    };
    let placed = Placed {
        origin: 0,
        placing: shape.placing,
        element,
    };
    list_shape(alloc, listed, task.layout.layers, task.axis, &placed)
}

/// The rectangles of shapes, seen along the axis. `None` if one of the entries is an array. The only error is out of memory.
fn list_things(
    alloc: Global,
    task: &Task<'_>,
    things: &[Thing],
) -> Result<Option<Vec<Rectangle>>, AllocError>
    requires { IsLayout task.now.layout.now }
    ensures { IfOk result (λ o. IfSome o (λ v. ShowSeen task.now.layout.now.layers.now task.now.axis
        (things_items task.now.layout.now.snapshot.now.shelf things.now) v.items)) }
{
    let mut listed = Vec::new(alloc);
    for thing in things {
        match thing {
            Thing::Shape(shape) => list_thing(alloc, &mut listed, task, shape)?,
            Thing::Array(_) => return Ok(None),
        }
    }
    Ok(Some(listed))
}

/// The rectangles in the window of a core, sorted by layer, of the flat shapes of its entries. `None` if there are too many. The only error is out of
/// memory.
pub(crate) fn rectangles_of_things(
    alloc: Global,
    task: &Task<'_>,
    core: &Box2,
    things: &Contents,
) -> Result<Option<Vec<Rectangle>>, AllocError>
    requires layout { IsLayout task.now.layout.now }
    requires upright { IsUpright core.now }
    requires things { AreThingsIn task.now.layout.now task.now.axis core.now things.now }
    ensures { IfOk result (λ o. IfSome o (λ v. AgreeIn task.now.layout.now.layers.now (across core.now (task.now.layout.now.distance + 1))
        (seen_layout task.now.layout.now task.now.axis) (listed_on v.items))) }
{
    squares_lie_in_boxes();
    let part = Part {
        boxes: task.layout.boxes,
        window: window(task, core),
        most: MOST_SHAPES,
        instances: u32::MAX,
        shapes: 0,
    };
    let Some(shapes) = things.within(alloc, task.layout.snapshot.shelf(), &part)? else {
        return Ok(None);
    };
    let Some(listed) = list_things(alloc, task, shapes.things())? else {
        return Ok(None);
    };
    let parts = parts_in(
        alloc,
        listed.as_slice(),
        &window_of(core, task.layout.distance),
    )?;
    Ok(Some(by_layer(parts)))
}
