//! The picture, and how it is made.
ghost use Rattle.std.specs.Prelude.{◌≡◌, [], IfOk, IsTrue};
ghost use Rattle.mpw_geom.specs.Plane.{IsBoxInPlane};
ghost use Rattle.mpw_walk.specs.Window.{do_meet};
ghost use Rattle.mpw_firm_picture.specs.Drawn.{boxes_in, mark_at, marks_in, IsDrawn, IsDrawnWith, IsPicture};

use crate::density::counts_of;
use crate::layers::layers_of;
use crate::shapes::rectangles_in;
use mpw_geom::{Box2, Layer};
use mpw_markers::{Key, Marker};
use mpw_tiles::{Rectangle, Snapshot};
use std::alloc::{AllocError, Global};

/// A marker in a picture: its closed box, in nm, and its rule's index in the deck.
#[derive(Clone, Copy, PartialEq, Eq)]
pub struct Mark {
    /// The marker's closed box. On axis `H` the coordinates of its edges and rows are exchanged.
    pub area: Box2,
    /// The rule's index in the deck, from 0. It determines the name and the colour.
    pub rule: u32,
}

/// What is to be drawn.
#[derive(Clone, Copy, Drop)]
pub struct View {
    /// The box of the plane that is drawn, in nm.
    pub window: Box2,
    /// The selected marker, if there is one. It is drawn with a ring around it, and its key is in the title.
    pub wanted: Option<Key>,
    /// The most markers of a rule that are drawn: the first ones that touch the window.
    pub limit: usize,
}

/// What is drawn: a window, in nm, the rectangles in it, and the markers that touch it.
#[derive(Drop)]
pub struct Picture {
    /// The box of the plane that is drawn, in nm.
    pub window: Box2,
    /// The parts of the shapes in the window, by layer and submission. None exceeds it.
    pub rectangles: Vec<Rectangle>,
    /// The layers: first those of the rules, and then those of the rectangles, each once. Each has its own style.
    pub layers: Vec<Layer>,
    /// The markers whose closed boxes share a point with the window, in their order.
    pub marks: Vec<Mark>,
    /// How many of them lie in each square of a grid, if they are drawn as a density; empty if they are drawn one by one.
    pub counts: Vec<usize>,
    /// The selected marker.
    pub wanted: Option<Key>,
    /// The most markers of a rule that are drawn.
    pub limit: usize,
    /// The boxes of elements that are left out for their faults, as far as they share a point with the window.
    pub left_out: Vec<Box2>,
    /// How many such elements there are, drawn or not.
    pub left_all: usize,
}

/// The elements that are left out of what is drawn, for their faults.
#[derive(Clone, Copy, Drop)]
pub struct LeftOut<'a> {
    /// Their boxes, as far as these are known, in nm.
    pub areas: &'a [Box2],
    /// How many they are.
    pub all: usize,
}

/// A marker in a picture.
fn mark_at(marker: &Marker) -> Mark
    ensures { result ≡ mark_at marker.now }
{
    Mark {
        area: marker.key.piece.closed_box(),
        rule: marker.key.rule,
    }
}

/// Whether the boxes share a point.
fn do_meet(a: Box2, b: Box2) -> bool
    ensures { result ≡ do_meet a b }
{
    a.meets(b)
}

/// The markers that touch a window, in their order. The only error is out of memory.
fn marks_in(alloc: Global, window: Box2, markers: &[Marker]) -> Result<Vec<Mark>, AllocError>
    ensures { IfOk result (λ marks. marks.items ≡ marks_in window markers.now) }
{
    let mut marks = Vec::new(alloc);
    for marker in markers {
        let mark = mark_at(marker);
        if do_meet(mark.area, window) {
            marks.push(mark)?;
        }
    }
    Ok(marks)
}

/// The picture of a snapshot and of markers in a view's window. Its rectangles have exactly the squares that the shapes of the roots have in the
/// window, by layer and submission, and each lies in the window. Its marks are the markers whose closed boxes share a point with the window, in
/// order. If more than 20,000 of them would be drawn, with at most the limit of each rule, it has the counts of a density.
///
/// It visits the instances whose extents touch the window, and takes the rectangles of each shape whose box does. Cost: that of the walk and
/// of [`mpw_shapes::rectangles`], the product of the numbers of rectangles and layers, and a pass over the markers for each rule.
///
/// # Errors
/// Out of memory.
pub fn draw_view(
    alloc: Global,
    snapshot: &Snapshot,
    markers: &[Marker],
    view: View,
) -> Result<Picture, AllocError>
    requires { IsBoxInPlane view.window }
    ensures drawn { IfOk result (IsDrawn snapshot.now markers.now view) }
    ensures boxes { IfOk result (λ picture. picture.left_out.items ≡ []) }
    ensures whole { IfOk result (λ picture. picture.left_all ≡ 0) }
{
    let window = view.window;
    let rules = snapshot.deck().rules().as_slice();
    let rectangles = rectangles_in(alloc, snapshot, &window)?;
    let layers = layers_of(alloc, rules, rectangles.as_slice())?;
    let marks = marks_in(alloc, window, markers)?;
    let counts = counts_of(alloc, window, view.limit, rules.len(), marks.as_slice())?;
    Ok(Picture {
        window,
        rectangles,
        layers,
        marks,
        counts,
        wanted: view.wanted,
        limit: view.limit,
        left_out: Vec::new(alloc),
        left_all: 0,
    })
}

/// The boxes that touch a window, in their order. The only error is out of memory.
fn boxes_in(alloc: Global, window: Box2, boxes: &[Box2]) -> Result<Vec<Box2>, AllocError>
    ensures { IfOk result (λ found. found.items ≡ boxes_in window boxes.now) }
{
    let mut found = Vec::new(alloc);
    for area in boxes {
        if do_meet(*area, window) {
            found.push(*area)?;
        }
    }
    Ok(found)
}

/// The same as [`draw_view`], with the boxes of elements that are left out for their faults: those that share a point with the window.
///
/// # Errors
/// Out of memory.
pub fn draw_with(
    alloc: Global,
    snapshot: &Snapshot,
    markers: &[Marker],
    left: LeftOut<'_>,
    view: View,
) -> Result<Picture, AllocError>
    requires { IsBoxInPlane view.window }
    ensures { IfOk result (IsDrawnWith snapshot.now markers.now left.entry.areas.now left.entry.all view) }
{
    let boxes = boxes_in(alloc, view.window, left.areas)?;
    let mut picture = draw_view(alloc, snapshot, markers, view)?;
    picture.left_out = boxes;
    picture.left_all = left.all;
    Ok(picture)
}

/// The picture of all markers, none of which is selected.
///
/// # Errors
/// Out of memory.
pub fn draw(
    alloc: Global,
    snapshot: &Snapshot,
    markers: &[Marker],
    window: Box2,
) -> Result<Picture, AllocError>
    requires { IsBoxInPlane window }
    ensures { IfOk result (IsPicture snapshot.now markers.now window) }
{
    let view = View {
        window,
        wanted: None,
        limit: usize::MAX,
    };
    draw_view(alloc, snapshot, markers, view)
}
