//! Sorts the rectangles of a window by layer.
//!
//! They are sorted once for all rules. Those of a layer are adjacent, and are selected for the
//! rules on that layer.

ghost use Rattle.std.specs.Prelude.{◌≡◌, ◌≤◌, ◌<◌, ◌^◌, ℤ, All, IfOk, take, drop, length};
ghost use Rattle.std.specs.List.Sorted.{IsPermutation};
ghost use Rattle.mpw_region.specs.Squares.{covers};
ghost use Rattle.mpw_geom.specs.Layers.{same_layer};
ghost use Rattle.mpw_work.specs.Internal.Layers.{layer_code, IsByLayer};
ghost use Rattle.mpw_job.specs.Answers.{listed_on};

use mpw_geom::{Box2, Layer};
use mpw_tiles::Rectangle;
use std::alloc::{AllocError, Global};

/// Whether two layers are the same.
fn same_layer(a: Layer, b: Layer) -> bool
    ensures { result ≡ same_layer a b }
{
    (a.layer == b.layer) & (a.datatype == b.datatype)
}

/// The layer's number in the order of all layers.
#[tactic(auto, unfolding(crate::specs::Internal::Layers::layer_code))]
fn layer_code(layer: Layer) -> u64
    ensures code { result ≡ layer_code layer }
    ensures small { result < 2 ^ 32 }
{
    u64::from(layer.layer) * 65536 + u64::from(layer.datatype)
}

/// The rectangles, sorted by layer.
pub(crate) fn by_layer(alloc: Global, window: &[Rectangle]) -> Result<Vec<Rectangle>, AllocError>
    ensures ordered { IfOk result (λ v. IsByLayer v.items) }
    ensures same { IfOk result (λ v. IsPermutation window.now v.items) }
{
    let mut rectangles = Vec::from_slice(alloc, window)?;
    rectangles.sort_unstable_by_key(|r| layer_code(r.layer));
    Ok(rectangles)
}

/// How many of the rectangles come before that number. A binary search.
fn count_before(rectangles: &[Rectangle], code: u64) -> usize
    requires { IsByLayer rectangles.now }
    ensures within { result ≤ length rectangles.now }
    ensures before { All (λ r. layer_code r.layer < code) (take result rectangles.now) }
    ensures behind { All (λ r. code ≤ layer_code r.layer) (drop result rectangles.now) }
{
    rectangles.partition_point(|r| layer_code(r.layer) < code)
}

/// The rectangles that may be on the layer: two binary searches.
fn on_layer(rectangles: &[Rectangle], layer: Layer) -> &[Rectangle]
    requires { IsByLayer rectangles.now }
    ensures { (i j : ℤ) → listed_on result.now layer i j ≡ listed_on rectangles.now layer i j }
{
    let code = layer_code(layer);
    let behind = &rectangles[count_before(rectangles, code)..];
    &behind[..count_before(behind, code + 1)]
}

/// The areas of the rectangles on the layer. One pass.
fn areas_of(alloc: Global, rectangles: &[Rectangle], layer: Layer) -> Result<Vec<Box2>, AllocError>
    ensures { IfOk result (λ v. (i j : ℤ) → covers v.items i j ≡ listed_on rectangles.now layer i j) }
{
    let mut areas = Vec::new(alloc);
    for rectangle in rectangles {
        if same_layer(rectangle.layer, layer) {
            areas.push(rectangle.area)?;
        }
    }
    Ok(areas)
}

/// The areas on the layer. The rectangles must be sorted by layer.
pub(crate) fn areas_on(
    alloc: Global,
    rectangles: &[Rectangle],
    layer: Layer,
) -> Result<Vec<Box2>, AllocError>
    requires { IsByLayer rectangles.now }
    ensures { IfOk result (λ v. (i j : ℤ) → covers v.items i j ≡ listed_on rectangles.now layer i j) }
{
    let areas = areas_of(alloc, on_layer(rectangles, layer), layer)?;
    Ok(areas)
}
