//! The data of records.

ghost use Rattle.std.specs.Prelude.{◌≡◌, ◌++◌, IfOk, OnOk};
ghost use Rattle.gate_samples.specs.Text.{padded, point_bytes, points_bytes};

use std::alloc::{AllocError, Global};

/// A text, padded with a NUL to an even length.
#[tactic(auto, unfolding(crate::specs::Text::padded))]
pub fn pad(alloc: Global, text: &str) -> Result<Vec<u8>, AllocError>
    ensures { IfOk result (λ bytes. bytes.items ≡ padded text.now) }
{
    let mut bytes = Vec::from_slice(alloc, text.as_bytes())?;
    if text.len() % 2 == 1 {
        bytes.push(0)?;
    }
    Ok(bytes)
}

/// Adds the coordinates of a point. After an error some of them may have been added.
fn add_point(bytes: &mut Vec<u8>, point: &(i32, i32)) -> Result<(), AllocError>
    ensures { OnOk result (bytes.new.items ≡ bytes.old.items ++ point_bytes point.now) }
{
    bytes.extend_from_slice(&point.0.to_be_bytes())?;
    bytes.extend_from_slice(&point.1.to_be_bytes())?;
    Ok(())
}

/// The coordinates of points, four bytes each.
#[tactic(auto, unfolding(crate::specs::Text::points_bytes))]
pub fn points_bytes(alloc: Global, points: &[(i32, i32)]) -> Result<Vec<u8>, AllocError>
    ensures { IfOk result (λ bytes. bytes.items ≡ points_bytes points.now) }
{
    let mut bytes = Vec::new(alloc);
    for point in points {
        add_point(&mut bytes, point)?;
    }
    Ok(bytes)
}
