//! Takes rectangles of two layers and checks, and prints how many pieces each check finds and how long it took.
//!
//! A line is a rectangle of the first layer, `a X0 Y0 X1 Y1`, or of the second, `b X0 Y0 X1 Y1`, or a check with
//! its distance, as `width 56`.

mod shapes;

use crate::checks::shapes::Shapes;
use anyhow::Result;
use std::time::Instant;

/// Takes a line; prints what it finds if it is a check.
fn answer(rt: &HostRuntime, shapes: &mut Shapes, line: &str, still: bool) -> Result<()> {
    let start = Instant::now(rt)?;
    let Some(pieces) = shapes.answer(rt.alloc(), line)? else {
        return Ok(());
    };
    if still {
        return Ok(println!(rt; "{line}: {pieces} pieces")?);
    }
    let taken = start.elapsed(rt)?.as_millis();
    Ok(println!(rt; "{line}: {pieces} pieces, {taken} ms")?)
}

/// Takes the lines of the text in turn.
pub fn run(rt: &HostRuntime, text: &str, still: bool) -> Result<()> {
    let mut shapes = Shapes::new(rt.alloc());
    for line in text.lines() {
        answer(rt, &mut shapes, line, still)?;
    }
    Ok(())
}
