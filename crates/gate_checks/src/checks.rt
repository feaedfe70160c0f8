//! Reads layouts and checks, and prints what they find, by bands and by cells; and compares random layouts with plain implementations and
//! with a search square by square.
//!
//! A line is a box of the first layer, `a X0 Y0 X1 Y1`, or of the second, `b X0 Y0 X1 Y1`; `core X0 Y0 X1 Y1`; `clear`; or a check with its
//! distance, `width 50`, `space 31`, `separation 1` or `enclosing 5`, which prints one piece a line. `random N`, `crowded N`, `aligned N`
//! and `wide N` compare N layouts with few boxes, with many, with many equal borders, and over a wide place, and print how many differ.
//! `grids N` compares grids of cores with one core.
mod compare;
mod drawn;
mod layout;
mod numbers;
mod plain;
mod squares;

use anyhow::Result;
use gate_words::Words;
use layout::Shapes;

/// Answers the lines of its table.
pub(crate) fn run(rt: &HostRuntime, lines: &str) -> Result<()> {
    let mut shapes = Shapes::new(rt.alloc());
    for line in lines.lines() {
        let mut words = Words::of(line);
        let verb = words.next();
        shapes.answer(rt, verb, &mut words)?;
        words.end()?;
    }
    Ok(())
}
