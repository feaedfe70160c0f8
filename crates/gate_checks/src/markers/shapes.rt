//! Rectangles of submissions, and the boxes that may touch them.

use crate::markers::asked::origins;
use anyhow::{Result, bail};
use gate_words::Words;
use mpw_geom::Box2;
use mpw_markers::{Met, Rectangle};
use std::alloc::Global;
use std::io;

/// The rectangles and the boxes of the lines before.
#[derive(Drop)]
pub struct Shapes {
    rectangles: Vec<Rectangle>,
    boxes: Vec<Box2>,
}

/// Prints the submissions that a box touches.
fn print_met(rt: &HostRuntime, met: &Met) -> io::Result<()> {
    print!(rt; "    met")?;
    for number in met.as_slice() {
        print!(rt; " {number}")?;
    }
    println!(rt)
}

impl Shapes {
    /// No rectangles and no boxes.
    pub fn new(alloc: Global) -> Shapes {
        Shapes {
            rectangles: Vec::new(alloc),
            boxes: Vec::new(alloc),
        }
    }

    /// Adds a rectangle of a submission or a box, or prints the origins.
    pub fn answer(&mut self, rt: &HostRuntime, verb: &str, words: &mut Words<'_>) -> Result<()> {
        match verb {
            "rectangle" => {
                let origin = words.number();
                let area = words.area();
                self.rectangles.push(Rectangle { area, origin })?;
            }
            "box" => self.boxes.push(words.area())?,
            "origins" => return self.print_origins(rt),
            _ => bail!("a command"),
        }
        Ok(())
    }

    /// Prints a line for each box: the submissions that it touches.
    fn print_origins(&self, rt: &HostRuntime) -> Result<()> {
        for met in &origins(rt.alloc(), &self.rectangles, &self.boxes)? {
            print_met(rt, met)?;
        }
        Ok(())
    }
}
