//! The layout that the lines make, and the answer to each line.

use crate::checks::compare::{print_differences, print_grid_differences};
use crate::checks::drawn::{Drawn, Search};
use crate::checks::numbers::Kind;
use anyhow::{Result, bail};
use gate_words::{Words, check_of, letter};
use mpw_deck::Check;
use mpw_edges::Piece;
use mpw_geom::{Box2, Layer};
use std::alloc::Global;
use std::io;

const FIRST: Layer = Layer {
    layer: 1,
    datatype: 0,
};

const SECOND: Layer = Layer {
    layer: 2,
    datatype: 0,
};

/// The checks of the first layer, and of both.
pub const CHECKS: [Check; 4] = [
    Check::Width(FIRST),
    Check::Space(FIRST),
    Check::Separation(FIRST, SECOND),
    Check::Enclosing(FIRST, SECOND),
];

/// The boxes of two layers, and the core that is checked.
#[derive(Drop)]
pub struct Shapes {
    drawn: Drawn,
    core: Box2,
}

/// The core of a layout if the lines name none: -1000 to 1000 in both coordinates.
const CORE: Box2 = Box2 {
    x0: -1000,
    y0: -1000,
    x1: 1000,
    y1: 1000,
};

/// Prints one piece a line: axis, side, the two columns and the rows.
fn print_pieces(rt: &HostRuntime, pieces: &[Piece]) -> io::Result<()> {
    for p in pieces {
        println!(rt;
            "{} {} {} {} {} {}",
            letter(p.axis),
            p.side,
            p.x1,
            p.x2,
            p.y0,
            p.y1
        )?;
    }
    Ok(())
}

impl Shapes {
    /// No boxes, and the core for lines that name none.
    pub fn new(alloc: Global) -> Shapes {
        Shapes {
            drawn: Drawn {
                first: Vec::new(alloc),
                second: Vec::new(alloc),
            },
            core: CORE,
        }
    }

    /// Answers a line.
    pub fn answer(&mut self, rt: &HostRuntime, verb: &str, words: &mut Words<'_>) -> Result<()> {
        match verb {
            "a" => self.drawn.first.push(words.area())?,
            "b" => self.drawn.second.push(words.area())?,
            "core" => self.core = words.area(),
            "clear" => *self = Shapes::new(rt.alloc()),
            _ => return self.answer_more(rt, verb, words.number()),
        }
        Ok(())
    }

    /// Answers a line about random layouts, or a check.
    fn answer_more(&self, rt: &HostRuntime, verb: &str, number: u32) -> Result<()> {
        match verb {
            "random" => print_differences(rt, number, Kind::Few),
            "crowded" => print_differences(rt, number, Kind::Crowded),
            "aligned" => print_differences(rt, number, Kind::Aligned),
            "wide" => print_differences(rt, number, Kind::Wide),
            "grids" => print_grid_differences(rt, number),
            _ => self.print_found(rt, verb, number),
        }
    }

    /// Prints what a check finds.
    fn print_found(&self, rt: &HostRuntime, verb: &str, distance: u32) -> Result<()> {
        let Some(check) = check_of(verb, FIRST, SECOND) else {
            bail!("a check");
        };
        let search = Search {
            check,
            distance,
            core: self.core,
        };
        let found = self.drawn.by_bands(rt.alloc(), search)?;
        if found.as_slice() != self.drawn.by_cells(rt.alloc(), search)?.as_slice() {
            bail!("bands and cells that agree");
        }
        println!(rt; "{verb} {distance}: {}", found.len())?;
        Ok(print_pieces(rt, &found)?)
    }
}
