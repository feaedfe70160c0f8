//! The rectangles of two layers, and what a check finds among them.

use gate_words::{Words, check_of};
use mpw_deck::{Check, Rule};
use mpw_geom::{Box2, Layer, Name};
use std::alloc::{AllocError, Global};

const FIRST: Layer = Layer {
    layer: 1,
    datatype: 0,
};

const SECOND: Layer = Layer {
    layer: 2,
    datatype: 0,
};

/// The core of each check: -2 * 10^9 to 2 * 10^9 nm in both coordinates.
const CORE: Box2 = Box2 {
    x0: -2_000_000_000,
    y0: -2_000_000_000,
    x1: 2_000_000_000,
    y1: 2_000_000_000,
};

/// The rectangles of two layers.
#[derive(Drop)]
pub struct Shapes {
    first: Vec<Box2>,
    second: Vec<Box2>,
}

fn rule_of(alloc: Global, word: &str, distance: u32) -> Option<Rule> {
    let check = check_of(word, FIRST, SECOND)?;
    let name = Name::read(alloc, b"rule").ok()?;
    Some(Rule {
        name,
        check,
        distance,
    })
}

impl Shapes {
    /// No rectangles. It takes no memory.
    pub fn new(alloc: Global) -> Shapes {
        Shapes {
            first: Vec::new(alloc),
            second: Vec::new(alloc),
        }
    }

    /// Takes a rectangle, or returns how many pieces a check finds.
    pub fn answer(&mut self, alloc: Global, line: &str) -> Result<Option<usize>, AllocError> {
        let mut words = Words::of(line);
        match words.next() {
            "a" => self.first.push(words.area())?,
            "b" => self.second.push(words.area())?,
            verb => return self.found(alloc, verb, words.number()),
        }
        Ok(None)
    }

    fn found(&self, alloc: Global, verb: &str, distance: u32) -> Result<Option<usize>, AllocError> {
        let Some(rule) = rule_of(alloc, verb, distance) else {
            return Ok(None);
        };
        let one_layer = matches!(rule.check, Check::Width(_) | Check::Space(_));
        let second = if one_layer {
            &self.second.as_slice()[..0]
        } else {
            self.second.as_slice()
        };
        let pieces = mpw_checks::pieces(alloc, &rule, self.first.as_slice(), second, CORE)?;
        Ok(Some(pieces.len()))
    }
}
