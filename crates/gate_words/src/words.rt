//! The words of a line, taken one after another.
//!
//! A word that is missing or wrong is noted, and a default stands for it: an empty word, 0, `R0`. So a line is read by calls that don't fail, and its end
//! asks once whether all words were right. For the prover that is a sixth of what calls cost that may each fail.

use crate::plane::orient_of;
use anyhow::{Result, bail};
use mpw_geom::{Box2, Orient, Placing, Point};
use std::alloc::Global;

/// What is left of a line, and whether a word was missing or wrong.
#[derive(Clone, Copy)]
pub struct Words<'a> {
    left: &'a str,
    is_wrong: bool,
    is_whole: bool,
}

impl<'a> Words<'a> {
    /// The words of a text.
    pub fn of(text: &'a str) -> Words<'a> {
        Words {
            left: text,
            is_wrong: false,
            is_whole: false,
        }
    }

    /// Takes a word.
    pub fn next(&mut self) -> &'a str {
        let text = self.left.trim_start();
        let (word, left) = text.split_once(' ').unwrap_or((text, ""));
        self.left = left;
        if word.is_empty() {
            self.is_wrong = true;
        }
        word
    }

    /// Whether no word is left.
    pub fn is_empty(&self) -> bool {
        self.left.trim_start().is_empty()
    }

    /// Takes all that is left, without blanks at its ends.
    pub fn rest(&mut self) -> &'a str {
        self.is_whole = true;
        self.left.trim()
    }

    /// Notes that a word is wrong.
    pub fn fail(&mut self) {
        self.is_wrong = true;
    }

    /// Takes a number of 32 bits.
    pub fn number(&mut self) -> u32 {
        match self.next().parse::<u32>() {
            Ok(number) => number,
            Err(_) => {
                self.is_wrong = true;
                0
            }
        }
    }

    /// Takes a coordinate in nm, a signed number of 64 bits.
    pub fn coordinate(&mut self) -> i64 {
        match self.next().parse::<i64>() {
            Ok(number) => number,
            Err(_) => {
                self.is_wrong = true;
                0
            }
        }
    }

    /// Takes the coordinates of a point.
    pub fn point(&mut self) -> Point {
        Point {
            x: self.coordinate(),
            y: self.coordinate(),
        }
    }

    /// Takes the four coordinates of a box.
    pub fn area(&mut self) -> Box2 {
        Box2 {
            x0: self.coordinate(),
            y0: self.coordinate(),
            x1: self.coordinate(),
            y1: self.coordinate(),
        }
    }

    /// Takes an orientation.
    pub fn orient(&mut self) -> Orient {
        match orient_of(self.next()) {
            Some(orient) => orient,
            None => {
                self.is_wrong = true;
                Orient::R0
            }
        }
    }

    /// Takes an orientation and a displacement.
    pub fn placing(&mut self) -> Placing {
        Placing {
            orient: self.orient(),
            by: self.point(),
        }
    }

    /// Takes all numbers that are left.
    ///
    /// # Errors
    /// A word is no number of 32 bits, or out of memory.
    pub fn numbers(&mut self, alloc: Global) -> Result<Vec<u32>> {
        let mut numbers = Vec::new(alloc);
        for word in self.rest().split_whitespace() {
            numbers.push(word.parse::<u32>()?)?;
        }
        Ok(numbers)
    }

    /// Ends the line.
    ///
    /// # Errors
    /// A word was missing or wrong, or one is left.
    pub fn end(&self) -> Result<()> {
        if self.is_wrong || !self.is_whole && !self.is_empty() {
            bail!("a line with other words");
        }
        Ok(())
    }
}
