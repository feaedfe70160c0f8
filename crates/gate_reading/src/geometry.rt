//! Placings, boxes, names, reals and decks: the answers to the lines of the standard input.
//!
//! Each line is printed, with the answer below it. A line that begins with `#`, and an empty one, prints nothing.
//! - `point R90 x y | x y` prints the place of a point after a placing, `box R90 x y | x y x y` that of a box;
//! - `point R90 x y M0 x y | x y` prints the place of a point after one placing and then another;
//! - `inverse R90` inverts an orientation; `between x y x y` is a box by two corners;
//! - `meets x y x y | x y x y` prints whether two closed boxes touch;
//! - `name HEX` reads a name; `names N` sorts the names `n0` to `n(N-1)`, each twice; `order A B` compares names;
//! - `real HEX` prints how many nm a real is, in metres; `real HEX | N` whether it is a whole number;
//! - `deck [TEXT]` reads a deck, where `;` is a line feed, and `\r` and `\t` are as in Rust. `rules N` in place of a line gives N rules.
mod decks;
mod names;
mod planes;
mod reals;

use anyhow::Result;
use gate_words::{Answers, Words, answer_lines};

/// What answers the lines.
#[derive(Clone, Copy)]
struct Geometry;

impl Answers for Geometry {
    fn answer(
        &mut self,
        rt: &HostRuntime,
        verb: &str,
        words: &mut Words<'_>,
        behind: &str,
    ) -> Result<()> {
        match verb {
            "deck" => decks::deck(rt, words.rest()),
            "name" => names::name(rt, words.next()),
            "names" => names::names(rt, words.number()),
            "order" => names::order(rt, words.next(), words.next()),
            "real" => reals::real(rt, words.next(), behind),
            _ => planes::answer(rt, verb, words, behind),
        }
    }
}

/// Answers the lines of its table.
pub(crate) fn run(rt: &HostRuntime, lines: &str) -> Result<()> {
    answer_lines(rt, &mut Geometry, lines)
}
