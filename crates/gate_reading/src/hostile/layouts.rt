//! Submissions and walks over them.

use crate::hostile::texts;
use anyhow::{Result, bail};
use gate_plain::{Entry, put_entry};
use gate_samples::text_of_library;
use gate_words::{Answers, Words};
use mpw_geom::{Orient, Placing, Point};
use mpw_hier::Shelf;
use mpw_walk::{Root, Walk, all_fit};

/// The most shapes of a submission: those of a desk.
const MAX_SHAPES: u64 = 1 << 20;

/// The shelf after the lines.
#[derive(Drop)]
pub struct Hostile {
    /// The shelf.
    pub shelf: Shelf,
}

impl Answers for Hostile {
    fn answer(
        &mut self,
        rt: &HostRuntime,
        verb: &str,
        words: &mut Words<'_>,
        behind: &str,
    ) -> Result<()> {
        if verb == "count" {
            return self.print_count(rt, words.number());
        }
        let bytes = text_of_library(rt.alloc(), behind)?;
        match verb {
            "submit" => self.submit(rt, words, &bytes),
            _ => texts::answer(rt, verb, bytes),
        }
    }
}

/// The number of shapes of a walk.
fn number_of(walk: &mut Walk<'_>) -> u64 {
    let mut count = 0u64;
    for _ in 0..u64::MAX {
        if walk.next().is_none() {
            break;
        }
        count = count.wrapping_add(1);
    }
    count
}

impl Hostile {
    /// Prints how many shapes and levels the submission has, or why there is none.
    fn submit(&mut self, rt: &HostRuntime, words: &mut Words<'_>, bytes: &[u8]) -> Result<()> {
        let cell = words.next();
        let (top, user) = (words.next(), cell);
        let entry = Entry { cell, top, user };
        match put_entry(rt.alloc(), &mut self.shelf, entry, bytes, MAX_SHAPES)? {
            Ok(number) => {
                let (count, height) = (self.shelf.count(number), self.shelf.height(number));
                Ok(println!(rt; "    {number}: {count} shapes, {height} levels")?)
            }
            Err(fault) => Ok(println!(rt; "    {fault}")?),
        }
    }

    /// Prints how many shapes a walk over a submission gives, its turns, and the product of its shapes and its levels plus 1.
    fn print_count(&self, rt: &HostRuntime, submission: u32) -> Result<()> {
        let roots = [Root {
            submission,
            placing: Placing {
                orient: Orient::R0,
                by: Point { x: 0, y: 0 },
            },
        }];
        if !all_fit(&self.shelf, &roots) {
            bail!("a submission");
        }
        let mut walk = Walk::new(&self.shelf, &roots);
        let count = number_of(&mut walk);
        let turns = walk.turns();
        let levels = u64::from(self.shelf.height(submission)).saturating_add(1);
        let most = levels.saturating_mul(count);
        if turns > most {
            bail!("no more turns than a walk may take");
        }
        Ok(println!(rt; "    {count} shapes, {turns} turns of at most {most}")?)
    }
}
