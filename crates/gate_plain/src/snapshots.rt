//! Decks by their rules, and snapshots.

use crate::shelves::submit_text;
use anyhow::{Result, bail};
use mpw_deck::{Deck, read_deck};
use mpw_geom::{Orient, Placing, Point};
use mpw_hier::Shelf;
use mpw_tiles::{Snapshot, are_roots};
use mpw_walk::Root;
use std::alloc::Global;

/// The first submission as it is drawn.
const DRAWN: Root = Root {
    submission: 0,
    placing: Placing {
        orient: Orient::R0,
        by: Point { x: 0, y: 0 },
    },
};

/// The deck of rules with `;` between them, and of tiles of that side.
///
/// # Errors
/// The deck is refused, or out of memory.
pub fn deck_of(alloc: Global, side: &str, rules: &str) -> Result<Deck> {
    let text = format!(in alloc; "tile {side}\n{}", rules.trim())?;
    let text = text.replace(alloc, "; ", "\n")?.replace(alloc, ";", "\n")?;
    Ok(read_deck(alloc, text.as_bytes())?)
}

/// The snapshot of placed submissions.
///
/// # Errors
/// A root isn't one of the shelf, or out of memory.
pub fn placed(alloc: Global, deck: Deck, shelf: &Shelf, roots: &[Root]) -> Result<Snapshot> {
    let roots = Vec::from_slice(alloc, roots)?;
    let shelf = shelf.copy(alloc)?;
    if !are_roots(&shelf, &roots) {
        bail!("roots that fit");
    }
    Ok(Snapshot::new(alloc, deck, roots, shelf)?)
}

/// The snapshot of a library's structure `TOP`, as it is drawn.
///
/// # Errors
/// The library is refused, or out of memory.
pub fn drawn(alloc: Global, deck: Deck, text: &[u8]) -> Result<Snapshot> {
    let mut shelf = Shelf::new(alloc);
    submit_text(alloc, &mut shelf, "chip", "TOP", text)?;
    placed(alloc, deck, &shelf, &[DRAWN])
}
