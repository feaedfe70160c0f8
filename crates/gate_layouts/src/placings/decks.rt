//! Texts of decks.

use anyhow::Result;
use mpw_deck::{Deck, DeckError, DeckText};
use std::alloc::{AllocError, Global};
use std::io;

/// The text of lines with `; ` between them, or an empty one.
pub fn text(alloc: Global, lines: &str) -> Result<DeckText, AllocError> {
    let mut text = lines.trim().replace(alloc, "; ", "\n")?;
    if !text.is_empty() {
        text.push('\n')?;
    }
    DeckText::read(alloc, text.into_bytes())
}

/// Prints the side of tiles, and the rules.
fn print_rules(rt: &HostRuntime, which: &str, deck: &Deck) -> io::Result<()> {
    print!(rt; "    {which}: tile {}", deck.tile())?;
    for rule in deck.rules().as_slice() {
        print!(rt; ", {} {}", rule.name, rule.distance)?;
    }
    println!(rt)
}

/// Prints the deck of a text.
fn print_one(rt: &HostRuntime, which: &str, text: &DeckText) -> io::Result<()> {
    match text.deck(rt.alloc()) {
        Ok(deck) => print_rules(rt, which, &deck),
        Err(DeckError::Fault(fault)) => println!(rt; "    {which}: {fault}"),
        Err(DeckError::Memory) => println!(rt; "    {which}: out of memory"),
    }
}

/// Prints the deck of a text three times.
pub fn print_deck(rt: &HostRuntime, lines: &str) -> Result<()> {
    let text = text(rt.alloc(), lines)?;
    print_one(rt, "text", &text)?;
    print_one(rt, "copy", &text.copy()?)?;
    Ok(print_one(rt, "alone", &text.alone()?)?)
}
