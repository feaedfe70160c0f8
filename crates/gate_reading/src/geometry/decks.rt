//! Reads decks, and prints their rules or their first fault.

use anyhow::{Result, bail};
use mpw_deck::{Check, Deck, Rule, read_deck};
use mpw_geom::Layer;
use std::alloc::{AllocError, Global};
use std::io;

/// Adds that many rules, with line feeds between them.
fn add_rules(alloc: Global, text: &mut String, count: u32) -> Result<(), AllocError> {
    for number in 0..count {
        let feed = if number == 0 { "" } else { "\n" };
        text.push_str(format!(in alloc; "{feed}width r{number} 1/0 5")?.as_str())?;
    }
    Ok(())
}

/// Adds a line, or that many rules.
fn add_line(alloc: Global, text: &mut String, line: &str) -> Result<()> {
    match line.strip_prefix("rules ") {
        Some(count) => add_rules(alloc, text, count.parse::<u32>()?)?,
        None => text.push_str(line)?,
    }
    Ok(())
}

/// The text of a deck, from its word, in which `;` is a line feed.
fn text(alloc: Global, word: &str) -> Result<String> {
    let word = word
        .replace(alloc, "\\r", "\r")?
        .replace(alloc, "\\t", "\t")?;
    let mut text = String::new(alloc);
    for (place, line) in word.split(';').enumerate() {
        if place > 0 {
            text.push('\n')?;
        }
        add_line(alloc, &mut text, line)?;
    }
    Ok(text)
}

fn print_layers(rt: &HostRuntime, rule: &Rule, check: &str, layers: &[Layer]) -> io::Result<()> {
    print!(rt; "    {check} {}", rule.name)?;
    for on in layers {
        print!(rt; " {}/{}", on.layer, on.datatype)?;
    }
    println!(rt; " {}", rule.distance)
}

fn print_rule(rt: &HostRuntime, rule: &Rule) -> io::Result<()> {
    match rule.check {
        Check::Width(layer) => print_layers(rt, rule, "width", &[layer]),
        Check::Space(layer) => print_layers(rt, rule, "space", &[layer]),
        Check::Separation(layer, other) => print_layers(rt, rule, "separation", &[layer, other]),
        Check::Enclosing(layer, other) => print_layers(rt, rule, "enclosing", &[layer, other]),
    }
}

/// Prints the tile, the number of rules, and each rule if they are few.
fn print_deck(rt: &HostRuntime, deck: &Deck) -> io::Result<()> {
    let rules = deck.rules().as_slice();
    println!(rt; "    tile {}, {} rules", deck.tile(), rules.len())?;
    if rules.len() < 10 {
        for rule in rules {
            print_rule(rt, rule)?;
        }
    }
    Ok(())
}

/// Whether a copy is the same deck, and a deck with the same tile and no rules is another one, unless there are none.
fn is_itself(alloc: Global, deck: &Deck) -> Result<bool> {
    let text = format!(in alloc; "tile {}", deck.tile())?;
    let bare = read_deck(alloc, text.as_bytes())?;
    let is_bare = deck.rules().as_slice().is_empty();
    Ok(deck.is_same(&deck.copy()?) && deck.is_same(&bare) == is_bare)
}

/// Reads a deck by its text in brackets, and prints it or its fault.
pub fn deck(rt: &HostRuntime, word: &str) -> Result<()> {
    let inner = word.strip_prefix('[').unwrap_or(word);
    let text = text(rt.alloc(), inner.strip_suffix(']').unwrap_or(inner))?;
    match read_deck(rt.alloc(), text.as_bytes()) {
        Ok(deck) => {
            print_deck(rt, &deck)?;
            if !is_itself(rt.alloc(), &deck)? {
                bail!("a deck that is its copy's");
            }
            Ok(())
        }
        Err(fault) => Ok(println!(rt; "    {fault}")?),
    }
}
