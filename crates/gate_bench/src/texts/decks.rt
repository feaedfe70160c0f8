//! What reading a deck gives.

use crate::texts::sum::Sum;
use anyhow::{Result, bail};
use mpw_deck::{Check, Deck, DeckError, DeckFault, DeckText, Rule};
use mpw_geom::Layer;

/// A check by its number, and its layers.
fn add_check(sum: &mut Sum, check: Check) {
    let (number, layers): (u64, [Option<Layer>; 2]) = match check {
        Check::Width(layer) => (1, [Some(layer), None]),
        Check::Space(layer) => (2, [Some(layer), None]),
        Check::Separation(first, second) => (3, [Some(first), Some(second)]),
        Check::Enclosing(first, second) => (4, [Some(first), Some(second)]),
    };
    sum.add(number);
    for layer in layers {
        if let Some(layer) = layer {
            sum.add_layer(layer);
        }
    }
}

/// A rule's name, its check, and its distance.
fn add_rule(sum: &mut Sum, rule: &Rule) {
    sum.add_name(&rule.name);
    add_check(sum, rule.check);
    sum.add(u64::from(rule.distance));
}

/// Prints the side of the tiles, the number of rules, and the sum.
fn report_deck(rt: &HostRuntime, deck: &Deck) -> Result<()> {
    let mut sum = Sum::new();
    let rules = deck.rules().as_slice();
    for rule in rules {
        add_rule(&mut sum, rule);
    }
    Ok(println!(rt; "deck {} {} {}", deck.tile(), rules.len(), sum.value())?)
}

/// Reads a text as that of a request is read, and prints what that gives.
pub fn report(rt: &HostRuntime, bytes: &[u8]) -> Result<()> {
    let text = DeckText::read(rt.alloc(), Vec::from_slice(rt.alloc(), bytes)?)?;
    match text.deck(rt.alloc()) {
        Ok(deck) => report_deck(rt, &deck),
        Err(DeckError::Fault(DeckFault { kind, line })) => Ok(println!(rt; "{line}: {kind}")?),
        Err(DeckError::Memory) => bail!("out of memory"),
    }
}
