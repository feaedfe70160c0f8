//! A deck on a grid: its lengths count parts of a nanometre.
ghost use Rattle.std.specs.Prelude.{◌≡◌, ◌*◌, ◌≤◌, false, map, option_copied, IfOk, IfNone};
ghost use Rattle.std.specs.List.{list_any};
ghost use Rattle.mpw_firm_grid.specs.Decks.{deck_on, first_beyond, is_beyond, rule_on, side_on, Fit};

use crate::parts::Parts;
use mpw_deck::{Deck, Rule, Rules};
use std::alloc::{AllocError, Global};

/// The greatest distance of a rule.
const MAX_DISTANCE: u64 = 65535;

/// The greatest side of tiles.
const MAX_SIDE: u64 = 1 << 30;

/// Whether a rule's distance has more parts than a rule may have.
fn is_beyond(rule: &Rule, parts: u16) -> bool
    ensures { result ≡ is_beyond parts rule.now }
{
    u64::from(rule.distance) * u64::from(parts) > MAX_DISTANCE
}

/// The first rule of a deck whose distance has more parts of a nanometre than a rule may have, which is 65535; none if each has few enough.
pub fn first_beyond<'a>(deck: &'a Deck, parts: &Parts) -> Option<&'a Rule>
    ensures found { option_copied result ≡ first_beyond parts.now deck.entry.now.rules }
    ensures none { IfNone result (Fit parts.now deck.entry.now.rules) }
{
    let parts = parts.count();
    for rule in deck.rules().as_slice() {
        if is_beyond(rule, parts) {
            return Some(rule);
        }
    }
    None
}

/// A rule whose distance counts parts.
fn rule_on(rule: &Rule, parts: u16) -> Result<Rule, AllocError>
    requires { rule.now.distance * parts ≤ 65535 }
    ensures { IfOk result (λ made. made ≡ rule_on parts rule.now) }
{
    Ok(Rule {
        name: rule.name.copy()?,
        check: rule.check,
        distance: rule.distance * u32::from(parts),
    })
}

/// The rules, whose distances count parts.
fn rules_on(alloc: Global, rules: &[Rule], parts: u16) -> Result<Vec<Rule>, AllocError>
    requires { Fit parts rules.now }
    ensures { IfOk result (λ made. made.items ≡ map (rule_on parts) rules.now) }
{
    let mut made = Vec::new(alloc);
    for rule in rules {
        made.push(rule_on(rule, parts)?)?;
    }
    Ok(made)
}

/// The side of tiles in parts, up to 2^30.
fn side_on(side: u32, parts: u16) -> u32
    ensures { result ≡ side_on parts side }
{
    (u64::from(side) * u64::from(parts)).min(MAX_SIDE) as u32
}

/// A deck whose lengths count parts of a nanometre. Tiles have the same side, but at most 2^30 parts. It copies the rules.
///
/// # Errors
/// Out of memory.
pub fn deck_on(alloc: Global, deck: &Deck, parts: &Parts) -> Result<Deck, AllocError>
    requires { Fit parts.now deck.now.rules }
    ensures { IfOk result (λ made. made ≡ deck_on parts.now deck.now) }
{
    deck.is_deck();
    let parts = parts.count();
    let side = side_on(deck.tile(), parts);
    let rules = rules_on(alloc, deck.rules().as_slice(), parts)?;
    Ok(Deck::new(side, Rules::from_vec(alloc, rules)?))
}
