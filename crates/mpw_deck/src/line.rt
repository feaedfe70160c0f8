//! Reads the lines of a deck's text, by their words: the tile line and the rules' lines.

ghost use Rattle.std.specs.Prelude.{◌≡◌, ◌≤◌, ◌<◌, ◌^◌, map, length, IfOk};
ghost use Rattle.mpw_deck.specs.Decks.{IsRule};
ghost use Rattle.mpw_deck.specs.Reading.{
  one_layer_key,
  two_layer_key,
  one_check,
  two_check,
  one_layer,
  two_layers,
  rule_of,
  has_rule,
  is_tile_line,
  tile_of,
  next_rule,
};
ghost use Rattle.mpw_deck.specs.Internal.Reads.{Reads};

use crate::deck::{DeckKind, MAX_RULES};
use crate::fields::{distance, layer, rule_name};
use crate::rule::{Check, Rule};
use mpw_geom::{Layer, Name};
use mpw_text::{parts, read_number};
use std::alloc::Global;

/// The checks of one layer.
#[derive(Clone, Copy)]
pub(crate) enum OneLayer {
    Width,
    Space,
}

impl OneLayer {
    fn of(word: &[u8]) -> Option<OneLayer>
        ensures { result ≡ one_layer_key word.now }
    {
        if word == b"width".as_slice() {
            return Some(OneLayer::Width);
        }
        if word == b"space".as_slice() {
            return Some(OneLayer::Space);
        }
        None
    }

    fn check(self, layer: Layer) -> Check
        ensures { result ≡ one_check self layer }
    {
        match self {
            OneLayer::Width => Check::Width(layer),
            OneLayer::Space => Check::Space(layer),
        }
    }
}

/// The checks of two layers.
#[derive(Clone, Copy)]
pub(crate) enum TwoLayers {
    Separation,
    Enclosing,
}

impl TwoLayers {
    fn of(word: &[u8]) -> Option<TwoLayers>
        ensures { result ≡ two_layer_key word.now }
    {
        if word == b"separation".as_slice() {
            return Some(TwoLayers::Separation);
        }
        if word == b"enclosing".as_slice() {
            return Some(TwoLayers::Enclosing);
        }
        None
    }

    fn check(self, first: Layer, second: Layer) -> Check
        ensures { result ≡ two_check self first second }
    {
        match self {
            TwoLayers::Separation => Check::Separation(first, second),
            TwoLayers::Enclosing => Check::Enclosing(first, second),
        }
    }
}

/// The words of a rule of one layer, after its key.
#[tactic(auto, unfolding(crate::specs::Reading::one_layer))]
fn one_layer(
    alloc: Global,
    key: OneLayer,
    name: &[u8],
    on: &[u8],
    apart: &[u8],
) -> Result<Rule, DeckKind>
    ensures reads { Reads result (one_layer (one_check key) name.now on.now apart.now) }
    ensures rule { IfOk result IsRule }
{
    let name = rule_name(alloc, name)?;
    let check = key.check(layer(alloc, on)?);
    let distance = distance(apart)?;
    Ok(Rule {
        name,
        check,
        distance,
    })
}

/// The words of a rule of two layers, after its key.
#[tactic(auto, unfolding(crate::specs::Reading::two_layers))]
fn two_layers(
    alloc: Global,
    key: TwoLayers,
    name: &[u8],
    on: &[u8],
    other: &[u8],
    apart: &[u8],
) -> Result<Rule, DeckKind>
    ensures reads { Reads result (two_layers (two_check key) name.now on.now other.now apart.now) }
    ensures rule { IfOk result IsRule }
{
    let name = rule_name(alloc, name)?;
    let first = layer(alloc, on)?;
    let second = layer(alloc, other)?;
    let distance = distance(apart)?;
    if first == second {
        return Err(DeckKind::SameLayer);
    }
    let check = key.check(first, second);
    Ok(Rule {
        name,
        check,
        distance,
    })
}

/// The rule that the words of a line spell.
#[tactic(auto, unfolding(crate::specs::Reading::rule_of))]
fn rule(alloc: Global, words: &[&[u8]]) -> Result<Rule, DeckKind>
    ensures reads { Reads result (rule_of (map (λ x. x.now) words.now)) }
    ensures rule { IfOk result IsRule }
{
    match words {
        [key, name, on, apart] => match OneLayer::of(key) {
            Some(key) => one_layer(alloc, key, name, on, apart),
            None => Err(DeckKind::Word),
        },
        [key, name, on, other, apart] => match TwoLayers::of(key) {
            Some(key) => two_layers(alloc, key, name, on, other, apart),
            None => Err(DeckKind::Word),
        },
        _ => Err(DeckKind::Word),
    }
}

/// Whether a rule has the name.
fn has_rule(rules: &[Rule], name: &Name) -> bool
    ensures { result ≡ has_rule rules.now name.now }
{
    rules.iter().any(|rule| rule.name == *name)
}

/// Whether the first word is `tile`.
fn is_tile_line(words: &[&[u8]]) -> bool
    ensures { result ≡ is_tile_line (map (λ x. x.now) words.now) }
{
    match words {
        [] => false,
        [key, ..] => *key == b"tile".as_slice(),
    }
}

/// The side of the tiles, in nm, from the words of the first line.
#[tactic(auto, unfolding(crate::specs::Reading::tile_of))]
pub(crate) fn tile(words: &[&[u8]]) -> Result<u32, DeckKind>
    ensures value { result ≡ tile_of (map (λ x. x.now) words.now) }
    ensures short { IfOk result (λ side. 256 ≤ side) }
    ensures long { IfOk result (λ side. side ≤ 2 ^ 30) }
{
    if !is_tile_line(words) {
        return Err(DeckKind::Tile);
    }
    let [_, side] = words else {
        return Err(DeckKind::Word);
    };
    match read_number(side, 256, 1 << 30) {
        Some(side) => Ok(side),
        None => Err(DeckKind::Number),
    }
}

/// The rule on a later line, given the rules before it.
#[tactic(auto, unfolding(crate::specs::Reading::next_rule))]
pub(crate) fn next_rule(alloc: Global, rules: &[Rule], line: &[u8]) -> Result<Rule, DeckKind>
    ensures reads { Reads result (next_rule rules.now line.now) }
    ensures rule { IfOk result IsRule }
    ensures room { IfOk result (λ _. length rules.now < 256) }
{
    let words = parts(alloc, line, b' ')?;
    if is_tile_line(words.as_slice()) {
        return Err(DeckKind::Tile);
    }
    let rule = rule(alloc, words.as_slice())?;
    if has_rule(rules, &rule.name) {
        return Err(DeckKind::DoubleRule);
    }
    if rules.len() >= MAX_RULES {
        return Err(DeckKind::Rules);
    }
    Ok(rule)
}
