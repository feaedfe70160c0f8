//! Reads the words of a rule's line: its name, its layers and its distance.

ghost use Rattle.std.specs.Prelude.{◌≡◌, ◌≤◌, IfOk, ◌==◌, ◌&&◌, not, nat_le, map};
ghost use Rattle.std.specs.List.{list_all};
ghost use Rattle.mpw_deck.specs.Reading.{is_rule_name, layer_from, layer_of, rule_name, distance_of};
ghost use Rattle.mpw_deck.specs.Internal.Reads.{Reads};

use crate::deck::DeckKind;
use mpw_geom::{Layer, Name, NameFault};
use mpw_text::{parts, read_number};
use std::alloc::Global;

/// Whether all bytes are visible and none is a colon.
fn are_rule_bytes(word: &[u8]) -> bool
    ensures { result ≡ list_all (λ b. (nat_le 0x21 b && nat_le b 0x7E) && not (b == 58)) word.now }
{
    word.iter().all(|b| *b >= 0x21 && *b <= 0x7E && *b != b':')
}

/// Whether the word is a rule's name: a name without a colon.
fn is_rule_name(word: &[u8]) -> bool
    ensures { result ≡ is_rule_name word.now }
{
    !word.is_empty() && word.len() <= 255 && are_rule_bytes(word)
}

/// The rule's name in a word.
#[tactic(auto, unfolding(crate::specs::Reading::rule_name))]
pub(crate) fn rule_name(alloc: Global, word: &[u8]) -> Result<Name, DeckKind>
    ensures { Reads result (rule_name word.now) }
{
    if !is_rule_name(word) {
        return Err(DeckKind::Word);
    }
    match Name::read(alloc, word) {
        Ok(name) => Ok(name),
        Err(NameFault::BadName) => Err(DeckKind::Word),
        Err(NameFault::Memory) => Err(DeckKind::Memory),
    }
}

/// The layer that the halves of a word spell.
fn layer_from(halves: &[&[u8]]) -> Option<Layer>
    ensures { result ≡ layer_from (map (λ x. x.now) halves.now) }
{
    let [layer, datatype] = halves else {
        return None;
    };
    let layer = read_number(layer, 0, 65535)?;
    let datatype = read_number(datatype, 0, 65535)?;
    Some(Layer {
        layer: layer as u16,
        datatype: datatype as u16,
    })
}

/// The layer that a word `L/D` spells.
#[tactic(auto, unfolding(crate::specs::Reading::layer_of))]
pub(crate) fn layer(alloc: Global, word: &[u8]) -> Result<Layer, DeckKind>
    ensures { Reads result (layer_of word.now) }
{
    let halves = parts(alloc, word, b'/')?;
    match layer_from(halves.as_slice()) {
        Some(layer) => Ok(layer),
        None => Err(DeckKind::Layer),
    }
}

/// The distance that a word spells, in nm.
#[tactic(auto, unfolding(crate::specs::Reading::distance_of))]
pub(crate) fn distance(word: &[u8]) -> Result<u32, DeckKind>
    ensures value { result ≡ distance_of word.now }
    ensures least { IfOk result (λ n. 1 ≤ n) }
    ensures most { IfOk result (λ n. n ≤ 65535) }
{
    match read_number(word, 1, 65535) {
        Some(distance) => Ok(distance),
        None => Err(DeckKind::Number),
    }
}
