//! Reads the whole text of a deck.

ghost use Rattle.std.specs.Prelude.{◌≡◌, ◌≢◌, ◌≤◌, ◌^◌, [], map, length, All, IfOk, IfErr, Ok, Err};
ghost use Rattle.mpw_deck.specs.Decks.{IsRule};
ghost use Rattle.mpw_deck.specs.declared.deck.DeckKind.TheVariants.{Memory};
ghost use Rattle.mpw_deck.specs.Reading.{rules_of, tile_of, deck_of};
ghost use Rattle.mpw_text.specs.Text.{words_of};

use crate::deck::{Deck, DeckFault, DeckKind, Rules};
use crate::line::{next_rule, tile};
use crate::rule::Rule;
use mpw_text::{lines, parts};
use std::alloc::Global;

/// The fault `Memory` at a line.
fn no_memory(line: usize) -> DeckFault
    ensures { result.kind ≡ Memory }
{
    DeckFault {
        kind: DeckKind::Memory,
        line,
    }
}

/// The rules of the lines after the first.
fn rules(alloc: Global, lines: &[&[u8]]) -> Result<Vec<Rule>, DeckFault>
    ensures ok { IfOk result (λ v. rules_of 2 [] (map (λ x. x.now) lines.now) ≡ Ok v.items) }
    ensures fault { IfErr result (λ f.
        f.kind ≢ Memory → rules_of 2 [] (map (λ x. x.now) lines.now) ≡ Err f) }
    ensures few { IfOk result (λ v. length v.items ≤ 256) }
    ensures rules { IfOk result (λ v. All IsRule v.items) }
{
    let mut rules = Vec::new(alloc);
    for (i, line) in lines.iter().enumerate() {
        let line_number = i + 2;
        match next_rule(alloc, rules.as_slice(), line) {
            Ok(rule) => {
                let Ok(()) = rules.push(rule) else {
                    return Err(no_memory(line_number));
                };
            }
            Err(kind) => {
                return Err(DeckFault {
                    kind,
                    line: line_number,
                });
            }
        }
    }
    Ok(rules)
}

/// The side of the tiles on the first line, in nm.
fn side(alloc: Global, line: &[u8]) -> Result<u32, DeckFault>
    ensures ok { IfOk result (λ n. tile_of (words_of line.now) ≡ Ok n) }
    ensures fault { IfErr result (λ f.
        f.kind ≢ Memory → (tile_of (words_of line.now) ≡ Err f.kind) × (f.line ≡ 1)) }
    ensures short { IfOk result (λ n. 256 ≤ n) }
    ensures long { IfOk result (λ n. n ≤ 2 ^ 30) }
{
    let Ok(words) = parts(alloc, line, b' ') else {
        return Err(no_memory(1));
    };
    match tile(words.as_slice()) {
        Ok(side) => Ok(side),
        Err(kind) => Err(DeckFault { kind, line: 1 }),
    }
}

/// Reads a deck. Its text is lines that end with a line feed, which the last one may lack. A line is words
/// separated by one space: first `tile S`, then at most 256 rules, each `width NAME L/D d`, `space NAME L/D d`,
/// `separation NAME L/D L/D d` or `enclosing NAME L/D L/D d`. Cost: one pass, and for each rule a comparison with
/// the names before it. All lines of the text together take 16 bytes of memory each, even those after the first
/// fault ([`lines`]).
///
/// # Errors
/// The first faulty line, counted from 1, with its first fault. A line is tested in this order. The
/// first line: its first word (`Tile`), the number of its words (`Word`), the side, 256 to 2^30
/// (`Number`). A text without lines is `Tile` at line 1. A later line: a first word `tile`
/// (`Tile`), another first word or number of words, then the name (`Word`), each layer, two numbers
/// to 65535 (`Layer`), the distance, 1 to 65535 (`Number`), equal layers of a rule with two
/// (`SameLayer`), a name used before (`DoubleRule`), more than 256 rules (`Rules`).
pub fn read_deck(alloc: Global, text: &[u8]) -> Result<Deck, DeckFault>
    ensures ok { IfOk result (λ deck. deck_of text.now ≡ Ok deck) }
    ensures fault { IfErr result (λ f. f.kind ≢ Memory → deck_of text.now ≡ Err f) }
{
    let Ok(lines) = lines(alloc, text) else {
        return Err(no_memory(1));
    };
    let [first, rest @ ..] = lines.as_slice() else {
        return Err(DeckFault {
            kind: DeckKind::Tile,
            line: 1,
        });
    };
    let tile = side(alloc, first)?;
    let rules = rules(alloc, rest)?;
    match Rules::from_vec(alloc, rules) {
        Ok(rules) => Ok(Deck::new(tile, rules)),
        Err(_) => Err(no_memory(lines.len())),
    }
}
