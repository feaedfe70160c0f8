//! The markers that requests name.
//!
//! A request names a marker by the name of its rule and the rest of its key. The rule is searched among the deck's, at most 256. Then the
//! key is found in the book by a binary search.
ghost use Rattle.std.specs.Prelude.{◌≡◌, ◌≤◌, length, option_map};
ghost use Rattle.mpw_markers.specs.Book.{place_in};
ghost use Rattle.mpw_signoff.specs.Named.{found_at, named_in, rule_place};
ghost use Rattle.mpw_signoff.specs.Internal.Named.{seen_named};

use mpw_deck::{Deck, Rule};
use mpw_geom::Name;
use mpw_markers::{Book, Key, Marker};
use mpw_requests::MarkerName;

/// A marker of a book with its index.
#[derive(Clone, Copy)]
pub(crate) struct Named<'a> {
    /// Its index in the book, from 0.
    pub place: usize,
    /// The marker at that index.
    pub marker: &'a Marker,
}

/// The index of the first rule of that name.
fn rule_index(rules: &[Rule], name: &Name) -> Option<usize>
    ensures { result ≡ rule_place rules.now name.now }
{
    rules.iter().position(|rule| rule.name == *name)
}

/// The same index, as a marker has it.
fn rule_place(rules: &[Rule], name: &Name) -> Option<u32>
    requires { length rules.now ≤ 256 }
    ensures { result ≡ rule_place rules.now name.now }
{
    let place = rule_index(rules, name)?;
    Some(place as u32)
}

/// The marker of that key.
fn found_at<'a>(book: &'a Book, key: &Key) -> Option<Named<'a>>
    ensures { option_map seen_named result ≡ found_at book.now (place_in book.now key.now) }
{
    let place = book.place(key)?;
    let marker = book.as_slice().get(place)?;
    Some(Named { place, marker })
}

/// The marker of the book with that name, if there is one. Cost: a comparison for each of the deck's rules, and a binary search.
#[tactic(auto, unfolding(crate::specs::Named::named_in))]
pub(crate) fn named_in<'a>(deck: &Deck, book: &'a Book, name: &MarkerName) -> Option<Named<'a>>
    ensures { option_map seen_named result ≡ named_in deck.now.rules book.now name.now }
{
    deck.is_deck();
    let rule = rule_place(deck.rules().as_slice(), &name.rule)?;
    let piece = name.piece;
    found_at(book, &Key { rule, piece })
}
