//! The counts of masked markers, by rule.
ghost use Rattle.std.specs.Prelude.{◌≡◌, ◌≤◌, ◌<◌, ◌^◌, ◌+◌, ◌∷◌, [], ℕ, length, drop, slice_index, IfOk, IfSome, IfNone};
ghost use Rattle.mpw_replies.specs.Ranks.{numbered_lines};
ghost use Rattle.mpw_replies.specs.Internal.Ranks.{AreNumbers, masked_one};
ghost use Rattle.mpw_replies.specs.Views.{number_line};

use crate::sight::is_masked;
use mpw_deck::Rule;
use mpw_geom::Name;
use mpw_markers::Marker;
use std::alloc::{AllocError, Global};
use std::marker::Model;

/// The count of a rule's masked markers, with the rule's name.
#[derive(Clone, Copy)]
pub struct MaskedView<'a> {
    /// The rule's name in the run's deck.
    pub rule: &'a Name,
    /// How many of its markers are masked for the session, at least 1.
    pub number: usize,
}

/// The counts of masked markers that are left, of the rules that have such markers. Contracts see their lines. It takes no memory.
#[derive(Drop)]
pub struct MaskedViews<'a> {
    rules: &'a [Rule],
    numbers: &'a [usize],
    at: usize,
}

impl<'a> Model for MaskedViews<'a> {
    ghost use Rattle.std.specs.Prelude.{◌≡◌, List, drop, length};
    ghost use Rattle.mpw_replies.specs.Listing.{Listed};
    ghost use Rattle.mpw_replies.specs.Ranks.{numbered_lines};

    ghost Value = { List Listed };

    ghost view = { λ v. numbered_lines v.numbers.now v.at (drop v.at v.rules.now) };

    ghost invariant = { λ v. length v.numbers.now ≡ length v.rules.now };
}

impl<'a> MaskedViews<'a> {
    /// The lines of the rules' counts. Constant time.
    pub(crate) fn new(rules: &'a [Rule], numbers: &'a [usize]) -> MaskedViews<'a>
        requires { length numbers.now ≡ length rules.now }
        ensures { result ≡ numbered_lines numbers.now 0 rules.now }
    {
        MaskedViews {
            rules,
            numbers,
            at: 0,
        }
    }

    /// The next count that isn't 0, or none after the last. It takes no memory.
    pub fn next(&mut self) -> Option<MaskedView<'a>>
        ensures some { IfSome result (λ view. self.old ≡ number_line view ∷ self.new) }
        ensures none { IfNone result (self.old ≡ []) }
    {
        next_number(&mut self.at, self.rules, self.numbers)
    }
}

/// The next count that isn't 0, from an index on.
fn next_number<'a>(at: &mut usize, rules: &'a [Rule], numbers: &[usize]) -> Option<MaskedView<'a>>
    requires { length numbers.now ≡ length rules.now }
    ensures some { IfSome result (λ view. numbered_lines numbers.now at.old (drop at.old rules.now) ≡ number_line view ∷ numbered_lines numbers.now at.new (drop at.new rules.now)) }
    ensures none { IfNone result (numbered_lines numbers.now at.old (drop at.old rules.now) ≡ []) }
{
    while *at < rules.len() {
        let place = *at;
        *at += 1;
        let number = numbers[place];
        if number != 0 {
            return Some(MaskedView {
                rule: &rules[place].name,
                number,
            });
        }
    }
    None
}

/// How many counts aren't 0.
pub(crate) fn count_numbered(rules: &[Rule], numbers: &[usize]) -> usize
    requires { length numbers.now ≡ length rules.now }
    ensures count { result ≡ length (numbered_lines numbers.now 0 rules.now) }
    ensures few { result ≤ length rules.now }
{
    let mut count = 0usize;
    for place in 0..rules.len() {
        if numbers[place] != 0 {
            count += 1;
        }
    }
    count
}

/// For each of `rules` rules the count of its masked markers. One pass over the book with its touched submissions.
///
/// # Errors
/// Out of memory.
pub(crate) fn numbers_of(
    alloc: Global,
    many: usize,
    seen: &[bool],
    book: &[Marker],
) -> Result<Vec<usize>, AllocError>
    ensures many { IfOk result (λ numbers. length numbers.items ≡ many) }
    ensures numbers { IfOk result (λ numbers. AreNumbers seen.now book.now numbers.items) }
{
    let mut numbers = vec![in alloc; 0usize; many]?;
    for marker in book {
        add_masked(&mut numbers, seen, marker);
    }
    Ok(numbers)
}

/// Counts the marker if it is masked.
fn add_masked(numbers: &mut Vec<usize>, seen: &[bool], marker: &Marker)
    requires { (place : ℕ) → place < length numbers.old.items → slice_index numbers.old.items place + 1 < 2 ^ 64 }
    ensures many { length numbers.new.items ≡ length numbers.old.items }
    ensures more { (place : ℕ) → place < length numbers.old.items → slice_index numbers.new.items place ≡ slice_index numbers.old.items place + masked_one seen.now marker.now place }
{
    let place = marker.key.rule as usize;
    if place < numbers.len() && is_masked(seen, marker) {
        numbers[place] += 1;
    }
}
