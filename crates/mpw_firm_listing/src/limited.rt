//! Writes the listing of the first markers of each rule.
ghost use Rattle.std.specs.Prelude.{◌≡◌};
ghost use Rattle.std.specs.List.{enumerate_from, flat_map};
ghost use Rattle.mpw_firm_listing.specs.Limited.{limited_of, limited_text, listed_count, listed_of, rule_lines};
ghost use Rattle.mpw_text.specs.Writing.{Adds};

use crate::count::count_of_rule;
use crate::line::{put_head, put_line};
use mpw_deck::Rule;
use mpw_firm_grid::Parts;
use mpw_geom::Name;
use mpw_markers::Marker;
use std::io::{self, Write};

/// Some markers of a structure, under the rules of a deck.
#[derive(Clone, Copy, Drop)]
pub struct Limited<'a> {
    /// The name of the structure.
    pub top: &'a Name,
    /// The rules.
    pub rules: &'a [Rule],
    /// The markers. A marker whose rule isn't among the rules has no line.
    pub markers: &'a [Marker],
    /// The most markers of a rule that are listed: the first ones.
    pub limit: usize,
    /// The parts of a nanometre that lengths count.
    pub parts: &'a Parts,
}

/// How many markers of the rule at index `place` are listed.
fn listed_of(listing: &Limited<'_>, place: usize, rule: &Rule) -> usize
    ensures { result ≡ listed_of (limited_of listing.now) (place, rule.now) }
{
    let count = count_of_rule(listing.markers, place);
    if listing.limit < count {
        listing.limit
    } else {
        count
    }
}

/// How many are listed, up to 2^64 - 1.
#[tactic(auto, unfolding(crate::specs::Limited::listed_count))]
fn listed_count(listing: &Limited<'_>) -> usize
    ensures { result ≡ listed_count (limited_of listing.now) }
{
    let mut count = 0usize;
    for (place, rule) in listing.rules.iter().enumerate() {
        count = count.saturating_add(listed_of(listing, place, rule));
    }
    count
}

/// Writes the lines of the first markers of the rule at index `place`, in their order.
fn put_rule_lines<W: Write>(
    writer: &mut W,
    listing: &Limited<'_>,
    place: usize,
    rule: &Rule,
) -> io::Result<()>
    ensures { Adds W.contents writer.old writer.new result (rule_lines (limited_of listing.now) (place, rule.now)) }
{
    let mut left = listing.limit;
    for marker in listing.markers {
        if marker.key.rule as usize == place {
            if left > 0 {
                put_line(writer, listing.top, rule, listing.parts, marker)?;
                left -= 1;
            }
        }
    }
    Ok(())
}

/// Writes the lines of each rule, in the rules' order.
fn put_lines<W: Write>(writer: &mut W, listing: &Limited<'_>) -> io::Result<()>
    ensures { Adds W.contents writer.old writer.new result (flat_map (rule_lines (limited_of listing.now)) (enumerate_from 0 listing.now.rules.now)) }
{
    for (place, rule) in listing.rules.iter().enumerate() {
        put_rule_lines(writer, listing, place, rule)?;
    }
    Ok(())
}

/// Writes the first markers of each rule, up to the limit, as a desk lists markers: `OK` with how many are listed, and then one line for
/// each, in the rules' order, with the marker's key and the structure's name. So the first markers of each rule have the same listing as all
/// ([`first_markers_are_listed`](crate::first_markers_are_listed)). It takes no memory, and for each rule two passes over the markers.
///
/// # Errors
/// Those of the writer, which then has a part of the text.
#[tactic(auto, unfolding(crate::specs::Limited::limited_text))]
pub fn write_limited<W: Write>(writer: &mut W, listing: &Limited<'_>) -> io::Result<()>
    ensures { Adds W.contents writer.old writer.new result (limited_text (limited_of listing.now)) }
{
    put_head(writer, listed_count(listing))?;
    put_lines(writer, listing)
}
