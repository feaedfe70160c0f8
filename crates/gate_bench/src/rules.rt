//! How many markers each rule of a deck has.

use mpw_deck::Rules;
use mpw_markers::Marker;
use std::io;

/// How many of the markers are of the rule at that index of its deck.
fn of_rule(markers: &[Marker], place: usize) -> usize {
    let mut count = 0usize;
    for marker in markers {
        count = count.saturating_add(usize::from(marker.key.rule as usize == place));
    }
    count
}

/// Prints how many markers each rule has.
pub fn print_rules(rt: &HostRuntime, rules: &Rules, markers: &[Marker]) -> io::Result<()> {
    for (place, rule) in rules.as_slice().iter().enumerate() {
        println!(rt; "  {}: {}", rule.name, of_rule(markers, place))?;
    }
    Ok(())
}
