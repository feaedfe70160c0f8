//! Counts the markers of a rule.
ghost use Rattle.std.specs.Prelude.{◌≡◌, ◌≤◌, length};
ghost use Rattle.mpw_firm_listing.specs.Limited.{count_of};

use mpw_markers::Marker;

/// How many of the markers are of the rule at index `place` in the deck, from 0. One pass over them.
pub fn count_of_rule(markers: &[Marker], place: usize) -> usize
    ensures count { result ≡ count_of markers.now place }
    ensures most { result ≤ length markers.now }
{
    let mut count = 0usize;
    for marker in markers {
        if marker.key.rule as usize == place {
            count += 1;
        }
    }
    count
}
