//! What a session sees of a marker, by which of the submissions that it touches may be seen.
ghost use Rattle.std.specs.Prelude.{◌≡◌, slice_get};
ghost use Rattle.std.specs.List.{list_all, list_any};
ghost use Rattle.mpw_seen.specs.Seen.{is_seen};
ghost use Rattle.mpw_replies.specs.Sight.{is_full, is_masked};

use mpw_markers::Marker;
use mpw_seen::is_seen;

/// Whether each of the submissions may be seen. One pass over their numbers.
fn are_all_seen(seen: &[bool], met: &[u32]) -> bool
    ensures { result ≡ list_all (λ number. is_seen (slice_get seen.now number)) met.now }
{
    met.iter().all(|number| is_seen(seen, *number))
}

/// Whether one of the submissions may be seen. One pass over their numbers.
fn is_one_seen(seen: &[bool], met: &[u32]) -> bool
    ensures { result ≡ list_any (λ number. is_seen (slice_get seen.now number)) met.now }
{
    met.iter().any(|number| is_seen(seen, *number))
}

/// Whether the marker is full: each submission that it touches may be seen.
pub(crate) fn is_full(seen: &[bool], marker: &Marker) -> bool
    ensures { result ≡ is_full seen.now marker.now }
{
    are_all_seen(seen, marker.met.as_slice())
}

/// Whether the marker is masked: some of the submissions that it touches may be seen, and some not.
pub(crate) fn is_masked(seen: &[bool], marker: &Marker) -> bool
    ensures { result ≡ is_masked seen.now marker.now }
{
    let met = marker.met.as_slice();
    !are_all_seen(seen, met) && is_one_seen(seen, met)
}
