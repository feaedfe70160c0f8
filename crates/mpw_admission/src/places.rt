//! Which places of a service are for connections with a session.
ghost use Rattle.std.specs.Prelude.{◌≡◌, Bool, position};
ghost use Rattle.mpw_admission.specs.Places.{kept_of, leaving};

/// A connection that has a place.
pub trait Placed {
    ghost is_stranger: { Self → Bool };

    /// Whether it never had a session.
    fn is_stranger(&self) -> bool
        ensures { result ≡ is_stranger self.now };
}

/// How many of so many places are reserved for connections with a session: a quarter, two at least, but never all.
pub fn kept_places(places: u32) -> u32
    ensures { result ≡ kept_of places }
{
    (places / 4).max(2).min(places.saturating_sub(1))
}

/// The first connection that is a stranger, by its index.
fn oldest_stranger<P: Placed>(taken: &[P]) -> Option<usize>
    ensures { result ≡ position P.is_stranger taken.now }
{
    taken.iter().position(
        |placed: &P| -> bool
            ensures { result ≡ P.is_stranger placed.now }
        { placed.is_stranger() },
    )
}

/// Which connection leaves for a newcomer, by its index: the oldest stranger, if no more places are free than are reserved. `taken` have one,
/// the oldest first.
pub fn leaving<P: Placed>(places: u32, free: u32, taken: &[P]) -> Option<usize>
    ensures { result ≡ leaving places free (position P.is_stranger taken.now) }
{
    if free <= kept_places(places) {
        oldest_stranger(taken)
    } else {
        None
    }
}
