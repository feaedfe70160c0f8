//! Ascending indices into a list, stored in little memory if they are consecutive.

ghost use Rattle.std.specs.Prelude.{◌≡◌, ◌<◌, length, slice_index, IfSome};
ghost use Rattle.mpw_hier.specs.Internal.Places.{IsRunOf};

use std::marker::Model;

/// Consecutive indices.
#[derive(Clone, Copy)]
struct Run {
    /// The first of them.
    first: usize,
    /// How many there are.
    count: usize,
}

/// How the indices are stored.
#[derive(Drop)]
enum Held {
    /// Each is one more than the one before.
    Run(Run),
    /// One by one.
    Listed(Vec<usize>),
}

/// Indices into a list. Contracts see them as a list of numbers. If they are consecutive, as when the shapes of a structure are adjacent,
/// they take no memory beyond 32 bytes.
pub struct Places {
    held: Held,
}

impl Drop for Places {
    fn drop(self) {
        let Places { held } = self;
        drop(held);
    }
}

impl Model for Places {
    ghost use Rattle.std.specs.Prelude.{ℕ, List};
    ghost use Rattle.mpw_hier.specs.Internal.Places.{places_in, IsHeld};

    ghost Value = { List ℕ };

    ghost view = { λ p. places_in p.held };

    ghost invariant = { λ p. IsHeld p.held };
}

/// The run that equals these indices, if they are consecutive. One pass.
fn run_of(places: &[usize]) -> Option<Run>
    ensures { IfSome result (λ run. IsRunOf places.now run) }
{
    let [first, ..] = places else {
        return None;
    };
    let (first, count) = (*first, places.len());
    first.checked_add(count)?;
    for index in 0..count {
        if places[index] != first + index {
            return None;
        }
    }
    Some(Run { first, count })
}

impl Places {
    /// These indices. One pass.
    pub fn of(places: Vec<usize>) -> Places
        ensures { result ≡ places.items }
    {
        match run_of(places.as_slice()) {
            Some(run) => Places {
                held: Held::Run(run),
            },
            None => Places {
                held: Held::Listed(places),
            },
        }
    }

    /// How many there are.
    pub fn len(&self) -> usize
        ensures { result ≡ length self.now }
    {
        match &self.held {
            Held::Run(run) => run.count,
            Held::Listed(places) => places.len(),
        }
    }

    /// The entry at an index, in constant time.
    pub fn at(&self, index: usize) -> usize
        requires { index < length self.now }
        ensures { result ≡ slice_index self.now index }
    {
        match &self.held {
            Held::Run(run) => run.first + index,
            Held::Listed(places) => places[index],
        }
    }
}
