//! The number of equal parts into which a nanometre is divided.
ghost use Rattle.std.specs.Prelude.{◌≡◌, ◌≤◌, IfSome, IfNone, ◌⊎◌, ◌<◌};

use std::marker::Model;

/// A number of parts, from 1 to 1000. Contracts see it as that number. 1 is for lengths in whole nanometres.
#[derive(Drop)]
pub struct Parts {
    count: u16,
}

impl Model for Parts {
    ghost use Rattle.std.specs.Prelude.{ℕ, ◌≤◌};

    ghost Value = { ℕ };

    ghost view = { λ parts. parts.count };

    ghost invariant = { λ parts. (1 ≤ parts.count) × (parts.count ≤ 1000) };
}

impl Parts {
    /// One part: a whole nanometre.
    pub fn whole() -> Parts
        ensures { result ≡ 1 }
    {
        Parts { count: 1 }
    }

    /// So many parts, if a nanometre may have them.
    pub fn new(count: u16) -> Option<Parts>
        ensures some { IfSome result (λ parts. parts ≡ count) }
        ensures none { IfNone result ((count < 1) ⊎ (1000 < count)) }
    {
        if count < 1 {
            None
        } else if count > 1000 {
            None
        } else {
            Some(Parts { count })
        }
    }

    /// How many there are.
    pub fn count(&self) -> u16
        ensures value { result ≡ self.now }
        ensures least { 1 ≤ result }
        ensures most { result ≤ 1000 }
    {
        self.count
    }
}
