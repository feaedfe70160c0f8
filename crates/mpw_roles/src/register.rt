//! Names, each once, with their numbers.
//!
//! A name's number is how many names were added before it, and never changes. Most names are in a set that copies share. The latest names
//! are in a short list next to it. A copy costs a count and the latest names. A look-up costs a hash and a comparison with each of the
//! latest. If the list is full, the next name makes a new set of all. Each name in the list pays for a part of it.
ghost use Rattle.std.specs.Prelude.{◌≡◌, ◌<◌, ◌≤◌, ◌∷◌, ◌++◌, [], true, false, length, position, slice_get, IfOk, IfSome, OnOk, OnErr};
ghost use Rattle.std.specs.Option.{option_copied};
ghost use Rattle.mpw_geom.specs.Names.{name_eq, contains_name};
ghost use Rattle.mpw_roles.specs.Order.{are_distinct};

use crate::settled::Settled;
use mpw_geom::{Name, Names};
use std::alloc::{AllocError, Global};
use std::marker::Model;

/// The greatest number of names next to the set.
const LATEST: usize = 32;

/// Names, each once, in the order in which they were added. The number of a name is its index in that order.
pub struct Register {
    settled: Settled,
    latest: Names,
}

impl Drop for Register {
    fn drop(self) {
        let Register { settled, latest } = self;
        drop(settled);
        drop(latest);
    }
}

impl Model for Register {
    ghost use Rattle.std.specs.Prelude.{ℕ, List, ◌++◌};
    ghost use Rattle.mpw_roles.specs.Internal.Register.{IsRegister};

    ghost Value = { List (List ℕ) };

    ghost view = { λ register. register.settled ++ register.latest };

    ghost invariant = { λ register. IsRegister register.settled register.latest };
}

/// The index of a name among some.
fn place_among(names: &[Name], name: &Name) -> Option<usize>
    ensures { result ≡ position (name_eq name.now) names.now }
{
    for place in 0..names.len() {
        if *name == names[place] {
            return Some(place);
        }
    }
    None
}

/// Moves the latest names into the set if their list is full. If memory runs out, all stay where they were.
fn make_place(settled: &mut Settled, latest: &mut Names, alloc: Global) -> Result<(), AllocError>
    requires once { are_distinct (settled.old ++ latest.old) ≡ true }
    requires few { length latest.old ≤ 32 }
    ensures same { settled.new ++ latest.new ≡ settled.old ++ latest.old }
    ensures few { length latest.new ≤ 32 }
    ensures fewer { OnOk result (length latest.new < 32) }
{
    if latest.as_slice().len() < LATEST {
        return Ok(());
    }
    *settled = settled.with(alloc, latest.as_slice())?;
    *latest = Names::new(alloc);
    Ok(())
}

impl Register {
    /// The register without names. It takes no memory.
    pub fn new(alloc: Global) -> Register
        ensures { result ≡ [] }
    {
        Register {
            settled: Settled::new(),
            latest: Names::new(alloc),
        }
    }

    /// The register of these names. Cost: a hash for each.
    ///
    /// # Errors
    /// Out of memory.
    pub fn of_names(alloc: Global, names: &[Name]) -> Result<Register, AllocError>
        requires { are_distinct names.now ≡ true }
        ensures { IfOk result (λ register. register ≡ names.now) }
    {
        let settled = Settled::new().with(alloc, names)?;
        Ok(Register {
            settled,
            latest: Names::new(alloc),
        })
    }

    /// The number of names.
    pub fn len(&self) -> usize
        ensures { result ≡ length self.now }
    {
        self.settled.len() + self.latest.as_slice().len()
    }

    /// The number of a name. Cost: a hash. If it is none of the names in the set, also a comparison for each of the latest names.
    pub fn number(&self, name: &Name) -> Option<usize>
        ensures number { result ≡ position (name_eq name.now) self.now }
        ensures within { IfSome result (λ number. number < length self.now) }
        ensures once { are_distinct self.now ≡ true }
    {
        if let Some(number) = self.settled.place(name) {
            return Some(number);
        }
        match place_among(self.latest.as_slice(), name) {
            Some(place) => Some(self.settled.len() + place),
            None => None,
        }
    }

    /// The name with a number.
    pub fn name(&self, number: usize) -> Option<&Name>
        ensures { option_copied result ≡ slice_get self.now number }
    {
        let settled = self.settled.len();
        if number < settled {
            self.settled.get(number)
        } else {
            self.latest.as_slice().get(number - settled)
        }
    }

    /// Adds a name that isn't there yet.
    ///
    /// # Errors
    /// Out of memory. Then the names are unchanged.
    pub fn push(&mut self, alloc: Global, name: Name) -> Result<(), AllocError>
        requires { contains_name self.old name ≡ false }
        ensures ok { OnOk result (self.new ≡ self.old ++ name ∷ []) }
        ensures err { OnErr result (self.new ≡ self.old) }
    {
        make_place(&mut self.settled, &mut self.latest, alloc)?;
        self.latest.push(name)?;
        Ok(())
    }

    /// The same names. Cost: a count, and one for each of the latest names.
    ///
    /// # Errors
    /// Out of memory.
    pub fn copy(&self) -> Result<Register, AllocError>
        ensures { IfOk result (λ register. register ≡ self.now) }
    {
        let settled = self.settled.copy()?;
        let latest = self.latest.copy()?;
        Ok(Register { settled, latest })
    }
}
