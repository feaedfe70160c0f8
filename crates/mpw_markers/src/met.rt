//! The numbers of the submissions that a marker touches.

ghost use Rattle.std.specs.Prelude.{◌≡◌, ◌↔◌, ℕ, [], IfOk, Contains};
ghost use Rattle.mpw_markers.specs.Met.{IsAscending};

use std::alloc::{AllocError, Global};
use std::marker::Model;
use std::sync::Arc;

/// At most two numbers are in the value itself; more are shared.
#[derive(Drop)]
enum Numbers {
    Empty,
    One([u32; 1]),
    Two([u32; 2]),
    Shared(Arc<Vec<u32>>),
}

/// Numbers of submissions, ascending and each once. Contracts see them as a list. Copies share memory. Up to two
/// numbers take no memory at all.
pub struct Met {
    numbers: Numbers,
}

impl Drop for Met {
    fn drop(self) {
        let Met { numbers } = self;
        drop(numbers);
    }
}

impl Model for Met {
    ghost use Rattle.std.specs.Prelude.{List, ℕ};

    ghost Value = { List ℕ };

    ghost use Rattle.mpw_markers.specs.Met.{numbers_of, IsAscending};

    ghost view = { λ m. numbers_of m.numbers };

    ghost invariant = { λ m. IsAscending (numbers_of m.numbers) };
}

/// Sorts the numbers and leaves each once.
fn sort_each_once(numbers: &mut Vec<u32>)
    ensures ascending { IsAscending numbers.new.items }
    ensures same { (n : ℕ) → Contains numbers.new.items n ↔ Contains numbers.old.items n }
{
    numbers.sort_unstable();
    numbers.dedup();
}

impl Met {
    /// No numbers. Takes no memory.
    pub fn none() -> Met
        ensures { result ≡ [] }
    {
        Met {
            numbers: Numbers::Empty,
        }
    }

    /// These numbers. If there are more than two, it takes a copy of them and one allocation more.
    ///
    /// # Errors
    /// Out of memory.
    pub fn of(alloc: Global, numbers: &[u32]) -> Result<Met, AllocError>
        requires { IsAscending numbers.now }
        ensures { IfOk result (λ met. met ≡ numbers.now) }
    {
        let numbers = match numbers {
            [] => Numbers::Empty,
            [a] => Numbers::One([*a]),
            [a, b] => Numbers::Two([*a, *b]),
            _ => Numbers::Shared(Arc::new(alloc, Vec::from_slice(alloc, numbers)?)?),
        };
        Ok(Met { numbers })
    }

    /// These numbers, sorted and each once. Cost: a sort of them, and what [`Met::of`] takes.
    ///
    /// # Errors
    /// Out of memory.
    pub fn from_vec(alloc: Global, numbers: Vec<u32>) -> Result<Met, AllocError>
        ensures ascending { IfOk result (λ met. IsAscending met) }
        ensures same { IfOk result (λ met. (n : ℕ) → Contains met n ↔ Contains numbers.items n) }
    {
        let mut numbers = numbers;
        sort_each_once(&mut numbers);
        Met::of(alloc, numbers.as_slice())
    }

    /// The numbers, ascending and each once.
    pub fn as_slice(&self) -> &[u32]
        ensures numbers { result.now ≡ self.now }
        ensures ascending { IsAscending self.now }
    {
        match &self.numbers {
            Numbers::Empty => &[],
            Numbers::One(numbers) => numbers,
            Numbers::Two(numbers) => numbers,
            Numbers::Shared(numbers) => numbers.as_slice(),
        }
    }

    /// The same numbers, in constant time and without more memory.
    ///
    /// # Errors
    /// If no more copies can be counted.
    pub fn copy(&self) -> Result<Met, AllocError>
        ensures same { IfOk result (λ met. met ≡ self.now) }
        ensures ascending { IsAscending self.now }
    {
        let numbers = match &self.numbers {
            Numbers::Empty => Numbers::Empty,
            Numbers::One(numbers) => Numbers::One(*numbers),
            Numbers::Two(numbers) => Numbers::Two(*numbers),
            Numbers::Shared(numbers) => Numbers::Shared(numbers.clone()?),
        };
        Ok(Met { numbers })
    }
}
