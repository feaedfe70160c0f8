//! A value in its own allocation.

ghost use Rattle.std.specs.Prelude.{◌≡◌, IfOk};

use std::alloc::{AllocError, Global};
use std::marker::Model;

/// A value in its own allocation. Contracts see the value.
pub struct Boxed<T> {
    held: Box<T>,
}

impl<T: Drop> Drop for Boxed<T> {
    fn drop(self) {
        let Boxed { held } = self;
        drop(held);
    }
}

impl<T> Model for Boxed<T> {
    ghost Value = { T };

    ghost view = { λ a. a.held.value };
}

impl<T: Drop> Boxed<T> {
    /// Moves the value there. The only error is out of memory.
    pub fn new(alloc: Global, value: T) -> Result<Boxed<T>, AllocError>
        ensures { IfOk result (λ boxed. boxed ≡ value) }
    {
        Ok(Boxed {
            held: Box::new(alloc, value)?,
        })
    }

    /// The value.
    pub fn get(&self) -> &T
        ensures { result.now ≡ self.now }
    {
        &self.held
    }
}
