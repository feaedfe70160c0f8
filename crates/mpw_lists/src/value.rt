//! A value that its copies share.

ghost use Rattle.std.specs.Prelude.{◌≡◌, IfOk};

use std::alloc::{AllocError, Global};
use std::marker::Model;
use std::sync::Arc;

/// A value that copies share. Contracts see the value.
pub struct Shared<T> {
    item: Arc<T>,
}

impl<T: Drop> Drop for Shared<T> {
    fn drop(self) {
        let Shared { item } = self;
        drop(item);
    }
}

impl<T> Model for Shared<T> {
    ghost Value = { T };

    ghost view = { λ shared. shared.item.value };
}

impl<T: Drop> Shared<T> {
    /// Stores the value so that copies can share it. One allocation.
    ///
    /// # Errors
    /// Out of memory.
    pub fn new(alloc: Global, item: T) -> Result<Shared<T>, AllocError>
        ensures { IfOk result (λ shared. shared ≡ item) }
    {
        let item = Arc::new(alloc, item)?;
        Ok(Shared { item })
    }

    /// The value itself.
    pub fn get(&self) -> &T
        ensures { result.now ≡ self.now }
    {
        &self.item
    }

    /// The same value, in constant time and without more memory.
    ///
    /// # Errors
    /// If no more copies can be counted.
    pub fn copy(&self) -> Result<Shared<T>, AllocError>
        ensures { IfOk result (λ shared. shared ≡ self.now) }
    {
        let item = self.item.clone()?;
        Ok(Shared { item })
    }
}

impl<T: Drop> Clone for Shared<T> {
    ghost is_clone = { λ shared copy. copy ≡ shared };

    fn clone(&self) -> Result<Shared<T>, AllocError> {
        self.copy()
    }
}
