//! A library's notation that is being made.

use std::alloc::{AllocError, Global};

/// A text that grows, and whether memory ran out. So its calls return nothing, and its end says whether all was added.
#[derive(Drop)]
pub struct Notation {
    text: String,
    is_short: bool,
}

impl Notation {
    /// An empty text. It takes no memory.
    pub fn new(alloc: Global) -> Notation {
        Notation {
            text: String::new(alloc),
            is_short: false,
        }
    }

    /// The allocator of the text.
    pub fn alloc(&self) -> Global {
        *self.text.allocator()
    }

    /// Adds a text.
    pub fn add(&mut self, text: &str) {
        if self.text.push_str(text).is_err() {
            self.is_short = true;
        }
    }

    /// Adds a number.
    pub fn number(&mut self, number: i64) {
        match number.to_string(self.alloc()) {
            Ok(text) => self.add(text.as_str()),
            Err(_) => self.is_short = true,
        }
    }

    /// Adds numbers, a blank before each.
    pub fn numbers(&mut self, numbers: &[i64]) {
        for number in numbers {
            self.add(" ");
            self.number(*number);
        }
    }

    /// The text.
    ///
    /// # Errors
    /// Memory ran out.
    pub fn finish(self) -> Result<String, AllocError> {
        let Notation { text, is_short } = self;
        if is_short { Err(AllocError) } else { Ok(text) }
    }
}
