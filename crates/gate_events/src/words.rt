//! The words of a line.

use anyhow::{Result, bail};
use mpw_geom::Name;
use mpw_permissions::{Object, Operation};
use mpw_rbac::Digest;
use std::alloc::Global;

/// The operations by their words.
const OPERATIONS: [(&str, Operation); 11] = [
    ("submit", Operation::Submit),
    ("use", Operation::Use),
    ("read", Operation::Read),
    ("place", Operation::Place),
    ("admin", Operation::Admin),
    ("deck", Operation::Deck),
    ("run", Operation::Run),
    ("waive", Operation::Waive),
    ("sign", Operation::Sign),
    ("verdict", Operation::Verdict),
    ("audit", Operation::Audit),
];

/// The name that a word is.
///
/// # Errors
/// It is none, or out of memory.
pub fn name(alloc: Global, word: &str) -> Result<Name> {
    Ok(Name::read(alloc, word.as_bytes())?)
}

/// A stand-in for a token's digest: its bytes, and zeros after them.
pub fn digest(token: &str) -> Digest {
    let bytes = token.as_bytes();
    let mut digest = [0u8; 32];
    for place in 0..32 {
        digest[place] = bytes.get(place).copied().unwrap_or(0);
    }
    digest
}

/// The operation of a word.
///
/// # Errors
/// No operation has the word.
pub fn operation(word: &str) -> Result<Operation> {
    for (text, operation) in OPERATIONS {
        if text == word {
            return Ok(operation);
        }
    }
    bail!("an operation")
}

/// The word of an operation.
pub fn operation_word(operation: Operation) -> &'static str {
    for (text, other) in OPERATIONS {
        if other == operation {
            return text;
        }
    }
    ""
}

/// The object that a word is.
///
/// # Errors
/// It is no name, or out of memory.
pub fn object(alloc: Global, word: &str) -> Result<Object> {
    if word == "desk" {
        return Ok(Object::Desk);
    }
    Ok(Object::Cell(name(alloc, word)?))
}
