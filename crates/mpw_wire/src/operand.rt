//! The parts of requests: names, digests, grants and sets of roles, from the words of a line.
//!
//! A line comes from a connection or from a store. Both have the same forms, but they read some words differently: a connection has a token
//! where a store has the digits of its digest.
ghost use Rattle.std.specs.Prelude.{◌≡◌, map, IfOk};
ghost use Rattle.mpw_geom.specs.Names.{name_eq};
ghost use Rattle.mpw_wire.specs.Request.{token_of, digest_of, object_by, object_of, grant_of, login_of, pair_of, names_of, set_of};
ghost use Rattle.mpw_wire.specs.Names.{visible_of, name_of};

use hex::FromHex;
use mpw_geom::{Name, NameFault, Names, is_name};
use mpw_permissions::{Grant, Object, Operation};
use mpw_requests::{Digest, Operands, digest_of, is_on_cells, operation_of};
use mpw_separation::SeparationSet;
use mpw_text::read_count;
use std::alloc::{AllocError, Global};

/// Where a line comes from.
#[derive(Clone, Copy)]
pub enum Origin {
    /// From a connection.
    Connection,
    /// From a store.
    Store,
}

/// Whether a word is this text.
pub(crate) fn is(word: &[u8], text: &str) -> bool
    ensures { result ≡ name_eq word.now text.now }
{
    word == text.as_bytes()
}

/// The name of these bytes.
#[tactic(auto, using(mpw_geom::proofs::NameLemmas::read_word, mpw_geom::proofs::NameLemmas::refused_word), unfolding(crate::specs::Names::visible_of))]
fn visible(alloc: Global, word: &[u8]) -> Result<Option<Name>, AllocError>
    ensures { IfOk result (λ name. name ≡ visible_of word.now) }
{
    match Name::read(alloc, word) {
        Ok(name) => Ok(Some(name)),
        Err(NameFault::BadName) => Ok(None),
        Err(NameFault::Memory) => Err(AllocError),
    }
}

/// The name that a word is. On a connection `-` is none.
#[tactic(auto, unfolding(crate::specs::Names::name_of))]
pub(crate) fn name(alloc: Global, origin: Origin, word: &[u8]) -> Result<Option<Name>, AllocError>
    ensures { IfOk result (λ name. name ≡ name_of origin word.now) }
{
    match origin {
        Origin::Connection => {
            if is(word, "-") {
                return Ok(None);
            }
            visible(alloc, word)
        }
        Origin::Store => visible(alloc, word),
    }
}

/// The digest of the token that a word is.
#[tactic(auto, using(mpw_geom::proofs::NameLemmas::read_word, mpw_geom::proofs::NameLemmas::refused_word), unfolding(crate::specs::Request::token_of))]
fn token(word: &[u8]) -> Option<Digest>
    ensures { result ≡ token_of word.now }
{
    if is_name(word) {
        Some(digest_of(word))
    } else {
        None
    }
}

/// The digest of a word: that of a token, or the one that the digits spell.
#[tactic(auto, unfolding(crate::specs::Request::digest_of))]
fn digest(origin: Origin, word: &[u8]) -> Option<Digest>
    ensures { result ≡ digest_of origin word.now }
{
    match origin {
        Origin::Connection => token(word),
        Origin::Store => <[u8; 32] as FromHex>::from_hex(word).ok(),
    }
}

/// The cell of a name, or the desk, by a word.
#[tactic(auto, unfolding(crate::specs::Request::object_by))]
fn object_by(
    alloc: Global,
    origin: Origin,
    on_cells: bool,
    word: &[u8],
) -> Result<Option<Object>, AllocError>
    ensures { IfOk result (λ object. object ≡ object_by origin on_cells word.now) }
{
    if on_cells {
        return match name(alloc, origin, word)? {
            Some(name) => Ok(Some(Object::Cell(name))),
            None => Ok(None),
        };
    }
    if is(word, "desk") {
        return Ok(Some(Object::Desk));
    }
    Ok(None)
}

/// The object of an operation, by a word. In a store, a tab before the word marks an object of the other kind.
#[tactic(auto, unfolding(crate::specs::Request::object_of))]
fn object(
    alloc: Global,
    origin: Origin,
    operation: Operation,
    word: &[u8],
) -> Result<Option<Object>, AllocError>
    ensures { IfOk result (λ object. object ≡ object_of origin operation word.now) }
{
    let on_cells = is_on_cells(operation);
    match (origin, word) {
        (Origin::Store, [b'\t', rest @ ..]) => object_by(alloc, origin, !on_cells, rest),
        _ => object_by(alloc, origin, on_cells, word),
    }
}

/// The grant that three words name.
#[tactic(auto, unfolding(crate::specs::Request::grant_of))]
pub(crate) fn grant(
    alloc: Global,
    origin: Origin,
    operation_word: &[u8],
    object_word: &[u8],
    role_word: &[u8],
) -> Result<Option<Operands>, AllocError>
    ensures { IfOk result (λ operands. operands ≡ grant_of origin operation_word.now object_word.now role_word.now) }
{
    let Some(operation) = operation_of(operation_word) else {
        return Ok(None);
    };
    let Some(object) = object(alloc, origin, operation, object_word)? else {
        return Ok(None);
    };
    let Some(role) = name(alloc, origin, role_word)? else {
        return Ok(None);
    };
    Ok(Some(Operands::Grant(Grant {
        operation,
        object,
        role,
    })))
}

/// The user and the digest that two words give.
#[tactic(auto, unfolding(crate::specs::Request::login_of))]
pub(crate) fn login(
    alloc: Global,
    origin: Origin,
    user_word: &[u8],
    digest_word: &[u8],
) -> Result<Option<Operands>, AllocError>
    ensures { IfOk result (λ operands. operands ≡ login_of origin user_word.now digest_word.now) }
{
    let Some(user) = name(alloc, origin, user_word)? else {
        return Ok(None);
    };
    let Some(digest) = digest(origin, digest_word) else {
        return Ok(None);
    };
    Ok(Some(Operands::Login(user, digest)))
}

/// The two names that two words are.
#[tactic(auto, unfolding(crate::specs::Request::pair_of))]
pub(crate) fn pair(
    alloc: Global,
    origin: Origin,
    first: &[u8],
    second: &[u8],
) -> Result<Option<Operands>, AllocError>
    ensures { IfOk result (λ operands. operands ≡ pair_of origin first.now second.now) }
{
    let Some(first) = name(alloc, origin, first)? else {
        return Ok(None);
    };
    let Some(second) = name(alloc, origin, second)? else {
        return Ok(None);
    };
    Ok(Some(Operands::Pair(first, second)))
}

/// The names that the words are.
fn names(alloc: Global, origin: Origin, words: &[&[u8]]) -> Result<Option<Names>, AllocError>
    ensures { IfOk result (λ names. names ≡ names_of origin (map (λ word. word.now) words.now)) }
{
    let mut names = Names::new(alloc);
    for word in words {
        match name(alloc, origin, word)? {
            Some(name) => names.push(name)?,
            None => return Ok(None),
        }
    }
    Ok(Some(names))
}

/// The set of roles that a name, a cardinality and roles give.
#[tactic(auto, unfolding(crate::specs::Request::set_of))]
pub(crate) fn set(
    alloc: Global,
    origin: Origin,
    name_word: &[u8],
    cardinality_word: &[u8],
    role_words: &[&[u8]],
) -> Result<Option<Operands>, AllocError>
    ensures { IfOk result (λ operands. operands ≡ set_of origin name_word.now cardinality_word.now (map (λ word. word.now) role_words.now)) }
{
    let Some(name) = name(alloc, origin, name_word)? else {
        return Ok(None);
    };
    let Some(roles) = names(alloc, origin, role_words)? else {
        return Ok(None);
    };
    let Some(cardinality) = read_count(cardinality_word, 0, roles.as_slice().len()) else {
        return Ok(None);
    };
    match SeparationSet::new(name, cardinality, roles)? {
        Some(set) => Ok(Some(Operands::Set(set))),
        None => Ok(None),
    }
}
