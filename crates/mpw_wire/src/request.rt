//! Request lines: the verb's word, by the table of `mpw_requests`, and its operands, by the verb's shape.
ghost use Rattle.std.specs.Prelude.{◌≡◌, map, IfOk};
ghost use Rattle.mpw_text.specs.Text.{number_of};
ghost use Rattle.mpw_wire.specs.Request.{longest, operands_of, offered, request_by, upload_by, ask_by, ask_of};
ghost use Rattle.mpw_wire.specs.Words.{words};

use crate::key::key;
use crate::operand::{Origin, grant, login, name, pair, set};
use crate::placement::{placement, placing};
use mpw_requests::{
    Operands, Shape, SharedRequest, Upload, Verb, form_of, request_of, upload_of, verb_of,
};
use mpw_text::{is_decimal, parts, read_count};
use std::alloc::{AllocError, Global};

/// The greatest number of bytes of a payload.
pub const MAX_PAYLOAD: usize = 1 << 24;

/// The greatest number of bytes of a slice.
const MAX_SLICE: usize = (1 << 63) - 1;

/// What a line asks for.
#[derive(Drop)]
pub enum LineAsk {
    /// The request whose text the line is.
    Request(SharedRequest),
    /// The upload of the payload after the line, of `length` bytes.
    Upload { upload: Upload, length: usize },
    /// The payload would have more than 2^24 bytes.
    Long,
    /// The line is no request's text.
    Form,
}

/// The operands of that shape that the words are.
#[tactic(auto, unfolding(crate::specs::Request::operands_of))]
fn operands(
    alloc: Global,
    origin: Origin,
    shape: Shape,
    words: &[&[u8]],
) -> Result<Option<Operands>, AllocError>
    ensures { IfOk result (λ operands. operands ≡ operands_of origin shape (map (λ word. word.now) words.now)) }
{
    match (shape, words) {
        (Shape::Alone, []) => Ok(Some(Operands::Alone)),
        (Shape::Name, [word]) => match name(alloc, origin, word)? {
            Some(name) => Ok(Some(Operands::Name(name))),
            None => Ok(None),
        },
        (Shape::Pair, [first, second]) => pair(alloc, origin, first, second),
        (Shape::Login, [user, digest]) => login(alloc, origin, user, digest),
        (Shape::Grant, [operation, object, role]) => grant(alloc, origin, operation, object, role),
        (Shape::Set, [name, cardinality, roles @ ..]) => {
            set(alloc, origin, name, cardinality, roles)
        }
        (Shape::Placement, [cell, label, orient, x, y]) => {
            placement(alloc, origin, cell, label, placing(origin, orient, x, y))
        }
        (Shape::Key, [word]) => match key(alloc, origin, word)? {
            Some(marker) => Ok(Some(Operands::Key(marker))),
            None => Ok(None),
        },
        _ => Ok(None),
    }
}

/// The number of bytes that a word gives: at most 2^24 on a connection, and in a store at most the size of a slice.
#[tactic(auto, unfolding(crate::specs::Request::longest, crate::specs::Request::max_payload))]
fn payload_length(origin: Origin, word: &[u8]) -> Option<usize>
    ensures { result ≡ number_of 0 (longest origin) word.now }
{
    match origin {
        Origin::Connection => read_count(word, 0, MAX_PAYLOAD),
        Origin::Store => read_count(word, 0, MAX_SLICE),
    }
}

/// What an upload and the word of its payload's length ask for.
fn offered(origin: Origin, upload: Option<Upload>, length_word: &[u8]) -> LineAsk
    ensures { result ≡ offered origin upload length_word.now }
{
    let Some(upload) = upload else {
        return LineAsk::Form;
    };
    if !is_decimal(length_word) {
        return LineAsk::Form;
    }
    match payload_length(origin, length_word) {
        Some(length) => LineAsk::Upload { upload, length },
        None => LineAsk::Long,
    }
}

/// What a verb without a payload and the words after it ask for.
fn ask_request(
    alloc: Global,
    origin: Origin,
    verb: Verb,
    words: &[&[u8]],
) -> Result<LineAsk, AllocError>
    ensures { IfOk result (λ ask. ask ≡ request_by origin verb (map (λ word. word.now) words.now)) }
{
    let Some(operands) = operands(alloc, origin, form_of(verb).shape, words)? else {
        return Ok(LineAsk::Form);
    };
    match request_of(verb, operands) {
        Some(request) => Ok(LineAsk::Request(SharedRequest::new(alloc, request)?)),
        None => Ok(LineAsk::Form),
    }
}

/// What a verb with a payload and the words after it ask for.
fn ask_upload(
    alloc: Global,
    origin: Origin,
    verb: Verb,
    words: &[&[u8]],
) -> Result<LineAsk, AllocError>
    ensures { IfOk result (λ ask. ask ≡ upload_by origin verb (map (λ word. word.now) words.now)) }
{
    let [words @ .., length_word] = words else {
        return Ok(LineAsk::Form);
    };
    match operands(alloc, origin, form_of(verb).shape, words)? {
        Some(operands) => Ok(offered(origin, upload_of(verb, operands), length_word)),
        None => Ok(LineAsk::Form),
    }
}

/// What the words of a line ask for.
fn ask(alloc: Global, origin: Origin, words: &[&[u8]]) -> Result<LineAsk, AllocError>
    ensures { IfOk result (λ ask. ask ≡ ask_by origin (map (λ word. word.now) words.now)) }
{
    let [verb_word, words @ ..] = words else {
        return Ok(LineAsk::Form);
    };
    let Some(verb) = verb_of(verb_word) else {
        return Ok(LineAsk::Form);
    };
    if form_of(verb).has_payload {
        ask_upload(alloc, origin, verb, words)
    } else {
        ask_request(alloc, origin, verb, words)
    }
}

/// What a line of that origin asks for, without its line feed. Cost: two passes over a token, 16 bytes of memory a word, and n log n
/// comparisons for the roles of a set.
///
/// # Errors
/// `AllocError` if out of memory for the words or a name.
pub fn parse(alloc: Global, origin: Origin, line: &[u8]) -> Result<LineAsk, AllocError>
    ensures { IfOk result (λ ask. ask ≡ ask_by origin (words line.now)) }
{
    let words = parts(alloc, line, b' ')?;
    ask(alloc, origin, &words)
}

/// What a line of a connection asks for, without its line feed. It costs what [`parse`] does.
///
/// # Errors
/// `AllocError` if out of memory for the words or a name.
pub fn parse_line(alloc: Global, line: &[u8]) -> Result<LineAsk, AllocError>
    ensures { IfOk result (λ ask. ask ≡ ask_of line.now) }
{
    parse(alloc, Origin::Connection, line)
}
