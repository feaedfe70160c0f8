//! What is read of a file. `specs/Fronts.antt` has what contracts say of it.
ghost use Rattle.std.specs.Prelude.{◌≡◌, ◌<◌, ◌≤◌, ◌^◌, if◌then◌else◌, length, None, Some, IfOk, IfSome};
ghost use Rattle.mpw_firm_sources.specs.Fronts.{IsFrontOf, IsPlace, ReadsRest, goes_on};

use crate::device::{read_first, read_on};
use crate::record::Place;
use std::alloc::{AllocError, Global};
use std::io::{self, Read};

/// So many bytes are read at once.
const CHUNK_BYTES: usize = 1 << 17;

/// What was read of a file.
#[derive(Drop)]
pub struct Front {
    /// The bytes, as many as are needed of it.
    pub bytes: Vec<u8>,
    /// Whether the reader continues after these bytes, beyond the length that a file may have.
    pub is_endless: bool,
}

/// What a file is read as.
#[derive(Clone, Copy, Drop)]
pub enum Content {
    /// A deck.
    Deck,
    /// A GDSII library.
    Library,
    /// A part.
    Part,
}

/// A place, if that is so.
fn place_if(is_so: bool, place: Place) -> Option<Place>
    ensures { result ≡ if is_so then Some place else None }
{
    if is_so { Some(place) } else { None }
}

impl Content {
    /// From where on a text that begins so is read on, if it is. A deck isn't: one that goes on has a fault up to there. Nor is what doesn't
    /// begin as a library or a part does, as an endless file of zeros. A part has no lengths.
    fn goes_on(self, first: &[u8]) -> Option<Place>
        ensures from { result ≡ goes_on self first.now }
        ensures place { IfSome result (IsPlace first.now) }
    {
        match self {
            Content::Deck => None,
            Content::Library => place_if(first.starts_with(&[0, 6, 0, 2]), Place::Record(0)),
            Content::Part => {
                place_if(
                    first.starts_with("mpw-part-".as_bytes()),
                    Place::Behind(first.len()),
                )
            }
        }
    }
}

/// Reads what a reader gives after its first bytes, as far as is needed to refuse it; and says whether it is endless.
fn read_rest<R: Read>(
    reader: &mut R,
    chunk: &mut [u8],
    bytes: &mut Vec<u8>,
    content: Content,
) -> io::Result<bool>
    requires room { 0 < length chunk.old }
    requires long { 2 ^ 17 ≤ length bytes.old.items }
    ensures { IfOk result (λ endless. ReadsRest content endless (R.remaining reader.old) (R.remaining reader.new) bytes.old.items bytes.new.items) }
{
    match content.goes_on(bytes.as_slice()) {
        Some(from) => read_on(reader, chunk, bytes, from),
        None => Ok(false),
    }
}

/// So many bytes for a reader to fill.
fn chunk_of(alloc: Global, bytes: usize) -> Result<Vec<u8>, AllocError>
    ensures { IfOk result (λ chunk. length chunk.items ≡ bytes) }
{
    vec![in alloc; 0u8; bytes]
}

/// What a reader gives, to its end or as far as is needed to refuse it.
pub fn read_from<R: Read>(alloc: Global, reader: &mut R, content: Content) -> io::Result<Front>
    ensures { IfOk result (IsFrontOf content (R.remaining reader.old) (R.remaining reader.new)) }
{
    let mut chunk = chunk_of(alloc, CHUNK_BYTES)?;
    let mut bytes = Vec::new(alloc);
    if !read_first(reader, chunk.as_mut_slice(), &mut bytes)? {
        return Ok(Front {
            bytes,
            is_endless: false,
        });
    }
    let is_endless = read_rest(reader, chunk.as_mut_slice(), &mut bytes, content)?;
    Ok(Front { bytes, is_endless })
}
