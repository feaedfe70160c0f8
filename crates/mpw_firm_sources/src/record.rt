//! The records of a library's text that is still read: whether it is worth to read on. `specs/Fronts.antt` has what contracts say of it.
ghost use Rattle.std.specs.Prelude.{◌≡◌, ◌≤◌};
ghost use Rattle.mpw_firm_sources.specs.Fronts.{IsPlace, Reaches, head_of, is_endless, is_sound};

use mpw_records::kind::ENDLIB;

/// A file of more bytes isn't read to its end,
pub(crate) const MOST_BYTES: usize = (1 << 32) - 1;

/// nor is one with more after those that were there when no record had to be looked at any more.
const MOST_BEHIND: usize = 1 << 28;

/// How far the records of a text are known.
#[derive(Clone, Copy)]
pub enum Place {
    /// All records before this byte are whole.
    Record(usize),
    /// So many bytes were there when no record had to be looked at any more, as after ENDLIB.
    Behind(usize),
}

/// The length and the type of a record, by its first bytes.
#[derive(Clone, Copy)]
pub struct Head {
    /// The number of its bytes.
    pub length: usize,
    /// Its type.
    pub kind: u8,
}

/// The head of the record at the front of a text, if its first four bytes are there.
fn head_of(text: &[u8]) -> Option<Head>
    ensures { result ≡ head_of text.now }
{
    match text {
        [high, low, kind, _, ..] => Some(Head {
            length: usize::from(*high) * 256 + usize::from(*low),
            kind: *kind,
        }),
        _ => None,
    }
}

/// Whether a record can have that length.
fn is_sound(length: usize) -> bool
    ensures { result ≡ is_sound length }
{
    (length >= 4) & (length % 2 == 0)
}

/// How far the records of a text are known from a byte on: up to the first that isn't whole, or to ENDLIB; `None` if a record has an unsound
/// length. It goes over each record once.
fn reached(bytes: &[u8], from: usize) -> Option<Place>
    requires { IsPlace bytes.now (Place.Record from) }
    ensures { Reaches (Place.Record from) result bytes.now }
{
    let mut at = from;
    for _ in 0..bytes.len() {
        let Some(head) = head_of(&bytes[at..]) else {
            return Some(Place::Record(at));
        };
        if !is_sound(head.length) {
            return None;
        }
        if head.kind == ENDLIB {
            return Some(Place::Behind(bytes.len()));
        }
        if bytes.len() - at < head.length {
            return Some(Place::Record(at));
        }
        at += head.length;
    }
    Some(Place::Record(at))
}

/// How far the records of a text are known, if they were known up to a place; `None` if a record has an unsound length.
pub fn next_place(bytes: &[u8], place: Place) -> Option<Place>
    requires { IsPlace bytes.now place }
    ensures { Reaches place result bytes.now }
{
    match place {
        Place::Record(at) => reached(bytes, at),
        Place::Behind(at) => Some(Place::Behind(at)),
    }
}

/// Whether a text of so many bytes has more than are read.
pub fn is_endless(place: Place, bytes: usize) -> bool
    ensures { result ≡ is_endless place bytes }
{
    match place {
        Place::Record(_) => bytes > MOST_BYTES,
        Place::Behind(at) => (bytes > MOST_BYTES) | (bytes.saturating_sub(at) > MOST_BEHIND),
    }
}
