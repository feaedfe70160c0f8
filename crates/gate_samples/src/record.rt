//! Records by their type, data type and data.

ghost use Rattle.std.specs.Prelude.{◌≡◌, [], ◌++◌, map, false, IsTrue, IfErr, OnOk};
ghost use Rattle.gate_samples.specs.Text.{raw, record_bytes, is_too_long, Gives};

use crate::error::SampleError;
use std::alloc::Global;

/// The most bytes of data that a record's length of two bytes allows.
pub const MAX_DATA: usize = 65531;

/// A record to be written: its type, its data type (0 to 6 in the standard), and its data.
#[derive(Clone, Copy)]
pub struct NewRecord<'a>(pub u8, pub u8, pub &'a [u8]);

/// Adds a record after `text`. After an error a part of it may have been added.
fn add(text: &mut Vec<u8>, new: NewRecord<'_>) -> Result<(), SampleError>
    ensures ok { OnOk result (text.new.items ≡ text.old.items ++ record_bytes (raw new.entry)) }
    ensures fits { OnOk result (is_too_long (raw new.entry) ≡ false) }
    ensures too_long { IfErr result (λ e. e ≡ SampleError.TooLong → IsTrue (is_too_long (raw new.entry))) }
{
    let NewRecord(kind, data_type, bytes) = new;
    if bytes.len() > MAX_DATA {
        return Err(SampleError::TooLong);
    }
    let [high, low] = ((bytes.len() + 4) as u16).to_be_bytes();
    text.extend_from_slice(&[high, low, kind, data_type])?;
    text.extend_from_slice(bytes)?;
    Ok(())
}

/// The text of records, one after another.
///
/// # Errors
/// `TooLong` if a record's data has more than 65531 bytes; `Memory` if out of memory.
pub fn text_of(alloc: Global, records: &[NewRecord<'_>]) -> Result<Vec<u8>, SampleError>
    ensures { Gives (λ text. text.items) result [] (map raw records.now) }
{
    let mut text = Vec::new(alloc);
    for new in records {
        add(&mut text, *new)?;
    }
    Ok(text)
}
