//! A record, and its tests.

ghost use Rattle.std.specs.Prelude.{◌≡◌, ◌≤◌, ◌==◌, length, IfOk};
ghost use Rattle.byteorder.specs.Endian.{big_number};
ghost use Rattle.mpw_records.specs.Format.{data_fault, form_fault};
ghost use Rattle.mpw_records.specs.Records.{front, seen, raw, IsSized};

use crate::fault::{Code, ReadFault};
use crate::kind;
use byteorder::{BigEndian, ByteOrder};

/// A record of a text.
#[derive(Clone, Copy)]
pub struct Record<'a> {
    /// The offset of the record, in bytes from the text's front.
    pub offset: usize,
    /// The record type, as in `kind`.
    pub kind: u8,
    /// The data type, 0 to 6 in the standard, any byte here.
    pub data_type: u8,
    /// The data after the four bytes of the header.
    pub bytes: &'a [u8],
}

fn told_fault(has_type: bool, has_size: bool) -> Option<Code>
    ensures { result ≡ form_fault has_type has_size }
{
    if !has_type {
        Some(Code::BadType)
    } else if !has_size {
        Some(Code::BadSize)
    } else {
        None
    }
}

/// The fault of a record's data type or data size, for the record types whose data is tested.
#[tactic(auto, unfolding(crate::specs::Format::data_fault))]
fn fault_of_data(kind: u8, data_type: u8, size: usize) -> Option<Code>
    ensures { result ≡ data_fault kind data_type size }
{
    match kind {
        kind::UNITS => told_fault(data_type == 5, size == 16),
        kind::STRNAME | kind::SNAME => told_fault(data_type == 6, size >= 2),
        kind::LAYER | kind::DATATYPE | kind::PATHTYPE | kind::BOXTYPE => {
            told_fault(data_type == 2, size == 2)
        }
        kind::WIDTH | kind::BGNEXTN | kind::ENDEXTN => told_fault(data_type == 3, size == 4),
        kind::XY => told_fault(data_type == 3, size != 0 && size % 8 == 0),
        kind::COLROW => told_fault(data_type == 2, size == 4),
        kind::STRANS => told_fault(data_type == 1, size == 2),
        kind::MAG | kind::ANGLE => told_fault(data_type == 5, size == 8),
        _ => None,
    }
}

/// The record that begins at the offset, or its first fault.
///
/// # Errors
/// `Short` if fewer than four bytes are left; `BadLength` if the length is below 4 or odd; `Short` if the
/// record passes the end of the text; `BadType`, and then `BadSize`, if its data isn't what the type requires.
pub fn record_at(bytes: &[u8], offset: usize) -> Result<Record<'_>, ReadFault>
    requires { offset ≤ length bytes.now }
    ensures outcome { seen result ≡ front bytes.now offset }
    ensures sized { IfOk result (λ r. IsSized (raw r)) }
{
    let rest = &bytes[offset..];
    let fault = |code| ReadFault { code, offset };
    if rest.len() < 4 {
        return Err(fault(Code::Short));
    }
    let size = usize::from(BigEndian::read_u16(rest));
    if size < 4 || size % 2 == 1 {
        return Err(fault(Code::BadLength));
    }
    if rest.len() < size {
        return Err(fault(Code::Short));
    }
    let kind = rest[2];
    let data_type = rest[3];
    if let Some(code) = fault_of_data(kind, data_type, size - 4) {
        return Err(fault(code));
    }
    Ok(Record {
        offset,
        kind,
        data_type,
        bytes: &rest[4..size],
    })
}
