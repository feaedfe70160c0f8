//! A text that grows by records.
//!
//! Contracts see the list of its bytes. The records of a call are written elsewhere and then added at once, so that an error leaves the
//! text unchanged.

ghost use Rattle.std.specs.Prelude.{◌≡◌, [], ◌∷◌, map};
ghost use Rattle.gate_samples.specs.Text.{raw, Adds, Gives, short, long, string, xy, head, begin, end, boundary, single, array, last};

use crate::encode::{pad, points_bytes};
use crate::error::SampleError;
use crate::record::{NewRecord, text_of};
use mpw_records::kind;
use std::alloc::Global;
use std::marker::Model;

/// The real of 10^-9, the unit of 1 nm in metres (GDSII Stream, "Eight-byte real").
pub const NANOMETRE: [u8; 8] = [0x39, 0x44, 0xB8, 0x2F, 0xA0, 0x9B, 0x5A, 0x54];

/// The real of 0.001, the database unit in user units.
const USER_UNIT: [u8; 8] = [0x3E, 0x41, 0x89, 0x37, 0x4B, 0xC6, 0xA7, 0xF0];

/// A GDSII text that is being made.
#[derive(Drop)]
pub struct Sample {
    bytes: Vec<u8>,
}

impl Model for Sample {
    ghost use Rattle.std.specs.Prelude.{ℕ, List};

    ghost Value = { List ℕ };

    ghost view = { λ s. s.bytes.items };
}

impl Sample {
    /// An empty text. It takes no memory.
    pub fn empty(alloc: Global) -> Sample
        ensures { result ≡ [] }
    {
        Sample {
            bytes: Vec::new(alloc),
        }
    }

    /// A library with this unit in metres, up to UNITS.
    ///
    /// # Errors
    /// Out of memory.
    pub fn new(alloc: Global, unit: [u8; 8]) -> Result<Sample, SampleError>
        ensures { Gives (λ sample. sample) result [] (head unit) }
    {
        let mut units = Vec::from_slice(alloc, &USER_UNIT)?;
        units.extend_from_slice(&unit)?;
        Sample::of(
            alloc,
            &[
                NewRecord(kind::HEADER, 2, &600u16.to_be_bytes()),
                NewRecord(kind::BGNLIB, 2, &[0; 24]),
                NewRecord(kind::LIBNAME, 6, b"LB"),
                NewRecord(kind::UNITS, 5, &units),
            ],
        )
    }

    /// A text of these records.
    fn of(alloc: Global, records: &[NewRecord<'_>]) -> Result<Sample, SampleError>
        ensures { Gives (λ sample. sample) result [] (map raw records.now) }
    {
        let bytes = text_of(alloc, records)?;
        Ok(Sample { bytes })
    }

    /// Adds records after the others: all of them, or none.
    fn add(&mut self, records: &[NewRecord<'_>]) -> Result<(), SampleError>
        ensures { Adds result self.old self.new (map raw records.now) }
    {
        let text = text_of(*self.bytes.allocator(), records)?;
        self.bytes.extend_from_slice(&text)?;
        Ok(())
    }

    /// A record of a type and a data type, with this data.
    ///
    /// # Errors
    /// `TooLong` if the data has more than 65531 bytes; `Memory` if out of memory. Then the text is unchanged. The same holds for the calls below.
    pub fn record(&mut self, kind: u8, data_type: u8, bytes: &[u8]) -> Result<(), SampleError>
        ensures { Adds result self.old self.new (record { kind = kind; data_type = data_type; bytes = bytes.now } ∷ []) }
    {
        self.add(&[NewRecord(kind, data_type, bytes)])
    }

    /// A record of one two-byte number.
    pub fn short(&mut self, kind: u8, number: u16) -> Result<(), SampleError>
        ensures { Adds result self.old self.new (short kind number ∷ []) }
    {
        self.add(&[NewRecord(kind, 2, &number.to_be_bytes())])
    }

    /// A record of one four-byte number.
    pub fn long(&mut self, kind: u8, number: i32) -> Result<(), SampleError>
        ensures { Adds result self.old self.new (long kind number ∷ []) }
    {
        self.add(&[NewRecord(kind, 3, &number.to_be_bytes())])
    }

    /// A record of a text, padded with a NUL to an even length.
    pub fn text(&mut self, kind: u8, text: &str) -> Result<(), SampleError>
        ensures { Adds result self.old self.new (string kind text.now ∷ []) }
    {
        let bytes = pad(*self.bytes.allocator(), text)?;
        self.add(&[NewRecord(kind, 6, &bytes)])
    }

    /// XY with these points.
    pub fn points(&mut self, points: &[(i32, i32)]) -> Result<(), SampleError>
        ensures { Adds result self.old self.new (xy points.now ∷ []) }
    {
        let bytes = points_bytes(*self.bytes.allocator(), points)?;
        self.add(&[NewRecord(kind::XY, 3, &bytes)])
    }

    /// BGNSTR and STRNAME.
    pub fn begin(&mut self, name: &str) -> Result<(), SampleError>
        ensures { Adds result self.old self.new (begin name.now) }
    {
        let name = pad(*self.bytes.allocator(), name)?;
        self.add(&[
            NewRecord(kind::BGNSTR, 2, &[0; 24]),
            NewRecord(kind::STRNAME, 6, &name),
        ])
    }

    /// ENDSTR.
    pub fn end(&mut self) -> Result<(), SampleError>
        ensures { Adds result self.old self.new end }
    {
        self.add(&[NewRecord(kind::ENDSTR, 0, &[])])
    }

    /// A boundary on a layer, through these points.
    pub fn boundary(
        &mut self,
        layer: u16,
        datatype: u16,
        points: &[(i32, i32)],
    ) -> Result<(), SampleError>
        ensures { Adds result self.old self.new (boundary layer datatype points.now) }
    {
        let xy = points_bytes(*self.bytes.allocator(), points)?;
        self.add(&[
            NewRecord(kind::BOUNDARY, 0, &[]),
            NewRecord(kind::LAYER, 2, &layer.to_be_bytes()),
            NewRecord(kind::DATATYPE, 2, &datatype.to_be_bytes()),
            NewRecord(kind::XY, 3, &xy),
            NewRecord(kind::ENDEL, 0, &[]),
        ])
    }

    /// A reference without STRANS.
    pub fn place(&mut self, name: &str, x: i32, y: i32) -> Result<(), SampleError>
        ensures { Adds result self.old self.new (single name.now x y) }
    {
        let alloc = *self.bytes.allocator();
        let name = pad(alloc, name)?;
        let xy = points_bytes(alloc, &[(x, y)])?;
        self.add(&[
            NewRecord(kind::SREF, 0, &[]),
            NewRecord(kind::SNAME, 6, &name),
            NewRecord(kind::XY, 3, &xy),
            NewRecord(kind::ENDEL, 0, &[]),
        ])
    }

    /// An array without STRANS, with the three points of its XY.
    pub fn array(
        &mut self,
        name: &str,
        columns: u16,
        rows: u16,
        points: &[(i32, i32)],
    ) -> Result<(), SampleError>
        ensures { Adds result self.old self.new (array name.now columns rows points.now) }
    {
        let alloc = *self.bytes.allocator();
        let name = pad(alloc, name)?;
        let [c1, c0] = columns.to_be_bytes();
        let [r1, r0] = rows.to_be_bytes();
        let xy = points_bytes(alloc, points)?;
        self.add(&[
            NewRecord(kind::AREF, 0, &[]),
            NewRecord(kind::SNAME, 6, &name),
            NewRecord(kind::COLROW, 2, &[c1, c0, r1, r0]),
            NewRecord(kind::XY, 3, &xy),
            NewRecord(kind::ENDEL, 0, &[]),
        ])
    }

    /// ENDLIB, and the bytes of the text.
    pub fn finish(mut self) -> Result<Vec<u8>, SampleError>
        ensures { Gives (λ bytes. bytes.items) result self last }
    {
        self.add(&[NewRecord(kind::ENDLIB, 0, &[])])?;
        Ok(self.bytes)
    }

    /// The bytes so far. It takes no memory.
    pub fn into_bytes(self) -> Vec<u8>
        ensures { result.items ≡ self }
    {
        let Sample { bytes } = self;
        bytes
    }
}
