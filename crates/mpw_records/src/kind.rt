//! The record types by their names (GDSII Stream, "Record types").

/// Begins a text: the number of the format's version, in two bytes.
pub const HEADER: u8 = 0x00;

/// Begins a library: the times of its last change and of the last access, each six two-byte numbers.
pub const BGNLIB: u8 = 0x01;

/// The library's name, a text.
pub const LIBNAME: u8 = 0x02;

/// Two eight-byte reals: the database unit in user units, and then in metres.
pub const UNITS: u8 = 0x03;

/// Ends the library, without data. What comes after it is no part of the library.
pub const ENDLIB: u8 = 0x04;

/// Begins a structure: the times at which it was made and last changed, each six two-byte numbers.
pub const BGNSTR: u8 = 0x05;

/// The structure's name, a text, which a NUL pads to an even length.
pub const STRNAME: u8 = 0x06;

/// Ends the structure, without data.
pub const ENDSTR: u8 = 0x07;

/// Begins a boundary, a filled polygon. No data.
pub const BOUNDARY: u8 = 0x08;

/// Begins a path, a line with a width. No data.
pub const PATH: u8 = 0x09;

/// Begins a reference that places a structure once. No data.
pub const SREF: u8 = 0x0A;

/// Begins a reference that places a structure in columns and rows. No data.
pub const AREF: u8 = 0x0B;

/// Begins a text that is displayed but covers nothing. No data.
pub const TEXT: u8 = 0x0C;

/// The layer of an element, a two-byte number.
pub const LAYER: u8 = 0x0D;

/// The datatype of a boundary or a path, a two-byte number.
pub const DATATYPE: u8 = 0x0E;

/// The width of a path in database units, a four-byte number. One below 0 is absolute: no magnification changes it.
pub const WIDTH: u8 = 0x0F;

/// Points in database units: x and y of each, four bytes each.
pub const XY: u8 = 0x10;

/// Ends an element, without data.
pub const ENDEL: u8 = 0x11;

/// The name of the structure that a reference places, a text.
pub const SNAME: u8 = 0x12;

/// The columns and then the rows of an AREF, two two-byte numbers.
pub const COLROW: u8 = 0x13;

/// Begins a node, which names an electrical net and covers nothing. No data.
pub const NODE: u8 = 0x15;

/// How a reference is transformed, 16 bits. 8000 hex: it is mirrored about the x axis before it is turned. 0004: the
/// magnification is absolute. 0002: the angle is absolute.
pub const STRANS: u8 = 0x1A;

/// The magnification of a reference, an eight-byte real; 1 if it is absent.
pub const MAG: u8 = 0x1B;

/// The counterclockwise angle of a reference in degrees, an eight-byte real; 0 if it is absent.
pub const ANGLE: u8 = 0x1C;

/// How a path ends, a two-byte number: 0 at its first and last point, 1 round, 2 half the width beyond them, 4 by BGNEXTN
/// and ENDEXTN; 0 if it is absent.
pub const PATHTYPE: u8 = 0x21;

/// Flags of an element about the origin of its data, 16 bits.
pub const ELFLAGS: u8 = 0x26;

/// The number of a property of an element, a two-byte number.
pub const PROPATTR: u8 = 0x2B;

/// The value of the property whose number comes before it, a text.
pub const PROPVALUE: u8 = 0x2C;

/// Begins a box, a rectangle given by its corners. No data.
pub const BOX: u8 = 0x2D;

/// The type of a box, a two-byte number, like the datatype of a boundary.
pub const BOXTYPE: u8 = 0x2E;

/// The group to which an element belongs, a four-byte number.
pub const PLEX: u8 = 0x2F;

/// The extension of a path of PATHTYPE 4 beyond its first point, in database units, a four-byte number.
pub const BGNEXTN: u8 = 0x30;

/// The extension of a path of PATHTYPE 4 beyond its last point, in database units, a four-byte number.
pub const ENDEXTN: u8 = 0x31;
/// A record that some writers put between elements. It has no meaning for the layout.
pub const STRCLASS: u8 = 0x34;
