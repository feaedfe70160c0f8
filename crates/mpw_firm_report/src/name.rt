//! Writes names in a report.
ghost use Rattle.std.specs.List.{flat_map};
ghost use Rattle.mpw_firm_report.specs.Escapes.{character, path_character, escaped, path_text};
ghost use Rattle.mpw_text.specs.Writing.{Adds};

use mpw_geom::Name;
use mpw_text::put;
use std::io::{self, Write};

/// Writes a byte as XML's text.
#[tactic(auto, unfolding(crate::specs::Escapes::character))]
fn put_character<W: Write>(writer: &mut W, byte: u8) -> io::Result<()>
    ensures { Adds W.contents writer.old writer.new result (character byte) }
{
    match byte {
        b'<' => writer.write_all(b"&lt;"),
        b'>' => writer.write_all(b"&gt;"),
        b'&' => writer.write_all(b"&amp;"),
        _ => writer.write_all(&[byte]),
    }
}

/// Writes a byte of a category's name as the category's path has it.
#[tactic(auto, unfolding(crate::specs::Escapes::path_character))]
fn put_path_character<W: Write>(writer: &mut W, byte: u8) -> io::Result<()>
    ensures { Adds W.contents writer.old writer.new result (path_character byte) }
{
    if byte == b'\'' || byte == b'\\' {
        writer.write_all(&[b'\\', byte])
    } else {
        put_character(writer, byte)
    }
}

/// Writes bytes as the text of an element.
pub(crate) fn put_escaped<W: Write>(writer: &mut W, bytes: &[u8]) -> io::Result<()>
    ensures { Adds W.contents writer.old writer.new result (escaped bytes.now) }
{
    for byte in bytes {
        put_character(writer, *byte)?;
    }
    Ok(())
}

/// Writes a name as the text of an element.
pub fn put_name<W: Write>(writer: &mut W, name: &Name) -> io::Result<()>
    ensures { Adds W.contents writer.old writer.new result (escaped name.now) }
{
    put_escaped(writer, name.as_bytes())
}

/// Writes bytes as they are between quotes.
pub(crate) fn put_path_characters<W: Write>(writer: &mut W, bytes: &[u8]) -> io::Result<()>
    ensures { Adds W.contents writer.old writer.new result (flat_map path_character bytes.now) }
{
    for byte in bytes {
        put_path_character(writer, *byte)?;
    }
    Ok(())
}

/// Writes the path of a category of that name.
pub(crate) fn put_path<W: Write>(writer: &mut W, name: &Name) -> io::Result<()>
    ensures { Adds W.contents writer.old writer.new result (path_text name.now) }
{
    put(writer, &["'"])?;
    put_path_characters(writer, name.as_bytes())?;
    put(writer, &["'"])
}
