//! Writes a length that counts parts of a nanometre, in nanometres, exactly: with as many decimals as it needs, at most nine.
ghost use Rattle.std.specs.Prelude.{◌≡◌, ◌<◌, ◌≤◌};
ghost use Rattle.mpw_firm_listing.specs.Lengths.{decimals, fraction, length_text, sign_text};
ghost use Rattle.mpw_text.specs.Writing.{Adds};

use itoa::Buffer;
use mpw_firm_grid::Parts;
use mpw_text::put;
use std::io::{self, Write};

/// Writes the decimals of so many parts, fewer than a nanometre has: at most `left` of them.
#[tactic(auto, unfolding(crate::specs::Lengths::decimals))]
fn put_decimals<W: Write>(writer: &mut W, left: u8, parts: u64, rest: u64) -> io::Result<()>
    requires few { parts ≤ 1000 }
    requires within { rest < parts }
    ensures { Adds W.contents writer.old writer.new result (decimals left parts rest) }
{
    if left == 0 {
        return Ok(());
    }
    if rest == 0 {
        return Ok(());
    }
    let tenths = rest * 10;
    put(writer, &[Buffer::new().format(tenths / parts)])?;
    put_decimals(writer, left - 1, parts, tenths % parts)
}

/// Writes so many parts of a nanometre, fewer than it has, after a point.
#[tactic(auto, unfolding(crate::specs::Lengths::fraction))]
fn put_fraction<W: Write>(writer: &mut W, parts: u64, rest: u64) -> io::Result<()>
    requires few { parts ≤ 1000 }
    requires within { rest < parts }
    ensures { Adds W.contents writer.old writer.new result (fraction parts rest) }
{
    if rest == 0 {
        return Ok(());
    }
    put(writer, &["."])?;
    put_decimals(writer, 9, parts, rest)
}

/// The sign of a length.
#[tactic(auto, unfolding(crate::specs::Lengths::sign_text))]
fn sign(length: i64) -> &'static str
    ensures { result.now ≡ sign_text length }
{
    if length < 0 { "-" } else { "" }
}

/// Writes a length of so many parts of a nanometre, of which this has `parts`, in nanometres.
#[tactic(auto, unfolding(crate::specs::Lengths::length_text))]
pub(crate) fn put_length<W: Write>(writer: &mut W, parts: &Parts, length: i64) -> io::Result<()>
    ensures { Adds W.contents writer.old writer.new result (length_text parts.now length) }
{
    let parts = u64::from(parts.count());
    let all = length.unsigned_abs();
    put(writer, &[sign(length), Buffer::new().format(all / parts)])?;
    put_fraction(writer, parts, all % parts)
}
