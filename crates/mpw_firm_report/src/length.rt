//! Writes lengths in micrometres, exactly: with as many decimals as they need, at most three.
ghost use Rattle.std.specs.Prelude.{◌≡◌};
ghost use Rattle.mpw_firm_report.specs.Lengths.{last_digits, fraction, sign_text, micrometres};
ghost use Rattle.mpw_text.specs.Writing.{Adds};

use itoa::Buffer;
use mpw_text::put;
use std::io::{self, Write};

/// Writes the last two of three decimals, without zeros at the end.
#[tactic(auto, unfolding(crate::specs::Lengths::last_digits))]
fn put_last_digits<W: Write>(writer: &mut W, thousandths: u64) -> io::Result<()>
    ensures { Adds W.contents writer.old writer.new result (last_digits thousandths) }
{
    let mut hundredth = Buffer::new();
    let mut thousandth = Buffer::new();
    if thousandths == 0 {
        Ok(())
    } else if thousandths % 10 == 0 {
        put(writer, &[hundredth.format(thousandths / 10)])
    } else {
        put(
            writer,
            &[
                hundredth.format(thousandths / 10),
                thousandth.format(thousandths % 10),
            ],
        )
    }
}

/// Writes thousandths below one, after a point.
#[tactic(auto, unfolding(crate::specs::Lengths::fraction))]
fn put_fraction<W: Write>(writer: &mut W, thousandths: u64) -> io::Result<()>
    ensures { Adds W.contents writer.old writer.new result (fraction thousandths) }
{
    if thousandths == 0 {
        return Ok(());
    }
    let mut tenth = Buffer::new();
    put(writer, &[".", tenth.format(thousandths / 100)])?;
    put_last_digits(writer, thousandths % 100)
}

/// The sign of a length.
#[tactic(auto, unfolding(crate::specs::Lengths::sign_text))]
fn sign(nm: i64) -> &'static str
    ensures { result.now ≡ sign_text nm }
{
    if nm < 0 { "-" } else { "" }
}

/// Writes a length of `nm` nm.
#[tactic(auto, unfolding(crate::specs::Lengths::micrometres))]
pub fn put_micrometres<W: Write>(writer: &mut W, nm: i64) -> io::Result<()>
    ensures { Adds W.contents writer.old writer.new result (micrometres nm) }
{
    let mut whole = Buffer::new();
    let thousandths = nm.unsigned_abs();
    put(writer, &[sign(nm), whole.format(thousandths / 1000)])?;
    put_fraction(writer, thousandths % 1000)
}
