//! Which part of a nanometre a unit is.
ghost use Rattle.std.specs.Prelude.{◌≡◌, ℕ, ◌*◌, ◌^◌, ◌<◌, ◌≤◌, ◌==◌, ◌%◌, IfSome};
ghost use Rattle.mpw_firm_grid.specs.Units.{first_share, is_decimal, is_share, parts_of};

use byteorder::{BigEndian, ByteOrder};

/// Whether `mantissa * 16^exponent`, in metres times 2^312, is one of so many equal parts of a nanometre, within one part in 10^9.
fn is_share(mantissa: u64, exponent: u8, parts: u16) -> bool
    requires mantissa { mantissa < 2 ^ 56 }
    requires least { 1 ≤ parts }
    requires most { parts ≤ 1000 }
    ensures { result ≡ is_share (mantissa * 16 ^ exponent) parts }
{
    if exponent >= 78 {
        return false;
    }
    let below = u32::from(78 - exponent);
    if below > 24 {
        return false;
    }
    let whole = u128::from(mantissa) * u128::from(parts);
    let unit = 16u128.pow(below);
    (whole * 1_000_000_000).abs_diff(unit) * 1_000_000_000 <= unit
}

/// The first number of parts, from 1 to 1000, of which that is so.
fn first_share(mantissa: u64, exponent: u8) -> Option<u16>
    requires { mantissa < 2 ^ 56 }
    ensures value { result ≡ first_share (mantissa * 16 ^ exponent) 1 1000 }
    ensures least { IfSome result (λ parts. 1 ≤ parts) }
    ensures most { IfSome result (λ parts. parts ≤ 1000) }
{
    for parts in 1..=1000 {
        if is_share(mantissa, exponent, parts) {
            return Some(parts);
        }
    }
    None
}

/// Into how many equal parts a nanometre is divided to get the unit that these bytes of UNITS give in metres, from 1 to 1000, within one part
/// in 10^9. None if the unit is no such part. It tries each number, which takes some microseconds.
pub(crate) fn parts_of(bytes: [u8; 8]) -> Option<u16>
    ensures value { result ≡ parts_of bytes }
    ensures least { IfSome result (λ parts. 1 ≤ parts) }
    ensures most { IfSome result (λ parts. parts ≤ 1000) }
{
    if bytes[0] >= 128 {
        return None;
    }
    first_share(BigEndian::read_u64(&bytes) % (1 << 56), bytes[0] % 128)
}

/// Whether lengths in such parts have finite decimals in nanometres: the number has no prime factors but 2 and 5.
pub(crate) fn is_decimal(parts: u16) -> bool
    requires { 1 ≤ parts }
    ensures { result ≡ is_decimal parts }
{
    1_000_000_000 % u32::from(parts) == 0
}
