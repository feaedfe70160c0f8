//! Eight-byte reals, and the two tests that a layout needs.

ghost use Rattle.std.specs.Prelude.{◌≡◌, ℕ, ◌*◌, ◌^◌, ◌<◌, ◌≤◌, ◌==◌, length, IfSome};
ghost use Rattle.mpw_real8.specs.Real.{real_value, is_whole, nanometres, is_nanometres, first_near};

use byteorder::{BigEndian, ByteOrder};
use std::marker::Model;

/// An eight-byte real.
#[derive(Drop)]
pub struct Real8 {
    negative: bool,
    exponent: u8,
    mantissa: u64,
}

impl Model for Real8 {
    ghost use Rattle.std.specs.Prelude.{ℤ, ◌*◌, ◌^◌, ◌<◌};
    ghost use Rattle.mpw_real8.specs.Real.{signed};

    ghost Value = { ℤ };

    ghost view = { λ a. signed a.negative (a.mantissa * 16 ^ a.exponent) };

    ghost invariant = { λ a. (a.mantissa < 2 ^ 56) × (a.exponent < 128) };
}

impl Real8 {
    /// The real that eight bytes spell: a sign bit, seven bits of exponent in excess 64, and the
    /// mantissa. Every eight bytes are a real, even without a leading digit.
    pub fn of(bytes: [u8; 8]) -> Real8
        ensures { result ≡ real_value bytes }
    {
        Real8 {
            negative: bytes[0] >= 128,
            exponent: bytes[0] % 128,
            mantissa: BigEndian::read_u64(&bytes) % (1 << 56),
        }
    }

    /// The real that the first eight bytes spell.
    pub fn read(bytes: &[u8]) -> Real8
        requires { 8 ≤ length bytes.now }
        ensures { result ≡ real_value bytes.now }
    {
        Real8::of([
            bytes[0], bytes[1], bytes[2], bytes[3], bytes[4], bytes[5], bytes[6], bytes[7],
        ])
    }

    /// Whether the value is exactly this whole number.
    pub fn is_whole(&self, number: i32) -> bool
        ensures { result ≡ is_whole self.now number }
    {
        if !is_multiple(self.mantissa, self.exponent, number.unsigned_abs()) {
            return false;
        }
        if number == 0 {
            return true;
        }
        self.negative == (number < 0)
    }

    /// The whole number of nanometres from 1 to 1000 that a value in metres is, within one part in
    /// 10^9. It tries each number, which takes some microseconds.
    pub fn nanometres(&self) -> Option<u16>
        ensures value { result ≡ nanometres self.now }
        ensures least { IfSome result (λ number. 1 ≤ number) }
        ensures most { IfSome result (λ number. number ≤ 1000) }
    {
        if self.negative && self.mantissa != 0 {
            return None;
        }
        nearest(self.mantissa, self.exponent)
    }
}

/// The first number of nanometres that is near `mantissa * 16^exponent`, in metres.
fn nearest(mantissa: u64, exponent: u8) -> Option<u16>
    requires { mantissa < 2 ^ 56 }
    ensures value { result ≡ first_near (mantissa * 16 ^ exponent) 1 1000 }
    ensures least { IfSome result (λ number. 1 ≤ number) }
    ensures most { IfSome result (λ number. number ≤ 1000) }
{
    for number in 1..=1000 {
        if is_near(mantissa, exponent, number) {
            return Some(number);
        }
    }
    None
}

/// Whether `mantissa * 16^exponent` is `number * 2^312`.
fn is_multiple(mantissa: u64, exponent: u8, number: u32) -> bool
    requires { mantissa < 2 ^ 56 }
    ensures { result ≡ (mantissa * 16 ^ exponent == number * 2 ^ 312) }
{
    let mantissa = u128::from(mantissa);
    let number = u128::from(number);
    let neither = mantissa + number == 0;
    if exponent >= 78 {
        let above = u32::from(exponent - 78);
        if above > 8 {
            return neither;
        }
        return mantissa * 16u128.pow(above) == number;
    }
    let below = u32::from(78 - exponent);
    if below > 14 {
        return neither;
    }
    mantissa == number * 16u128.pow(below)
}

/// Whether `mantissa * 16^exponent`, in metres, is `number` nanometres within one part in 10^9.
fn is_near(mantissa: u64, exponent: u8, number: u16) -> bool
    requires mantissa { mantissa < 2 ^ 56 }
    requires least { 1 ≤ number }
    requires most { number ≤ 1000 }
    ensures { result ≡ is_nanometres (mantissa * 16 ^ exponent) number }
{
    if exponent >= 78 {
        return false;
    }
    let below = u32::from(78 - exponent);
    if below > 21 {
        return false;
    }
    let value = u128::from(mantissa) * 1_000_000_000;
    let unit = u128::from(number) * 16u128.pow(below);
    value.abs_diff(unit) * 1_000_000_000 <= unit
}
