//! Eight-byte reals.

use anyhow::{Result, bail};
use mpw_real8::Real8;
use std::io;

/// Prints whether the real is each of the whole numbers.
fn print_wholes(rt: &HostRuntime, real: &Real8, numbers: &str) -> Result<()> {
    for word in numbers.split_whitespace() {
        let is_whole = real.is_whole(word.parse::<i32>()?);
        println!(rt; "    {} {word}", if is_whole { "is" } else { "is not" })?;
    }
    Ok(())
}

/// Prints the number of nm.
fn print_nanometres(rt: &HostRuntime, real: &Real8) -> io::Result<()> {
    match real.nanometres() {
        Some(number) => println!(rt; "    {number} nm"),
        None => println!(rt; "    no nm"),
    }
}

/// Prints how many nm a real is, or whether it is each of the whole numbers.
pub fn real(rt: &HostRuntime, word: &str, numbers: &str) -> Result<()> {
    let bytes = u64::from_str_radix(word, 16)?.to_be_bytes();
    let real = Real8::of(bytes);
    if !numbers.is_empty() {
        return print_wholes(rt, &real, numbers);
    }
    if Real8::read(&bytes).nanometres() != real.nanometres() {
        bail!("the same real");
    }
    Ok(print_nanometres(rt, &real)?)
}
