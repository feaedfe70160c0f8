//! Digests by their hexadecimal digits.

use anyhow::Result;
use mpw_requests::{digest_of, read_digest};

/// Texts of digits. The first two spell the digest of `abc` (FIPS 180-4).
const TEXTS: [&str; 6] = [
    "ba7816bf8f01cfea414140de5dae2223b00361a396177a9cb410ff61f20015ad",
    "BA7816BF8F01CFEA414140DE5DAE2223B00361A396177A9CB410FF61F20015AD",
    "",
    "ba7816bf",
    "ga7816bf8f01cfea414140de5dae2223b00361a396177a9cb410ff61f20015ad",
    "ba7816bf8f01cfea414140de5dae2223b00361a396177a9cb410ff61f20015ad0",
];

/// What a text of digits is.
fn word_of(text: &str) -> &'static str {
    match read_digest(text) {
        Some(digest) if digest == digest_of(b"abc") => "the digest of abc",
        Some(_) => "another digest",
        None => "no digest",
    }
}

/// Prints what each text is.
pub fn tell_digests(rt: &HostRuntime) -> Result<()> {
    for text in TEXTS {
        println!(rt; "digits '{text}': {}", word_of(text))?;
    }
    Ok(())
}
