//! Digests of tokens: SHA-256 of FIPS 180-4.
ghost use Rattle.std.specs.Prelude.{◌≡◌, ◌↔◌, length, IsSome, IfSome};
ghost use Rattle.std.specs.List.{AllPass};
ghost use Rattle.hex.specs.Hex.{is_hex_digit};
ghost use Rattle.mpw_requests.specs.Digest.{Spells};
ghost use Rattle.sha2.specs.Sha256.{sha256};

use hex::FromHex;
use sha2::{Digest, Sha256};

/// The SHA-256 of the bytes. One pass, and no memory.
pub fn digest_of(bytes: &[u8]) -> [u8; 32]
    ensures { result ≡ sha256 bytes.now }
{
    Sha256::digest(bytes)
}

/// The digest that exactly 64 hexadecimal digits of either case spell, the high four bits of each byte first. It is `None` for every other text.
pub fn read_digest(text: &str) -> Option<[u8; 32]>
    ensures value { IfSome result (λ digest. Spells text.now digest) }
    ensures found { IsSome result ↔ ((length text.now ≡ 64) × AllPass is_hex_digit text.now) }
{
    <[u8; 32] as FromHex>::from_hex(text).ok()
}
