//! Which submissions may be seen.

ghost use Rattle.std.specs.Prelude.{◌≡◌, slice_get};
ghost use Rattle.mpw_seen.specs.Seen.{is_seen};

/// Whether the submission with a number may be seen. One after the end may not.
pub fn is_seen(seen: &[bool], number: u32) -> bool
    ensures { result ≡ is_seen (slice_get seen.now number) }
{
    match seen.get(number as usize) {
        Some(seen) => *seen,
        None => false,
    }
}
