//! A source and a sink in memory that fail at a place.
ghost use Rattle.std.specs.Prelude.{◌≡◌, [], None, false};

use mpw_devices::{DeviceFault, Sink, Source};
use std::alloc::Global;

/// A text that a source gives, byte by byte, and the place at which it fails.
#[derive(Drop)]
pub struct Text<'a> {
    /// All bytes, including those that were given.
    pub bytes: &'a [u8],
    /// The index of the next byte.
    pub at: usize,
    /// The index at which it fails, at each call, instead of giving the byte there.
    pub fails_at: usize,
    /// How often it failed.
    pub failures: u64,
}

impl Source for Text<'_> {
    ghost remaining = { λ _. None };

    ghost failures = { λ text. text.failures };

    fn next_byte(&mut self) -> Result<Option<u8>, DeviceFault> {
        if self.at == self.fails_at {
            self.failures = self.failures.saturating_add(1);
            return Err(DeviceFault);
        }
        match self.bytes.get(self.at) {
            Some(byte) => {
                self.at += 1;
                Ok(Some(*byte))
            }
            None => Ok(None),
        }
    }
}

/// What a sink took, how much it takes before it fails, and whether it took bytes since it was flushed.
#[derive(Drop)]
pub struct Paper {
    /// What it took so far.
    pub bytes: Vec<u8>,
    /// How many more bytes it takes.
    pub room: usize,
    /// How often it failed.
    pub failures: u64,
    /// Whether bytes came since it was flushed.
    pub is_pending: bool,
}

impl Paper {
    /// A sink that takes that many bytes.
    pub fn new(alloc: Global, room: usize) -> Paper
        ensures { (result.room ≡ room) × (result.failures ≡ 0) × (result.is_pending ≡ false) × (result.bytes.items ≡ []) }
    {
        Paper {
            bytes: Vec::new(alloc),
            room,
            failures: 0,
            is_pending: false,
        }
    }

    /// What it took.
    pub fn into_bytes(self) -> Vec<u8>
        ensures { result ≡ self.bytes }
    {
        let Paper {
            bytes,
            room: _,
            failures: _,
            is_pending: _,
        } = self;
        bytes
    }
}

impl Sink for Paper {
    ghost contents = { λ _. None };

    ghost failures = { λ paper. paper.failures };

    ghost pending = { λ paper. paper.is_pending };

    fn write(&mut self, bytes: &[u8]) -> Result<usize, DeviceFault> {
        let taken = bytes.len().min(self.room);
        if (taken == 0 && !bytes.is_empty())
            || self.bytes.extend_from_slice(&bytes[..taken]).is_err()
        {
            self.failures = self.failures.saturating_add(1);
            return Err(DeviceFault);
        }
        self.room -= taken;
        if taken > 0 {
            self.is_pending = true;
        }
        Ok(taken)
    }

    fn flush(&mut self) -> Result<(), DeviceFault> {
        self.is_pending = false;
        Ok(())
    }
}
