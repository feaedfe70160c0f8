//! Whether a client reads what is written to it.
ghost use Rattle.std.specs.Prelude.{◌≡◌};
ghost use Rattle.mpw_admission.specs.Drain.{after_write, is_fast_enough};

/// How many bytes a client has to take in each [`DRAIN_TIME`].
pub const DRAIN_BYTES: u64 = 16_384;

/// In how many milliseconds of waiting a client has to take [`DRAIN_BYTES`].
pub const DRAIN_TIME: u64 = 10_000;

/// How a client reads: the bytes that it took, and the time for which writes waited for it, since it last was fast enough.
#[derive(Clone, Copy, PartialEq, Eq, Debug)]
pub struct Drain {
    /// How many bytes it took.
    pub bytes: u64,
    /// For how many milliseconds writes waited.
    pub waited: u64,
}

impl Drain {
    /// Before the first write.
    pub fn new() -> Drain
        ensures { result ≡ record { bytes = 0; waited = 0 } }
    {
        Drain {
            bytes: 0,
            waited: 0,
        }
    }

    /// Notes a write, and returns whether the client is fast enough.
    pub fn note(&mut self, bytes: u64, waited: u64) -> bool
        ensures fast { result ≡ is_fast_enough self.old bytes waited }
        ensures after { self.new ≡ after_write self.old bytes waited }
    {
        let bytes = self.bytes.saturating_add(bytes);
        let waited = self.waited.saturating_add(waited);
        if bytes >= DRAIN_BYTES {
            *self = Drain::new();
            return true;
        }
        self.bytes = bytes;
        self.waited = waited;
        waited < DRAIN_TIME
    }
}
