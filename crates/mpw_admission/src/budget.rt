//! How many bytes of payloads are read of all strangers together.
ghost use Rattle.std.specs.Prelude.{◌≡◌, ◌-◌, min};

/// How many bytes of submissions that are denied a user may send in a service's life: 256 MB.
pub const DENIED_BYTES: u64 = 268_435_456;

/// What is left of the bytes that strangers may send. It only gets smaller, so what was lent never exceeds what it began with.
#[derive(Clone, Copy, PartialEq, Eq, Debug)]
pub struct Budget {
    /// How many bytes are left.
    pub left: u64,
}

impl Budget {
    /// Of so many bytes in all.
    pub fn new(bytes: u64) -> Budget
        ensures { result ≡ record { left = bytes } }
    {
        Budget { left: bytes }
    }

    /// Lends so many bytes at most, and returns how many. It returns 0 only if none are left, or none are asked for.
    pub fn lend(&mut self, most: u64) -> u64
        ensures lent { result ≡ min most self.old.left }
        ensures left { self.new.left ≡ self.old.left - result }
    {
        let lent = most.min(self.left);
        self.left -= lent;
        lent
    }
}
