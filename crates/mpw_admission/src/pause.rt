//! How long a worker waits that found no memory.
ghost use Rattle.std.specs.Prelude.{◌≡◌, ◌≤◌, ◌*◌, min};

/// The first pause, in seconds.
pub const FIRST_PAUSE: u64 = 1;

/// The longest pause, in seconds.
pub const LONGEST_PAUSE: u64 = 60;

/// The next pause of a worker: a second at first, and then twice as long each time, up to a minute.
#[derive(Clone, Copy, PartialEq, Eq, Debug)]
pub struct Pause {
    /// The next pause, in seconds.
    pub next: u64,
    pub ghost longest: { next ≤ 60 },
}

impl Pause {
    /// Of a worker whose last job had its memory.
    pub fn new() -> Pause
        ensures { result.next ≡ 1 }
    {
        Pause { next: FIRST_PAUSE }
    }

    /// How long the worker waits now, in seconds. The next pause is twice as long.
    pub fn lengthen(&mut self) -> u64
        ensures now { result ≡ self.old.next }
        ensures next { self.new.next ≡ min (2 * self.old.next) 60 }
    {
        let now = self.next;
        self.next = (2 * now).min(LONGEST_PAUSE);
        now
    }
}
