//! A pail of lines: what it holds, and how fast it fills. What it allows is in `lines`.
ghost use Rattle.std.specs.Prelude.{◌*◌, ◌<◌, ◌≤◌};

/// How many lines a stranger gets at once.
pub const OWN_LINES: u32 = 8;

/// How many lines a stranger gets in each second after those.
pub const OWN_RATE: u32 = 1;

/// A pail of lines. It is full at first, and fills again at a constant rate.
#[derive(Clone, Copy)]
pub struct Pail {
    /// How many lines it holds at most.
    pub most: u32,
    /// How many lines flow in each second, 1 at least.
    pub rate: u32,
    /// How many thousandths of a line it held at `since`.
    pub level: u64,
    /// When it held them, in milliseconds.
    pub since: u64,
    pub ghost flows: { 0 < rate },
    pub ghost holds: { level ≤ 1000 * most },
}
