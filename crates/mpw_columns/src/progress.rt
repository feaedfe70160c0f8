//! The interface that reports how far a check is.

ghost use Rattle.std.specs.Prelude.{◌≡◌, true};

/// Receives reports of how far a check of tiles or columns is.
///
/// No contract depends on it: the markers of a check that succeeds are the same whatever it does and answers.
pub trait Progress {
    /// Reports how many of `total` tiles or columns are checked (`done`), and how many markers were found so far. The first report, before any is checked,
    /// has `done` 0; another one follows each batch. The markers of columns that repeat a checked one are counted too. A marker over several tiles counts
    /// in each. `done` grows up to `total`. A check in groups of rules reports the columns of one group after those of another, and `total` may change when a
    /// group begins. The check waits until the call returns.
    fn tell(&mut self, done: usize, total: usize, markers: usize);

    /// Whether there is memory for `markers` markers. The check asks after each batch of columns. If the answer is `false`, it ends with out of
    /// memory.
    fn has_room(&mut self, markers: usize) -> bool;
}

/// Reports nothing, and always has room.
#[derive(Clone, Copy, PartialEq, Eq)]
pub struct Silent;

impl Progress for Silent {
    fn tell(&mut self, _done: usize, _total: usize, _markers: usize) {}

    fn has_room(&mut self, _markers: usize) -> bool
        ensures { result ≡ true }
    {
        true
    }
}
