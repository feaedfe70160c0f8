//! The progress of an accepted run.
ghost use Rattle.std.specs.Prelude.{◌≡◌, ℕ};

/// Receives how many jobs of a run's tiles are done.
///
/// No contract of a desk speaks of it: whatever it does, the desk, its store writer and the replies are the same.
pub trait Progress {
    // How a report of so many jobs of so many changes it. A type that says nothing may change as it likes.
    ghost shows: { Self → ℕ → ℕ → Self → Type 0 } = { λ _ _ _ _. Unit {0} };

    /// Reports after each batch that `done` of `total` jobs are done. `done` grows up to `total`. `total` is above 0 and stays the same
    /// throughout a run. The run waits until this call returns.
    fn tell(&mut self, done: usize, total: usize)
        ensures { shows self.old done total self.new };
}

/// Ignores the progress.
#[derive(Clone, Copy, PartialEq, Eq)]
pub struct Silent;

impl Progress for Silent {
    ghost shows = { λ before _ _ after. after ≡ before };

    fn tell(&mut self, _done: usize, _total: usize) {}
}
