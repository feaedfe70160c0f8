//! How long a worker waits before a tile that it tried just before.
ghost use Rattle.std.specs.Prelude.{◌≡◌, None, Some};
ghost use Rattle.mpw_admission.specs.Retries.{is_same, next_after, pause_of};

use crate::pause::Pause;

/// A tile of a run, by both numbers.
#[derive(Clone, Copy, PartialEq, Eq, Debug)]
pub struct Tried {
    /// The run's number.
    pub run: u32,
    /// The tile's number.
    pub tile: u32,
}

/// The tile that a worker tried last, and its next pause. A worker that did a job gets another one. So the same tile again means that it found no memory.
#[derive(Clone, Copy)]
pub struct Retries {
    /// The tile that it tried last.
    pub last: Option<Tried>,
    /// Its next pause.
    pub pause: Pause,
}

/// Whether that tile was tried last.
fn is_same(last: Option<Tried>, tried: Tried) -> bool
    ensures { result ≡ is_same last tried }
{
    match last {
        Some(last) => last.run == tried.run && last.tile == tried.tile,
        None => false,
    }
}

impl Retries {
    /// Of a worker that tried no tile yet.
    pub fn new() -> Retries
        ensures last { result.last ≡ None }
        ensures pause { result.pause.next ≡ 1 }
    {
        Retries {
            last: None,
            pause: Pause::new(),
        }
    }

    /// How many seconds the worker waits before this tile: none before another one, and more each time before the same one.
    pub fn pause_before(&mut self, run: u32, tile: u32) -> u64
        ensures now { result ≡ pause_of (is_same self.old.last (record { run = run; tile = tile })) self.old.pause.next }
        ensures next { self.new.pause.next ≡ next_after (is_same self.old.last (record { run = run; tile = tile })) self.old.pause.next }
        ensures last { self.new.last ≡ Some (record { run = run; tile = tile }) }
    {
        let tried = Tried { run, tile };
        let is_again = is_same(self.last, tried);
        self.last = Some(tried);
        if is_again {
            return self.pause.lengthen();
        }
        self.pause = Pause::new();
        0
    }
}
