//! How many threads a service has, and when it ends.
ghost use Rattle.std.specs.Prelude.{◌≡◌};
ghost use Rattle.mpw_service.specs.Staff.{is_over, most_of};

use mpw_reception::Strangers;
use std::time::Duration;

/// How many threads serve and work, and for how long.
#[derive(Clone, Copy)]
pub struct Staff {
    /// How many connections are served at once, 1 to 64.
    pub connections: u32,
    /// How many workers execute runs, 1 to 16.
    pub workers: u32,
    /// Whether a connection that ended makes room for another. If not, as many are served in all as at once.
    pub is_ongoing: bool,
    /// How long a client may send nothing.
    pub idle: Duration,
    /// How many calls the desk answers in its life.
    pub calls: usize,
    /// What connections without a session may take, if that is limited.
    pub strangers: Option<Strangers>,
    /// Whether workers wait until a run is begun or cancelled.
    pub holds_run: bool,
}

impl Staff {
    /// How many connections are accepted at most: of an ongoing service as many as can be counted, and of another as many as there may be at once.
    pub(crate) fn most(self) -> u64
        ensures { result ≡ most_of self }
    {
        if self.is_ongoing {
            u64::MAX
        } else {
            u64::from(self.connections)
        }
    }
}

/// Whether a service ends after a connection: if that was answered that the desk is closed, or the desk has answered all its calls.
pub(crate) fn is_over(was_closed: bool, calls: usize, most: usize) -> bool
    ensures { result ≡ is_over was_closed calls most }
{
    was_closed || calls >= most
}
