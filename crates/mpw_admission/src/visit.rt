//! How long a connection may take for its lines and payloads, and how long a stranger may stay.
ghost use Rattle.std.specs.Prelude.{◌≡◌, ◌-◌};
ghost use Rattle.mpw_admission.specs.Visit.{patience_of, stage_patience};

use crate::stage::Stage;

/// In how many milliseconds a line has to be whole after its first byte. A stranger may send no whole line for as long.
pub const LINE_TIME: u64 = 30_000;

/// How many milliseconds a payload has before its rate counts.
pub const PAYLOAD_GRACE: u64 = 10_000;

/// How many bytes of a payload have to come in each millisecond: 16 KB in a second.
pub const PAYLOAD_RATE: u64 = 16;

/// The limits that a service is given, in milliseconds.
#[derive(Clone, Copy)]
pub struct Times {
    /// How long a stranger may stay in all.
    pub login: u64,
    /// How long a connection may send nothing between two lines.
    pub idle: u64,
}

/// Where a connection is. All times are in milliseconds.
#[derive(Clone, Copy)]
pub struct Visit {
    /// Whether it never had a session.
    pub is_stranger: bool,
    /// When it was accepted.
    pub begun: u64,
    /// When its last line was answered, or when it was accepted.
    pub rested: u64,
    /// When its line or its payload began.
    pub since: u64,
    /// What it is read for.
    pub stage: Stage,
}

/// What is left of a limit that counts from a moment.
fn left(limit: u64, since: u64, now: u64) -> u64
    ensures { result ≡ limit - (now - since) }
{
    limit.saturating_sub(now.saturating_sub(since))
}

impl Visit {
    /// How long its next byte may take by what it is read for.
    fn stage_patience(&self, times: Times, now: u64) -> u64
        ensures { result ≡ stage_patience self.now times now self.now.stage }
    {
        match self.stage {
            Stage::Rest => left(times.idle, self.rested, now),
            Stage::Line => left(LINE_TIME, self.since, now),
            Stage::Payload(bytes) => left(PAYLOAD_GRACE + bytes / PAYLOAD_RATE, self.since, now),
        }
    }

    /// How long its next byte may take, in milliseconds. At 0 the connection is closed.
    pub fn patience(&self, times: Times, now: u64) -> u64
        ensures { result ≡ patience_of self.now times now }
    {
        let patience = self.stage_patience(times, now);
        if !self.is_stranger {
            return patience;
        }
        let patience = patience.min(left(times.login, self.begun, now));
        match self.stage {
            Stage::Payload(_) => patience,
            _ => patience.min(left(LINE_TIME, self.rested, now)),
        }
    }
}
