//! What a service is to do.
ghost use Rattle.std.specs.Prelude.{◌≤◌};

use crate::officer::Officer;
use crate::store::Store;

/// The greatest number of connections.
pub const MAX_CONNECTIONS: u32 = 64;

/// The greatest number of workers.
pub const MAX_WORKERS: u32 = 16;

/// The longest time in which a connection may send nothing, in seconds: a day.
pub const MAX_IDLE: u32 = 86_400;

/// Where the log of a service goes.
#[derive(Drop)]
pub enum Log {
    /// There is none.
    Nowhere,
    /// To the standard error.
    StandardError,
    /// To the file of that name.
    File(String),
}

/// What strangers may use. A stranger is a connection that never had a session.
#[derive(Clone, Copy, Debug)]
pub struct Strangers {
    /// How many bytes of payloads they may send together, from 2^20 to 2^32.
    pub memory: u64,
    /// How many lines they may send together in a second, from 1 to 10,000.
    pub rate: u32,
    /// After how many seconds a stranger is closed, from 10 to 3600.
    pub login: u32,
    pub ghost memory_in_range: { (1048576 ≤ memory) × (memory ≤ 4294967296) },
    pub ghost rate_in_range: { (1 ≤ rate) × (rate ≤ 10000) },
    pub ghost login_in_range: { (10 ≤ login) × (login ≤ 3600) },
}

/// What a service is to do.
#[derive(Drop)]
pub struct Service {
    /// The socket's address, as it was written, `IPV4:PORT` or `[IPV6]:PORT`.
    pub listen: String,
    /// How many connections it has, from 1 to [`MAX_CONNECTIONS`]: at a time if it is ongoing, and else in all.
    pub connections: u32,
    /// How many workers it has, from 1 to [`MAX_WORKERS`].
    pub workers: u32,
    /// Whether it goes on when connections end.
    pub is_ongoing: bool,
    /// After how many seconds without a byte a connection is ended, from 1 to [`MAX_IDLE`].
    pub idle: u64,
    /// Where its log goes.
    pub log: Log,
    /// The first user of its desk.
    pub officer: Officer,
    /// The file in which its desk's changes are stored, if they are.
    pub store: Option<Store>,
    /// What strangers may use. Only an ongoing service has to limit them.
    pub strangers: Option<Strangers>,
    /// Whether the tiles of an unfinished run wait, at the start, for an officer's `cancel` or `run`.
    pub holds_run: bool,
    pub ghost connections_in_range: { (1 ≤ connections) × (connections ≤ 64) },
    pub ghost workers_in_range: { (1 ≤ workers) × (workers ≤ 16) },
    pub ghost idle_in_range: { (1 ≤ idle) × (idle ≤ 86400) },
}
