//! The large parts of events and responses, which copies share.
use mpw_job::{CutAnswer, TileAnswer};
use mpw_lists::Shared;
use mpw_run::RunReply;

/// The windows of a cut, which copies share.
pub type SharedCut = Shared<CutAnswer>;

/// The markers of a tile, which copies share.
pub type SharedTile = Shared<TileAnswer>;

/// The run's reply to an event, which copies share.
pub type SharedRunReply = Shared<RunReply>;
