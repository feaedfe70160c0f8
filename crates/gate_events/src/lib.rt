//! The parts of golden tests of the desk: scripts with their replies, devices in memory that serve them, and the words of events, answers
//! and responses.
#![tactic(auto)]

mod devices;
mod forged;
mod kept;
mod replies;
mod requests;
mod responses;
mod transcript;
mod words;

pub use devices::{Paper, Text};
pub use forged::{cut_job, tile_job};
pub use kept::{JobAnswer, Kept, event_of, find, find_cut, find_tile, keep, work};
pub use requests::request;
pub use responses::{different, events_of, is_accepted, job_of, tell_response};
pub use transcript::{Transcript, TranscriptFault, read_transcript};
pub use words::{digest, name};
