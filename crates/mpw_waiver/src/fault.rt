//! Why a waiver can't be asked for or signed.

use mpw_geom::Name;
use thiserror::Error;

/// Why a user can't ask for a waiver or sign one.
#[derive(Debug, Drop, Error)]
pub enum WaiverFault {
    /// The marker has a waiver, or its waiver is signed.
    #[error("the marker is waived already")]
    Known,
    /// The marker has no waiver.
    #[error("the marker has no waiver")]
    NoWaiver,
    /// The user submitted a version that the marker touches. The name is the first, in alphabetical order, of the cells of such versions.
    #[error("the user submitted what the marker meets")]
    Submitter(Name),
    /// The user asked for the waiver.
    #[error("the user asked for the waiver")]
    Asker,
}
