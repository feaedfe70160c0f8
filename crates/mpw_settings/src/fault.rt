//! Why a command line gives no settings.
ghost use Rattle.std.specs.Prelude.{◌≡◌};
ghost use Rattle.mpw_settings.specs.declared.fault.SettingsFault.TheVariants.{Memory};

use std::alloc::AllocError;
use thiserror::Error;

/// Why a command line gives no settings.
#[derive(Debug, Drop, Error)]
pub enum SettingsFault {
    /// It isn't one; the text says what is wrong and what is accepted.
    #[error("{0}")]
    Usage(String),
    /// Memory runs out.
    #[error("error: out of memory")]
    Memory,
}

impl From<AllocError> for SettingsFault {
    ghost from_gives = { λ _ fault. fault ≡ Memory };

    fn from(_error: AllocError) -> SettingsFault {
        SettingsFault::Memory
    }
}
