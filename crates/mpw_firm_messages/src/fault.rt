//! Why a check ends without a listing. `specs/Said.antt` has what is printed of it.
ghost use Rattle.std.specs.Prelude.{◌≡◌, Some};
ghost use Rattle.mpw_firm_messages.specs.Said.{said};
ghost use Rattle.mpw_firm_messages.specs.Status.{exit_of, is_full, is_memory, status_of};
ghost use Rattle.mpw_firm_messages.specs.declared.fault.FirmFault.TheVariants.{Memory};

use std::alloc::AllocError;
use std::error::Error;
use std::fmt;
use std::io::ErrorKind;

/// Why a check ends without a listing, with its text. Its `Display` is the line that is printed.
#[derive(Debug, Drop)]
pub enum FirmFault {
    /// The command line is wrong.
    Usage(String),
    /// A file or a device failed.
    Device(String),
    /// The library or the deck has a fault.
    Refused(String),
    /// Out of memory.
    Memory,
}

impl FirmFault {
    /// The exit status: 2 for usage, 3 for a file or a device, 4 for a library or a deck, 5 for memory.
    pub fn status(&self) -> u8
        ensures { result ≡ status_of self.now }
    {
        match self {
            FirmFault::Usage(_) => 2,
            FirmFault::Device(_) => 3,
            FirmFault::Refused(_) => 4,
            FirmFault::Memory => 5,
        }
    }
}

/// Whether an error of that kind means out of memory.
pub fn is_memory(kind: ErrorKind) -> bool
    ensures { result ≡ is_memory kind }
{
    matches!(kind, ErrorKind::OutOfMemory)
}

/// Whether an error of that kind means that no space is left, on the disk or in the user's quota.
pub fn is_full(kind: ErrorKind) -> bool
    ensures { result ≡ is_full kind }
{
    matches!(kind, ErrorKind::StorageFull | ErrorKind::QuotaExceeded)
}

/// The exit status of a check that found so many markers: 0 without, 1 with some; else the fault's.
pub fn exit_status(ended: &Result<usize, FirmFault>) -> u8
    ensures { result ≡ exit_of ended.now }
{
    match ended {
        Ok(markers) => { if *markers > 0 { 1 } else { 0 } }
        Err(fault) => fault.status(),
    }
}

impl fmt::Display for FirmFault {
    ghost output = { λ fault. Some (said fault) };

    #[tactic(auto, unfolding(crate::specs::Said::said))]
    fn fmt<W: fmt::Write>(&self, f: &mut fmt::Formatter<W>) -> fmt::Result {
        match self {
            FirmFault::Usage(text) => f.write_str(text.as_str()),
            FirmFault::Device(text) => write!(f, "error: {text}"),
            FirmFault::Refused(text) => write!(f, "error: {text}"),
            FirmFault::Memory => f.write_str(
                "error: out of memory: --summary and --limit hold fewer markers, and --tiles a share of \
                them; or take a larger machine",
            ),
        }
    }
}

impl Error for FirmFault {}

impl From<AllocError> for FirmFault {
    ghost from_gives = { λ _ fault. fault ≡ Memory };

    fn from(_error: AllocError) -> FirmFault {
        FirmFault::Memory
    }
}
