//! Why rows can't be listed.
ghost use Rattle.std.specs.Prelude.{◌≡◌};
ghost use Rattle.mpw_store_listing.specs.declared.fault.ListingFault.TheVariants as told;

use mpw_store::StoreFault;
use mpw_wire::WireFault;
use thiserror::Error;

/// Why rows can't be listed.
#[derive(Clone, Copy, Debug, Error)]
pub enum ListingFault {
    /// The store's rows can't be read.
    #[error("{0}")]
    Store(StoreFault),
    /// The output failed.
    #[error("{0}")]
    Output(WireFault),
}

impl From<StoreFault> for ListingFault {
    ghost from_gives = { λ fault found. found ≡ told.Store fault };

    fn from(fault: StoreFault) -> ListingFault {
        ListingFault::Store(fault)
    }
}

impl From<WireFault> for ListingFault {
    ghost from_gives = { λ fault found. found ≡ told.Output fault };

    fn from(fault: WireFault) -> ListingFault {
        ListingFault::Output(fault)
    }
}
