//! The tables of the desk.

use mpw_hier::Shelf;
use mpw_placings::Wafer;
use mpw_rbac::Policy;
use mpw_run::Run;
use mpw_trail::Trail;
use mpw_waiver::Waivers;

/// The tables of a desk: the policy, the shelf of submissions, the wafer, the run that checks it, the waivers of its markers, and the trail
/// of requests.
pub(crate) struct Tables {
    pub(crate) policy: Policy,
    pub(crate) shelf: Shelf,
    pub(crate) wafer: Wafer,
    pub(crate) run: Run,
    pub(crate) waivers: Waivers,
    pub(crate) trail: Trail,
}

impl Drop for Tables {
    fn drop(self) {
        let Tables {
            policy,
            shelf,
            wafer,
            run,
            waivers,
            trail,
        } = self;
        drop(policy);
        drop(shelf);
        drop(wafer);
        drop(run);
        drop(waivers);
        drop(trail);
    }
}
