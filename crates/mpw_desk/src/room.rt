//! The name of one desk in the proofs, and what a desk is made of before it has a name.
ghost use Rattle.std.specs.Prelude.{◌≡◌, IfOk};

use mpw_events::Call;
use mpw_receipts::{Naming, Opened};
use std::alloc::{AllocError, Global};
use std::marker::{Brand, Model};
use std::sync::ledger::{self, Ledger};

/// Names one desk: the ledger that counts its calls, the register of its calls, and the state in which it began. A pass names its desk by
/// its type. So a pass of another desk doesn't fit.
pub trait Room: Ledger + Naming {
    ghost use Rattle.std.specs.Prelude.{ℕ};
    ghost use Rattle.mpw_events.specs.History.{KeptDesk};

    /// All parts of the ledger.
    ghost all: { ℕ };

    /// The desk with its store writer, as it was when it was shared.
    ghost begun: { KeptDesk };

    /// The number of the first connection since then.
    ghost first: { ℕ };
}

impl Room for Brand {
    ghost use Rattle.mpw_desk.specs.Values.{no_desk};

    ghost all = { 0 };

    ghost begun = { no_desk };

    ghost first = { 0 };
}

/// The number of parts of the ledger: one for each pass, and more.
const PARTS: u64 = 1 << 21;

/// A ledger and a register without calls, before they are named. Sharing a desk takes one, and no further memory.
pub struct Blank {
    parts: ledger::Blank,
    register: Opened<Call>,
}

impl Drop for Blank {
    fn drop(self) {
        let Blank { parts, register } = self;
        drop(parts);
        drop(register);
    }
}

impl Model for Blank {
    ghost use Rattle.mpw_desk.specs.Values.{BlankView};

    ghost Value = { BlankView };

    ghost view = { λ b. record { name = b.parts.name; parts = b.parts.parts; table = b.register } };
}

impl Blank {
    /// A ledger of 2^21 parts, and a register without calls. One allocation.
    ///
    /// # Errors
    /// Out of memory.
    pub fn new(alloc: Global) -> Result<Blank, AllocError>
        ensures { IfOk result (λ blank. blank.parts ≡ 2097152) }
    {
        let register = Opened::new(alloc)?;
        let parts = ledger::Blank::new(PARTS);
        Ok(Blank { parts, register })
    }

    /// The ledger and the register.
    pub(crate) fn into_parts(self) -> (ledger::Blank, Opened<Call>)
        ensures ledger { (result.0.name ≡ self.name) × (result.0.parts ≡ self.parts) }
        ensures register { result.1 ≡ self.table }
    {
        let Blank { parts, register } = self;
        (parts, register)
    }
}
