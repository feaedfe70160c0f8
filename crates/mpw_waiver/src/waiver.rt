//! One waiver: who asked for it, and who signed it.

ghost use Rattle.std.specs.Prelude.{◌≡◌, is_some};

use mpw_geom::Name;

/// A request that a marker may stay.
pub struct Waiver {
    /// The user who asked.
    pub asker: Name,
    /// The user who signed, if one did.
    pub signer: Option<Name>,
}

impl Drop for Waiver {
    fn drop(self) {
        let Waiver { asker, signer } = self;
        drop(asker);
        drop(signer);
    }
}

impl Waiver {
    /// Whether somebody signed it.
    pub fn is_signed(&self) -> bool
        ensures { result ≡ is_some self.now.signer }
    {
        self.signer.is_some()
    }
}
