//! The test of a waiver, and the change after it.

ghost use Rattle.std.specs.Prelude.{◌≡◌, true, Ok, Err, IfOk, OnErr};
ghost use Rattle.mpw_waiver.specs.declared.fault.WaiverFault.TheVariants.{Known};
ghost use Rattle.mpw_waiver.specs.Signing.{ask_test, sign_test};
ghost use Rattle.mpw_waiver.specs.Waivers.{waiver_at, is_signed, with_asker, with_signer};

use mpw_geom::Name;
use mpw_hier::Shelf;
use mpw_waiver::{WaiverFault, Waivers};
use std::alloc::AllocError;

/// Asks for a waiver of the marker at an index, if there is none yet.
///
/// # Errors
/// The inner result: `Known` if there is one. The outer result: no more copies of the name can be counted.
pub fn ask_once(
    waivers: &mut Waivers,
    place: usize,
    user: &Name,
) -> Result<Result<(), WaiverFault>, AllocError>
    ensures told { IfOk result (λ told. told ≡ ask_test (waiver_at waivers.old place)) }
    ensures asked { IfOk result (λ told. IfOk told (λ done. waivers.new ≡ with_asker waivers.old place user.now)) }
    ensures left { IfOk result (λ told. OnErr told (waivers.new ≡ waivers.old)) }
    ensures err { OnErr result (waivers.new ≡ waivers.old) }
{
    if let Err(fault) = waivers.may_ask(place) {
        return Ok(Err(fault));
    }
    waivers.ask(place, user.copy()?);
    Ok(Ok(()))
}

/// Signs the waiver of the marker at an index, which touches the submissions of these numbers, if the user may.
///
/// # Errors
/// The inner result: those of [`Waivers::may_sign`]. The outer result: no more copies of a name can be counted.
pub fn sign_once(
    waivers: &mut Waivers,
    place: usize,
    shelf: &Shelf,
    met: &[u32],
    user: &Name,
) -> Result<Result<(), WaiverFault>, AllocError>
    ensures told { IfOk result (λ told. told ≡ sign_test shelf.now met.now user.now (waiver_at waivers.old place)) }
    ensures signed { IfOk result (λ told. IfOk told (λ done. waivers.new ≡ with_signer waivers.old place user.now)) }
    ensures left { IfOk result (λ told. OnErr told (waivers.new ≡ waivers.old)) }
    ensures err { OnErr result (waivers.new ≡ waivers.old) }
    ensures once { is_signed (waiver_at waivers.old place) ≡ true → IfOk result (λ told. told ≡ Err Known) }
{
    if let Err(fault) = waivers.may_sign(place, shelf, met, user)? {
        return Ok(Err(fault));
    }
    waivers.sign(place, user.copy()?);
    Ok(Ok(()))
}
