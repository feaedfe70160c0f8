//! The changes that are timed, each in a copy of the policy, as the desk makes it.

use crate::policy::desk::{DIGEST, grant_of, name};
use mpw_geom::Name;
use mpw_rbac::{Policy, PolicyFault};
use std::alloc::{AllocError, Global};

/// The cell of the grants that are made.
const NEW_CELL: u32 = 1_000_000;

/// Makes a change of the user `ann` at the top of the tree, or of its roles: `r0` at its top, and `r1` and `r2` in its second row.
fn change(
    policy: &mut Policy,
    kind: &str,
    user: &Name,
    roles: &[Name; 3],
) -> Result<(), PolicyFault> {
    let [top, first, second] = roles;
    match kind {
        "assign" => policy.assign(user, first),
        "inherit" => policy.inherit(first, second),
        "deluser" => policy.deluser(user),
        "delrole" => policy.delrole(first),
        _ => policy.uninherit(top, first),
    }
}

/// Makes the change of that name in the policy.
fn change_named(alloc: Global, policy: &mut Policy, kind: &str) -> Result<bool, AllocError> {
    let made = match kind {
        "grant" => policy.grant(grant_of(alloc, NEW_CELL, 0)?),
        "revoke" => policy.revoke(&grant_of(alloc, 0, 0)?),
        "adduser" => policy.adduser(name(alloc, "new")?, DIGEST),
        "addrole" => policy.addrole(name(alloc, "new")?),
        _ => {
            let roles = [name(alloc, "r0")?, name(alloc, "r1")?, name(alloc, "r2")?];
            change(policy, kind, &name(alloc, "ann")?, &roles)
        }
    };
    Ok(made.is_ok())
}

/// Makes the change of that name so many times, each in a copy of the policy. It returns how many were accepted.
pub fn changed(alloc: Global, policy: &Policy, kind: &str, calls: u32) -> Result<u32, AllocError> {
    let mut accepted = 0u32;
    for _ in 0..calls {
        let mut next = policy.copy()?;
        accepted = accepted.saturating_add(u32::from(change_named(alloc, &mut next, kind)?));
    }
    Ok(accepted)
}
