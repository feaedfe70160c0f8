//! The calls that are timed.

use mpw_geom::Name;
use mpw_permissions::{Object, Operation};
use mpw_rbac::Policy;

/// Asks for that many permissions, of the objects in turn. It returns how many there are.
pub fn permitted(policy: &Policy, objects: &[Object], calls: u32) -> u32 {
    let (mut permitted, mut at) = (0u32, 0usize);
    for _ in 0..calls {
        let Some(object) = objects.get(at) else {
            return permitted;
        };
        permitted = permitted.saturating_add(u32::from(policy.permits(2, Operation::Read, object)));
        at = next(at, objects.len());
    }
    permitted
}

/// Asks one access for that many permissions, of the objects in turn. It returns how many there are.
pub fn accessible(policy: &Policy, objects: &[Object], calls: u32) -> u32 {
    let access = policy.access(2, Operation::Read);
    let (mut permitted, mut at) = (0u32, 0usize);
    for _ in 0..calls {
        let Some(object) = objects.get(at) else {
            return permitted;
        };
        permitted = permitted.saturating_add(u32::from(access.permits(object)));
        at = next(at, objects.len());
    }
    permitted
}

/// The index after that one; 0 after the last.
fn next(at: usize, count: usize) -> usize {
    let next = at.saturating_add(1);
    if next < count { next } else { 0 }
}

/// Asks `whoami` that many times. It returns how often it got an identity.
pub fn known(policy: &Policy, calls: u32) -> u32 {
    let mut known = 0u32;
    for _ in 0..calls {
        known = known.saturating_add(u32::from(policy.has_session(2) && policy.whoami(2).is_ok()));
    }
    known
}

/// Makes a role active and drops it that many times. It returns how often both were accepted.
pub fn activated(policy: &mut Policy, role: &Name, calls: u32) -> u32 {
    let mut accepted = 0u32;
    for _ in 0..calls {
        let active = policy.has_session(2) && policy.activate(2, role).is_ok();
        let dropped = policy.drop_role(2, role).is_ok();
        accepted = accepted.saturating_add(u32::from(active && dropped));
    }
    accepted
}
