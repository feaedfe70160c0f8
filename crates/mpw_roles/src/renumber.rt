//! New numbers for the table of roles: the number of each role is its index.
ghost use Rattle.std.specs.Prelude.{◌≡◌, map, true, IfOk};
ghost use Rattle.std.specs.List.{range_with_len};
ghost use Rattle.mpw_roles.specs.Internal.Table.{name_of, are_once, place_in, placed_pair};

use crate::Register;
use crate::pairs::{Pair, place_of};
use mpw_geom::Names;
use std::alloc::{AllocError, Global};

/// The names with these numbers.
pub(crate) fn names_with(
    alloc: Global,
    names: &Register,
    order: &[usize],
) -> Result<Names, AllocError>
    ensures { IfOk result (λ copy. copy ≡ map (name_of names.now) order.now) }
{
    let mut copy = Names::new(alloc);
    for number in order {
        let Some(name) = names.name(*number) else {
            return Err(AllocError);
        };
        copy.push(name.copy()?)?;
    }
    Ok(copy)
}

/// The numbers from 0 on, `count` of them, with room for one more.
pub(crate) fn numbers(alloc: Global, count: usize) -> Result<Vec<usize>, AllocError>
    ensures { IfOk result (λ numbers. numbers.items ≡ range_with_len 0 count) }
{
    let mut numbers = Vec::with_capacity(alloc, count.saturating_add(1))?;
    for number in 0..count {
        numbers.push(number)?;
    }
    Ok(numbers)
}

/// The pair by the indexes of its roles.
fn placed_pair(order: &[usize], pair: &Pair) -> Pair
    requires { are_once order.now ≡ true }
    ensures { result ≡ placed_pair order.now pair.now }
{
    let senior = place_of(order, pair.senior).unwrap_or(0);
    let junior = place_of(order, pair.junior).unwrap_or(0);
    Pair { senior, junior }
}

/// The pairs by the indexes of their roles, with room for one more.
pub(crate) fn placed_pairs(
    alloc: Global,
    order: &[usize],
    pairs: &[Pair],
) -> Result<Vec<Pair>, AllocError>
    requires { are_once order.now ≡ true }
    ensures { IfOk result (λ placed. placed.items ≡ map (placed_pair order.now) pairs.now) }
{
    let mut placed = Vec::with_capacity(alloc, pairs.len().saturating_add(1))?;
    for pair in pairs {
        placed.push(placed_pair(order, pair))?;
    }
    Ok(placed)
}

/// Whether each number is its own index, and there is no other number. Then new numbers gain nothing.
pub(crate) fn is_straight(order: &[usize], count: usize) -> bool {
    if order.len() != count {
        return false;
    }
    let mut place: usize = 0;
    for number in order {
        if *number != place {
            return false;
        }
        place = place.saturating_add(1);
    }
    true
}
