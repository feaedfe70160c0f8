//! The masks of roles, joined along immediate pairs: for a new pair, or again for all pairs.
ghost use Rattle.std.specs.Prelude.{◌≡◌, ℕ, ◌≤◌, ◌<◌, ◌==◌, ◌&&◌, ◌||◌, ◌++◌, ◌∷◌, [], List, length, true};
ghost use Rattle.mpw_roles.specs.Internal.Table.{IsTable, entries_of, are_once};
ghost use Rattle.mpw_roles.specs.Mask.{has};
ghost use Rattle.mpw_roles.specs.Places.{mask_at, IsMasked};
ghost use Rattle.mpw_roles.specs.declared.pairs.Pair.{Pair as PairState};

use crate::Mask;
use crate::mask::join_masks;
use crate::pairs::{Pair, place_of};

/// Sets the mask of a role without juniors: its own index.
pub(crate) fn write_own(masks: &mut [Mask], place: usize)
    requires within { place < length masks.old }
    requires small { place < 512 }
    ensures own { (other : ℕ) → has (mask_at masks.new place) other ≡ other == place }
    ensures others { (role : ℕ) → role < place → mask_at masks.new role ≡ mask_at masks.old role }
    ensures long { length masks.new ≡ length masks.old }
{
    let mut own = Mask::new();
    own.insert(place);
    masks[place] = own;
}

/// Sets the mask of each of the first `count` roles to its own index.
fn write_all_own(masks: &mut [Mask], count: usize)
    requires within { count ≤ length masks.old }
    requires small { count ≤ 512 }
    ensures own { (place : ℕ) → place < count → (other : ℕ) → has (mask_at masks.new place) other ≡ other == place }
    ensures long { length masks.new ≡ length masks.old }
{
    for place in 0..count {
        write_own(masks, place);
    }
}

/// Adds the indexes of the junior's mask to each mask that has the senior's index.
pub(crate) fn join_places(masks: &mut [Mask], senior: usize, junior: usize)
    requires senior { senior < length masks.old }
    requires junior { junior < length masks.old }
    ensures joined { (role : ℕ) → role < length masks.old → (place : ℕ) → has (mask_at masks.new role) place ≡ (has (mask_at masks.old role) place || (has (mask_at masks.old role) senior && has (mask_at masks.old junior) place)) }
    ensures long { length masks.new ≡ length masks.old }
{
    let added = masks[junior];
    join_masks(masks, senior, &added);
}

/// The masks after one more pair.
fn join_pair(order: &[usize], pair: &Pair, masks: &mut [Mask])
    requires once { are_once order.now ≡ true }
    requires long { length order.now ≤ length masks.old }
    ensures masked { (names : List (List ℕ)) (done : List PairState) → IsTable names (done ++ pair.now ∷ []) order.now → IsMasked (entries_of names done order.now) masks.old → IsMasked (entries_of names (done ++ pair.now ∷ []) order.now) masks.new }
    ensures same { length masks.new ≡ length masks.old }
{
    let Some(above) = place_of(order, pair.senior) else {
        return;
    };
    let Some(below) = place_of(order, pair.junior) else {
        return;
    };
    join_places(masks, above, below);
}

/// Makes the mask of each role again. Cost: a pass over the masks for each pair. It takes no memory.
pub(crate) fn remask(order: &[usize], pairs: &[Pair], masks: &mut [Mask])
    requires once { are_once order.now ≡ true }
    requires small { length order.now ≤ 512 }
    requires long { length order.now ≤ length masks.old }
    ensures masked { (names : List (List ℕ)) → IsTable names pairs.now order.now → IsMasked (entries_of names pairs.now order.now) masks.new }
    ensures same { length masks.new ≡ length masks.old }
{
    write_all_own(masks, order.len());
    for pair in pairs {
        join_pair(order, pair, masks);
    }
}
