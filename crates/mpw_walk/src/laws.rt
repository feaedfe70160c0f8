//! Laws about the definitions. Each function does nothing but call the laws that it needs; its contract is the law.

ghost use Rattle.std.specs.Prelude.{◌≡◌, ◌≤◌, ◌<◌, ◌+◌, ◌*◌, ◌++◌, ◌∷◌, ◌↔◌, [], true, IsTrue, ℕ, List, length, map, All};
ghost use Rattle.mpw_geom.specs.Plane.{has_point};
ghost use Rattle.mpw_geom.specs.declared.placing.Placing.{Placing};
ghost use Rattle.mpw_geom.specs.declared.plane.Box2.{Box2};
ghost use Rattle.mpw_geom.specs.declared.plane.Point.{Point};
ghost use Rattle.mpw_hier.specs.Boxes.{extent_of};
ghost use Rattle.mpw_hier.specs.Items.{Item, placed_item};
ghost use Rattle.mpw_hier.specs.Limits.{IsShelf};
ghost use Rattle.mpw_hier.specs.Structures.{is_shape};
ghost use Rattle.mpw_hier.specs.Values.{flat, height};
ghost use Rattle.mpw_hier.specs.declared.submission.Submission.{Submission};
ghost use Rattle.mpw_walk.specs.Internal.Extents.{ExtentsAreWalked};
ghost use Rattle.mpw_walk.specs.Missed.{RootsCarryTheirExtents, InstancesCarryTheirExtents, MissedRootsShowNothing, MissedInstancesShowNothing};
ghost use Rattle.mpw_walk.specs.Internal.Named.{NamesAreWalked};
ghost use Rattle.mpw_walk.specs.Roots.{root_at_origin, roots_extent, roots_count};
ghost use Rattle.mpw_walk.specs.Turns.{given, flat_root, flat_roots, placed_root, root_turns, roots_turns};
ghost use Rattle.mpw_walk.specs.Walk.{IsRoot};
ghost use Rattle.mpw_walk.specs.Window.{do_meet};
ghost use Rattle.mpw_walk.specs.declared.root.Root.{Root};

use mpw_hier::{
    boxes_are_placed, earlier_submissions_stay, extents_are_least_boxes, names_list_their_targets,
    names_show_their_targets, shelves_have_their_numbers,
};
use std::marker::Model;

/// The turns of roots give their flat lists in order. A root has at most as many turns as its number of
/// shapes times one more than its levels.
#[tactic(auto, using(crate::proofs::Given::roots_given, crate::proofs::Given::root_few))]
pub fn turns_give_flat_lists()
    ensures given { (ss : List Submission) (roots : List Root) → given (roots_turns ss roots) ≡ flat_roots ss roots }
    ensures few { (ss : List Submission) (root : Root) → length (root_turns ss root) ≤ (height ss root.submission + 1) * length (flat_root ss root) }
{}

/// Roots that are placed again have the same shapes, each placed again.
#[tactic(auto, using(crate::proofs::Given::roots_again))]
pub fn roots_are_placed_again()
    ensures { (t : Placing) (ss : List Submission) (roots : List Root) → flat_roots ss (map (placed_root t) roots) ≡ map (placed_item t) (flat_roots ss roots) }
{}

/// A submission that is not displaced is a root of any shelf that has it, and has its own flat list.
pub fn roots_at_origin_show_their_submission()
    ensures fits { (ss : List Submission) → IsShelf ss → (number : ℕ) → number < length ss → IsRoot ss (root_at_origin number) }
    ensures shapes { (ss : List Submission) (number : ℕ) → flat_roots ss (root_at_origin number ∷ []) ≡ flat ss number }
{
    shelves_have_their_numbers();
    extents_are_least_boxes();
}

/// Each shape of roots comes from a submission on the shelf.
pub fn shapes_come_from_the_shelf()
    ensures { (ss : List Submission) (roots : List Root) → All (λ (i : Item). i.origin < length ss) (flat_roots ss roots) }
{
    shelves_have_their_numbers();
}

/// Each shape of roots, and each of a submission, is a boundary or a path: arrays and other references are
/// resolved.
pub fn shapes_are_no_references()
    ensures roots { (ss : List Submission) (roots : List Root) → All (λ (i : Item). is_shape i.element ≡ true) (flat_roots ss roots) }
    ensures submissions { (ss : List Submission) (number : ℕ) → All (λ (i : Item). is_shape i.element ≡ true) (flat ss number) }
{}

/// What was a root stays one when other submissions come, with the same content. A submission on the shelf that was no root becomes none.
pub fn roots_stay_roots()
    ensures roots { (ss later : List Submission) (root : Root) → root.submission < length ss → IsRoot ss root ↔ IsRoot (ss ++ later) root }
    ensures shapes { (ss later : List Submission) (roots : List Root) → All (IsRoot ss) roots → flat_roots (ss ++ later) roots ≡ flat_roots ss roots }
{
    earlier_submissions_stay();
}

/// The extent of roots is the least box that contains their placed extents. Their number of shapes is the sum of those of their
/// submissions.
pub fn roots_show_what_their_submissions_do()
    ensures extent { (ss : List Submission) (roots : List Root) → extent_of (flat_roots ss roots) ≡ roots_extent ss roots }
    ensures count { (ss : List Submission) (roots : List Root) → length (flat_roots ss roots) ≡ roots_count ss roots }
{
    extents_are_least_boxes();
}

/// A box touches a window if they share a point. The turn that enters an instance has its placed extent. If that misses a window, so
/// do all turns of the instance's content. So the turns that touch a window are those of the instances that a walk within it enters,
/// and of the shapes that it gives.
pub fn missed_instances_show_nothing_met()
    ensures points { (a b : Box2) → (do_meet a b ≡ true) ↔ ((p : Point) × IsTrue (has_point a p) × IsTrue (has_point b p)) }
    ensures carried_by_roots { RootsCarryTheirExtents }
    ensures carried_by_instances { InstancesCarryTheirExtents }
    ensures missed_roots { MissedRootsShowNothing }
    ensures missed_instances { MissedInstancesShowNothing }
{
    extents_are_walked();
}

/// Extents are least boxes, and are placed with their content.
pub fn extents_are_walked()
    ensures { ExtentsAreWalked }
{
    extents_are_least_boxes();
    boxes_are_placed();
}

/// A turn, for which laws of lists of any kind are called. No value of this type exists.
#[derive(Drop)]
struct Turning;

impl Model for Turning {
    ghost use Rattle.std.specs.Prelude.{None};
    ghost use Rattle.mpw_walk.specs.Turns.{Turn, enter};

    ghost Value = { Turn };

    ghost view = { λ _. enter None };
}

/// The content of a name for a submission, and its turns, are those of its structure, or of the top of the submission to which it
/// is bound. Extents are least boxes.
pub fn names_are_walked()
    ensures { NamesAreWalked }
{
    names_show_their_targets();
    names_list_their_targets::<Turning>();
    extents_are_walked();
}
