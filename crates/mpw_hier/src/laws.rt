//! Laws about the definitions. Each function has an empty body; its contract is the law.

ghost use Rattle.mpw_hier.specs.Reach.{CyclesAreFound, NamesOutsideAreFound, ExternalsAreOne, FarExtentsAreFound};
ghost use Rattle.std.specs.Prelude.{◌≡◌, ℕ, List, length};
ghost use Rattle.mpw_structures.specs.declared.element.Reference.{Reference};
ghost use Rattle.mpw_structures.specs.declared.structures.Structure.{Structure};
ghost use Rattle.mpw_hier.specs.declared.submission.Submission.{Submission};
ghost use Rattle.mpw_hier.specs.Values.{flats};
ghost use Rattle.mpw_hier.specs.Named.{OwnNamesAreShown, OuterNamesAreShown, LastNodesAreTops, OwnNamesAreListed, OuterNamesAreListed, TopsAreListed};
ghost use Rattle.mpw_hier.specs.Holding.{ExtentsAreOrdered, ExtentsHoldItems, ExtentsAreLeast, ExtentsAreJoined, ExtentsArePlaced};
ghost use Rattle.mpw_hier.specs.Placed.{BoxesArePlacedAgain, UnmovedShapesHaveTheirBoxes};
ghost use Rattle.mpw_hier.specs.Shelved.{PresentAreOfTheirCell, LastIsPresent, ShapesAreOfEarlier, ShelvesAreLimited, EarlierStay};

/// The computed tests agree with the relations: of cycles below a top, of the names outside a library (there is exactly one list of
/// them), and of extents that are too large.
pub fn reaching_is_decided()
    ensures cycles { CyclesAreFound }
    ensures outside { NamesOutsideAreFound }
    ensures externals { ExternalsAreOne }
    ensures far { FarExtentsAreFound }
{}

/// Facts about a shelf and its submissions. The present submission of a cell is one of that cell, and a new submission becomes the
/// present one. The flat shapes of a submission come from it or from earlier ones. They meet the limits.
pub fn shelves_have_their_numbers()
    ensures cells { PresentAreOfTheirCell }
    ensures last { LastIsPresent }
    ensures origins { ShapesAreOfEarlier }
    ensures limits { ShelvesAreLimited }
{}

/// A submission and its flat shapes stay the same when others follow.
pub fn earlier_submissions_stay()
    ensures { EarlierStay }
{}

/// An extent has its first corner at the lower left, and is the least box that contains the box of each item. The extent of two lists
/// is the least box around both extents. The extent of a placed list is the extent, placed.
pub fn extents_are_least_boxes()
    ensures ordered { ExtentsAreOrdered }
    ensures holds { ExtentsHoldItems }
    ensures least { ExtentsAreLeast }
    ensures joined { ExtentsAreJoined }
    ensures placed { ExtentsArePlaced }
{}

/// To place a box by one placing and then by another is to place it by the composed placing, as for a shape. A shape that is neither
/// turned nor moved has the box of its element.
pub fn boxes_are_placed()
    ensures again { BoxesArePlacedAgain }
    ensures unmoved { UnmovedShapesHaveTheirBoxes }
{}

/// A name of a submission's library has the content of its structure, made from the names to which that refers, and its node has that size.
/// A name outside has the content of the top of its submission. The last node is the top's. There is a flat list for each submission.
pub fn names_show_their_targets()
    ensures own { OwnNamesAreShown }
    ensures outer { OuterNamesAreShown }
    ensures last { LastNodesAreTops }
    ensures many { (ss : List Submission) → length (flats ss) ≡ length ss }
{}

/// The same for lists of any kind: each structure adds its own entries, and each reference what it makes of its target's list.
pub fn names_list_their_targets<W>()
    ensures own { (own : ℕ → Structure → List W) (placed : Reference → List W → List W) → OwnNamesAreListed own placed }
    ensures outer { (own : ℕ → Structure → List W) (placed : Reference → List W → List W) → OuterNamesAreListed own placed }
    ensures tops { (own : ℕ → Structure → List W) (placed : Reference → List W → List W) → TopsAreListed own placed }
{}
