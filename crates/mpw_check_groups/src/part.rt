//! The part of a layout that a group of rules is checked over.

ghost use Rattle.std.specs.Prelude.{◌≡◌, length, option_copied, slice_get, All, IfOk, IfSome};
ghost use Rattle.mpw_deck.specs.Decks.{IsRule};
ghost use Rattle.mpw_check_groups.specs.Parts.{AreRulesAt, IsPartOf};

use crate::group::Group;
use crate::layers::{add_layers, layers_of_rules, stays};
use crate::shelf::shelf_on;
use mpw_deck::{Deck, MAX_RULES, Rule, Rules};
use mpw_geom::Layer;
use mpw_hier::Shelf;
use mpw_structures::Structure;
use mpw_tiles::{Snapshot, are_roots};
use mpw_walk::Root;
use std::alloc::{AllocError, Global};

/// The rule at an index.
fn rule_at(rules: &[Rule], place: usize) -> Option<&Rule>
    ensures { option_copied result ≡ slice_get rules.now place }
{
    rules.get(place)
}

/// The rules at these indices. `None` if there is no rule at one of them. The only error is out of memory.
fn rules_at(
    alloc: Global,
    rules: &[Rule],
    places: &[usize],
) -> Result<Option<Vec<Rule>>, AllocError>
    requires { All IsRule rules.now }
    ensures at { IfOk result (λ o. IfSome o (λ v. AreRulesAt rules.now places.now v.items)) }
    ensures rules { IfOk result (λ o. IfSome o (λ v. All IsRule v.items)) }
{
    let mut found = Vec::new(alloc);
    for place in places {
        match rule_at(rules, *place) {
            Some(rule) => found.push(rule.copy()?)?,
            None => return Ok(None),
        }
    }
    Ok(Some(found))
}

/// A copy of roots.
fn copied(alloc: Global, roots: &[Root]) -> Result<Vec<Root>, AllocError>
    ensures { IfOk result (λ v. v.items ≡ roots.now) }
{
    let mut copy = Vec::new(alloc);
    copy.extend_from_slice(roots)?;
    Ok(copy)
}

/// The snapshot of a shelf under rules, with the tile and the roots of another one. `None` if the roots don't fit the shelf, or if there are too many rules.
/// The only error is out of memory.
fn snapshot_with(
    alloc: Global,
    snapshot: &Snapshot,
    rules: Vec<Rule>,
    shelf: Shelf,
) -> Result<Option<Snapshot>, AllocError>
    requires { All IsRule rules.items }
    ensures { IfOk result (λ o. IfSome o (λ s. s ≡ record { deck = record { tile = snapshot.now.deck.tile; rules = rules.items }; roots = snapshot.now.roots; shelf = shelf })) }
{
    snapshot.is_snapshot();
    let roots = copied(alloc, snapshot.roots())?;
    if !are_roots(&shelf, roots.as_slice()) || rules.len() > MAX_RULES {
        return Ok(None);
    }
    let rules = Rules::from_vec(alloc, rules)?;
    let deck = Deck::new(snapshot.deck().tile(), rules);
    Ok(Some(Snapshot::new(alloc, deck, roots, shelf)?))
}

impl Group {
    /// The part of a layout that the group is checked over: the group's rules, and a shelf without the shapes on other layers. `None` if it can't be made,
    /// which only limits can cause. Cost: a copy of the elements on the group's layers and of all references, which shares the points of shapes; and
    /// what [`mpw_hier::Shelf::put`] takes.
    ///
    /// # Errors
    /// Out of memory.
    pub fn part(&self, alloc: Global, snapshot: &Snapshot) -> Result<Option<Snapshot>, AllocError>
        requires { length snapshot.now.shelf ≡ 1 }
        ensures { IfOk result (λ o. IfSome o (IsPartOf snapshot.now self.now.rules.items)) }
    {
        snapshot.is_snapshot();
        let all = snapshot.deck().rules().as_slice();
        let Some(rules) = rules_at(alloc, all, self.rules.as_slice())? else {
            return Ok(None);
        };
        let layers = layers_of_rules(alloc, rules.as_slice())?;
        let Some(shelf) = shelf_on(alloc, layers.as_slice(), snapshot.shelf())? else {
            return Ok(None);
        };
        snapshot_with(alloc, snapshot, rules, shelf)
    }
}

/// Whether each shape of these structures is on one of the layers. Cost: at most one pass over the elements.
fn are_all_on(layers: &[Layer], structures: &[Structure]) -> bool {
    for structure in structures {
        for element in structure.elements.as_slice() {
            if !stays(layers, element) {
                return false;
            }
        }
    }
    true
}

impl Group {
    /// The layers of the group's rules. The only error is out of memory.
    fn layers(&self, alloc: Global, rules: &[Rule]) -> Result<Vec<Layer>, AllocError> {
        let mut layers = Vec::new(alloc);
        for place in &self.rules {
            if let Some(rule) = rules.get(*place) {
                add_layers(&mut layers, rule.check)?;
            }
        }
        Ok(layers)
    }
}

/// Whether it pays to check a layout group by group: no group has all shapes of the library on its layers. Cost: for each group at most a pass over
/// the elements.
///
/// # Errors
/// Out of memory.
pub fn are_worthwhile(
    alloc: Global,
    snapshot: &Snapshot,
    groups: &[Group],
) -> Result<bool, AllocError> {
    let Some(submission) = snapshot.shelf().get(0) else {
        return Ok(false);
    };
    for group in groups {
        let layers = group.layers(alloc, snapshot.deck().rules().as_slice())?;
        if are_all_on(layers.as_slice(), submission.library.structures()) {
            return Ok(false);
        }
    }
    Ok(!groups.is_empty())
}
