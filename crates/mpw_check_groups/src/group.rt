//! Finds the groups of a deck's rules.
//!
//! No contract depends on the groups: [`crate::owners_of`] finds each rule in one of them, and [`Group::part`] finds the layers of its rules.

use crate::layers::same_layer;
use mpw_deck::{Check, Rule};
use mpw_geom::Layer;
use std::alloc::{AllocError, Global};

/// Rules that are checked together.
#[derive(Drop)]
pub struct Group {
    /// Their indices in the deck, ascending.
    pub rules: Vec<usize>,
}

/// The two layers of a check. For a check of one layer both are that layer.
fn layers_of(check: Check) -> (Layer, Layer) {
    match check {
        Check::Width(layer) => (layer, layer),
        Check::Space(layer) => (layer, layer),
        Check::Separation(first, second) => (first, second),
        Check::Enclosing(outer, inner) => (outer, inner),
    }
}

/// Whether two rules share a layer.
fn do_share(a: &Rule, b: &Rule) -> bool {
    let (first, second) = layers_of(a.check);
    let (third, fourth) = layers_of(b.check);
    same_layer(first, third)
        || same_layer(first, fourth)
        || same_layer(second, third)
        || same_layer(second, fourth)
}

/// Replaces a label by another one.
fn relabel(labels: &mut Vec<usize>, old: usize, new: usize) {
    for place in 0..labels.len() {
        if labels[place] == old {
            labels[place] = new;
        }
    }
}

/// Adds a rule's label: that of the rules before with which it shares layers. These get one label.
fn add_label(labels: &mut Vec<usize>, rules: &[Rule], rule: &Rule) -> Result<(), AllocError> {
    let place = labels.len();
    labels.push(place)?;
    for (before, other) in rules.iter().enumerate() {
        if !do_share(other, rule) {
            continue;
        }
        match (labels.get(place).copied(), labels.get(before).copied()) {
            (Some(a), Some(b)) => relabel(labels, a.max(b), a.min(b)),
            _ => return Ok(()),
        }
    }
    Ok(())
}

/// A label for each rule. Rules have the same one if they share layers, directly or by a chain. Cost: quadratic in the rules. The only error is out of
/// memory.
fn labels_of(alloc: Global, rules: &[Rule]) -> Result<Vec<usize>, AllocError> {
    let mut labels = Vec::with_capacity(alloc, rules.len())?;
    for place in 0..rules.len() {
        let (before, _) = rules.split_at(place);
        add_label(&mut labels, before, &rules[place])?;
    }
    Ok(labels)
}

/// The indices at which a label is, ascending. The only error is out of memory.
fn places_with(alloc: Global, labels: &[usize], label: usize) -> Result<Vec<usize>, AllocError> {
    let mut places = Vec::new(alloc);
    for place in 0..labels.len() {
        if labels[place] == label {
            places.push(place)?;
        }
    }
    Ok(places)
}

/// The groups of rules: those that share layers, directly or by a chain, are in one group. Groups are in the order of their first rules. Cost: quadratic in
/// the rules.
///
/// # Errors
/// Out of memory.
pub fn groups_of(alloc: Global, rules: &[Rule]) -> Result<Vec<Group>, AllocError> {
    let labels = labels_of(alloc, rules)?;
    let mut groups: Vec<Group> = Vec::new(alloc);
    for label in 0..rules.len() {
        let places = places_with(alloc, labels.as_slice(), label)?;
        if !places.is_empty() {
            groups.push(Group { rules: places })?;
        }
    }
    Ok(groups)
}
