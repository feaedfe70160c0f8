//! The content of a report.

use mpw_deck::Rule;
use mpw_geom::{Box2, Layer, Name};
use mpw_markers::Marker;

/// A fault of an element of a library.
#[derive(Clone, Copy, Drop)]
pub struct Fault<'a> {
    /// The word of its code, as `notmanhattan`.
    pub code: &'a str,
    /// The offset in the library's file at which its record begins, in bytes from 0.
    pub byte: u64,
    /// The structure of the element, if it is in one.
    pub structure: Option<&'a Name>,
    /// The position of the element, in nm and in the top's coordinates, if it is known.
    pub area: Option<Box2>,
}

/// A note in the description of a report, about what a check reads.
#[derive(Clone, Copy, Drop)]
pub enum Note<'a> {
    /// The deck has no rules.
    NoRules,
    /// The rule with that name checks nothing, since that layer has no shapes.
    Idle(&'a Name, Layer),
    /// No rule names that layer. The number is that of its shapes.
    Unnamed(Layer, usize),
    /// The library has faults, so nothing is checked.
    Unchecked,
}

/// The content of a report: the markers of a structure, and the faults of elements.
#[derive(Clone, Copy, Drop)]
pub struct Report<'a> {
    /// The name of the layout's file, if it is known.
    pub original: Option<&'a str>,
    /// The name of the structure.
    pub top: &'a Name,
    /// The rules of the deck. Each has a category.
    pub rules: &'a [Rule],
    /// The markers; or only the first of each rule, if there are `counts`. A marker whose rule isn't among the rules has no item.
    pub markers: &'a [Marker],
    /// How many markers each rule has, by its index in the deck, if `markers` has only the first of each rule; `None` if `markers` has all. A
    /// rule without a number has 0.
    pub counts: Option<&'a [usize]>,
    /// The most markers of a rule that have an item: the first ones. The others are counted in the category's description.
    pub limit: usize,
    /// The notes in the description, after the structure's name.
    pub notes: &'a [Note<'a>],
    /// The faults. If there are some, they have a category of their own.
    pub faults: &'a [Fault<'a>],
}
