//! Columns that share lists, displaced; and the first markers of each rule, joined from the first keys of these lists.

ghost use Rattle.std.specs.Prelude.{◌≡◌, ◌++◌, All, IfOk, OnOk, map, option_copied, slice_get, sum_by, take};
ghost use Rattle.std.specs.List.{flat_map, range_with_len};
ghost use Rattle.mpw_columns_keys.specs.Keys.{displaced_key, of_first, HasNearEdges, IsNear};
ghost use Rattle.mpw_columns_keys.specs.Firsts.{AddsFirst, AreNear, first_in, first_placed, placed_keys, rule_placed, sides_placed};
ghost use Rattle.mpw_columns_keys.specs.Firsts.{capped, placed_count, rule_counted, sides_counted};

use crate::first::{First, Firsts};
use crate::keys::displaced_key;
use mpw_markers::{Key, Marker, Met};
use std::alloc::{AllocError, Global};

/// Which lists a column has, and by how much they are displaced across its edges, in nm.
#[derive(Clone, Copy)]
pub struct Placed {
    /// The index of its lists among those that are shared.
    pub list: usize,
    /// The displacement, in nm.
    pub by: i64,
}

/// The lists of columns of both axes, which share them.
#[derive(Clone, Copy)]
pub struct Shared<'a> {
    /// The first keys of lists.
    pub firsts: &'a [Firsts],
    /// The columns of axis `V`, in order.
    pub upright: &'a [Placed],
    /// The columns of axis `H`, in order.
    pub across: &'a [Placed],
}

/// Markers that are being joined, and how many more of the same rule are requested.
#[derive(Drop)]
struct Together {
    markers: Vec<Marker>,
    room: usize,
}

impl Together {
    /// Adds the markers of these keys, each displaced, as long as there is room. The only error is out of memory.
    fn add_keys(&mut self, alloc: Global, keys: &[Key], by: i64) -> Result<(), AllocError>
        requires edges { All HasNearEdges keys.now }
        requires by { IsNear by }
        ensures { OnOk result (AddsFirst (map (displaced_key by) keys.now) self.old self.new) }
    {
        let (first, _) = keys.split_at(self.room.min(keys.len()));
        for key in first {
            let met = Met::of(alloc, &[0])?;
            let key = displaced_key(key, by);
            self.markers.push(Marker { key, met })?;
        }
        self.room = self.room.saturating_sub(keys.len());
        Ok(())
    }
}

impl Shared<'_> {
    /// The first keys of a column's list, and how many keys it has; `None` if there is no such list.
    fn first(&self, column: &Placed, number: usize) -> Option<&First>
        ensures { option_copied result ≡ first_in (slice_get self.now.firsts.now column.now.list) number }
    {
        match self.firsts.get(column.list) {
            Some(firsts) => firsts.lists.get(number),
            None => None,
        }
    }

    /// Adds the markers of a column's list. The only error is out of memory.
    fn add_column(
        &self,
        alloc: Global,
        together: &mut Together,
        column: &Placed,
        number: usize,
    ) -> Result<(), AllocError>
        requires near { All AreNear self.now.firsts.now }
        requires by { IsNear column.now.by }
        ensures { OnOk result (AddsFirst (placed_keys self.now.firsts.now number column.now) together.old together.new) }
    {
        match self.first(column, number) {
            Some(first) => together.add_keys(alloc, first.keys.as_slice(), column.by),
            None => Ok(()),
        }
    }

    /// Adds the markers of the list with that number of each of these columns, one after another. The only error is out of memory.
    fn add_list(
        &self,
        alloc: Global,
        together: &mut Together,
        columns: &[Placed],
        number: usize,
    ) -> Result<(), AllocError>
        requires near { All AreNear self.now.firsts.now }
        requires by { All (λ p. IsNear p.by) columns.now }
        ensures { OnOk result (AddsFirst (flat_map (placed_keys self.now.firsts.now number) columns.now) together.old together.new) }
    {
        for column in columns {
            self.add_column(alloc, together, column, number)?;
        }
        Ok(())
    }

    /// Adds the markers of a rule on an axis: those of side 0, and those of side 1. The only error is out of memory.
    fn add_sides(
        &self,
        alloc: Global,
        together: &mut Together,
        columns: &[Placed],
        rule: u32,
    ) -> Result<(), AllocError>
        requires near { All AreNear self.now.firsts.now }
        requires by { All (λ p. IsNear p.by) columns.now }
        ensures { OnOk result (AddsFirst (sides_placed self.now.firsts.now rule columns.now) together.old together.new) }
    {
        let number = 2 * (rule as usize);
        self.add_list(alloc, together, columns, number)?;
        self.add_list(alloc, together, columns, number + 1)
    }

    /// Adds the first markers of a rule: those on axis `V`, and then those on axis `H`. The only error is out of memory.
    fn add_rule(&self, alloc: Global, together: &mut Together, rule: u32) -> Result<(), AllocError>
        requires near { All AreNear self.now.firsts.now }
        requires upright { All (λ p. IsNear p.by) self.now.upright.now }
        requires across { All (λ p. IsNear p.by) self.now.across.now }
        ensures { OnOk result (AddsFirst (rule_placed self.now.firsts.now self.now.upright.now self.now.across.now rule) together.old together.new) }
    {
        self.add_sides(alloc, together, self.upright, rule)?;
        self.add_sides(alloc, together, self.across, rule)
    }

    /// The first markers of each of the first `rules` rules, at most `most` of each, in the order of a book. Each touches only the first submission. Cost: one
    /// visit of each column for each rule, axis and side, and what is written.
    ///
    /// # Errors
    /// Out of memory.
    pub fn first_markers(
        &self,
        alloc: Global,
        rules: u32,
        most: usize,
    ) -> Result<Vec<Marker>, AllocError>
        requires near { All AreNear self.now.firsts.now }
        requires upright { All (λ p. IsNear p.by) self.now.upright.now }
        requires across { All (λ p. IsNear p.by) self.now.across.now }
        ensures { IfOk result (λ v. v.items ≡ map of_first (first_placed most self.now.firsts.now self.now.upright.now self.now.across.now rules)) }
    {
        let mut together = Together {
            markers: Vec::new(alloc),
            room: most,
        };
        for rule in 0..rules {
            together.room = most;
            self.add_rule(alloc, &mut together, rule)?;
        }
        let Together { markers, room: _ } = together;
        Ok(markers)
    }

    /// How many keys a column's list has.
    fn count_column(&self, column: &Placed, number: usize) -> usize
        ensures { result ≡ placed_count self.now.firsts.now number column.now }
    {
        match self.first(column, number) {
            Some(first) => first.count,
            None => 0,
        }
    }

    /// How many keys the lists with that number of these columns have, up to 2^64 - 1.
    fn count_list(&self, columns: &[Placed], number: usize) -> usize
        ensures { result ≡ capped (sum_by (placed_count self.now.firsts.now number) columns.now) }
    {
        let mut count = 0usize;
        for column in columns {
            count = count.saturating_add(self.count_column(column, number));
        }
        count
    }

    /// How many keys a rule has on an axis, up to 2^64 - 1.
    fn count_sides(&self, columns: &[Placed], rule: u32) -> usize
        ensures { result ≡ capped (sides_counted self.now.firsts.now rule columns.now) }
    {
        let number = 2 * (rule as usize);
        let first = self.count_list(columns, number);
        first.saturating_add(self.count_list(columns, number + 1))
    }

    /// How many keys a rule has, up to 2^64 - 1.
    fn count_rule(&self, rule: u32) -> usize
        ensures { result ≡ capped (rule_counted self.now.firsts.now self.now.upright.now self.now.across.now rule) }
    {
        let upright = self.count_sides(self.upright, rule);
        upright.saturating_add(self.count_sides(self.across, rule))
    }

    /// How many markers each of the first `rules` rules has, up to 2^64 - 1. Cost: one visit of each column for each rule, axis and side.
    ///
    /// # Errors
    /// Out of memory.
    pub fn counts(&self, alloc: Global, rules: u32) -> Result<Vec<usize>, AllocError>
        ensures { IfOk result (λ v. v.items
            ≡ map (λ rule. capped (rule_counted self.now.firsts.now self.now.upright.now self.now.across.now rule)) (range_with_len 0 rules)) }
    {
        let mut counts = Vec::with_capacity(alloc, rules as usize)?;
        for rule in 0..rules {
            counts.push(self.count_rule(rule))?;
        }
        Ok(counts)
    }

    /// How many markers the first `rules` rules have together, up to 2^64 - 1. The cost is that of [`Shared::counts`]; takes no memory.
    pub fn count(&self, rules: u32) -> usize
        ensures { result ≡ capped (sum_by (rule_counted self.now.firsts.now self.now.upright.now self.now.across.now) (range_with_len 0 rules)) }
    {
        let mut count = 0usize;
        for rule in 0..rules {
            count = count.saturating_add(self.count_rule(rule));
        }
        count
    }
}
