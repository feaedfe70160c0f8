//! The keys of a column, sorted by rule and side, `x1`, `x2` and `y0`.
//!
//! So the keys of a rule and a side are adjacent, and two binary searches find them.

ghost use Rattle.std.specs.Prelude.{◌≡◌, ◌↔◌, true, length, filter, map, All, Contains, IfOk, Some, None, if◌then◌else◌};
ghost use Rattle.std.specs.Ordering.{eq_by_cmp};
ghost use Rattle.std.specs.List.Sorted.{IsPermutation, IsSorted, IsNonDecreasingBy};
ghost use Rattle.mpw_markers.specs.declared.marker.Key.{Key as KeyValue};
ghost use Rattle.mpw_columns_keys.specs.Keys.{list_number, key_cmp, is_of_list, AreInOrder, are_in_order, displaced_key, IsNear, HasNearEdges};

use crate::laws::test_decides_order;
use mpw_edges::Piece;
use mpw_markers::Key;
use std::alloc::{AllocError, Global};
use std::cmp::Ordering;
use std::marker::Model;

/// The number of the key's list among those of its axis.
fn list_number(key: &Key) -> u64
    ensures { result ≡ list_number key.now }
{
    let Piece { side, .. } = key.piece;
    2 * u64::from(key.rule) + u64::from(side)
}

/// Which of two keys of one axis comes first.
fn key_order(first: &Key, second: &Key) -> Ordering
    ensures { result ≡ key_cmp first.now second.now }
{
    let lists = list_number(first).cmp(&list_number(second));
    let edges = first.piece.x1.cmp(&second.piece.x1);
    let ends = first.piece.x2.cmp(&second.piece.x2);
    let rows = ends.then(first.piece.y0.cmp(&second.piece.y0));
    lists.then(edges.then(rows))
}

/// Whether neither of two keys of one axis comes first: they have the same position.
fn is_same_place(first: &Key, second: &Key) -> bool
    ensures { result ≡ eq_by_cmp key_cmp first.now second.now }
{
    key_order(first, second).is_eq()
}

/// The keys of one axis, sorted.
fn sorted(keys: Vec<Key>) -> Vec<Key>
    ensures same { IsPermutation keys.items result.items }
    ensures sorted { IsSorted key_cmp result.items }
{
    let mut keys = keys;
    keys.sort_unstable_by(|a, b| key_order(a, b));
    keys
}

/// Whether each of the keys comes before the next one.
fn are_in_order(keys: &[Key]) -> bool
    ensures { result ≡ are_in_order keys.now }
{
    for place in 1..keys.len() {
        if !key_order(&keys[place - 1], &keys[place]).is_lt() {
            return false;
        }
    }
    true
}

/// The first of the keys at each position. The keys must be sorted.
fn each_once(keys: Vec<Key>) -> Vec<Key>
    requires { IsSorted key_cmp keys.items }
    ensures ordered { AreInOrder result.items }
    ensures from { (k : KeyValue) → Contains result.items k → Contains keys.items k }
    ensures kept { (k : KeyValue) → Contains keys.items k → (l : KeyValue) × Contains result.items l × (eq_by_cmp key_cmp k l ≡ true) }
{
    let mut keys = keys;
    keys.dedup_by(|a, b| is_same_place(a, b));
    keys.shrink_to_fit();
    keys
}

/// The key, displaced across its edges.
pub(crate) fn displaced_key(key: &Key, by: i64) -> Key
    requires edges { HasNearEdges key.now }
    requires by { IsNear by }
    ensures { result ≡ displaced_key by key.now }
{
    let mut displaced = *key;
    displaced.piece.x1 += by;
    displaced.piece.x2 += by;
    displaced
}

/// The keys, each displaced. The only error is out of memory.
fn displaced_keys(alloc: Global, keys: &[Key], by: i64) -> Result<Vec<Key>, AllocError>
    requires edges { All HasNearEdges keys.now }
    requires by { IsNear by }
    ensures { IfOk result (λ v. v.items ≡ map (displaced_key by) keys.now) }
{
    let mut displaced = Vec::with_capacity(alloc, keys.len())?;
    for key in keys {
        displaced.push(displaced_key(key, by))?;
    }
    Ok(displaced)
}

/// The keys of a column. Contracts see them as a sorted list.
pub struct ColumnKeys {
    keys: Vec<Key>,
}

impl Drop for ColumnKeys {
    fn drop(self) {
        let ColumnKeys { keys } = self;
        drop(keys);
    }
}

impl Model for ColumnKeys {
    ghost use Rattle.std.specs.Prelude.{List};
    ghost use Rattle.mpw_markers.specs.declared.marker.Key.{Key};
    ghost use Rattle.mpw_columns_keys.specs.Keys.{AreInOrder};

    ghost Value = { List Key };

    ghost view = { λ c. c.keys.items };

    ghost invariant = { λ c. AreInOrder c.keys.items };
}

impl ColumnKeys {
    /// These keys of one axis. Keys at the same position must be equal. Cost: a sort of them, in place.
    pub fn of(keys: Vec<Key>) -> ColumnKeys
        requires { (k l : KeyValue) → Contains keys.items k → Contains keys.items l → eq_by_cmp key_cmp k l ≡ true → k ≡ l }
        ensures ordered { AreInOrder result }
        ensures same { (k : KeyValue) → Contains result k ↔ Contains keys.items k }
    {
        ColumnKeys {
            keys: each_once(sorted(keys)),
        }
    }

    /// These keys of one axis, if they are in order, each before the next one; otherwise `None`. One pass.
    pub fn from_ordered(keys: Vec<Key>) -> Option<ColumnKeys>
        ensures { result ≡ (if are_in_order keys.items then Some keys.items else None) }
    {
        test_decides_order();
        if are_in_order(keys.as_slice()) {
            return Some(ColumnKeys { keys });
        }
        None
    }

    /// A law; the function does nothing. The keys are in order.
    pub fn is_in_order(&self)
        ensures { AreInOrder self.now }
    {
        let _keys = &self.keys;
    }

    /// The keys, in their order.
    pub fn as_slice(&self) -> &[Key]
        ensures { result.now ≡ self.now }
    {
        self.keys.as_slice()
    }

    /// How many keys there are.
    pub fn len(&self) -> usize
        ensures { result ≡ length self.now }
    {
        self.keys.len()
    }

    /// The keys of the list with that number. Two binary searches.
    pub fn list(&self, number: u64) -> &[Key]
        ensures { result.now ≡ filter (is_of_list number) self.now }
    {
        let keys = self.keys.as_slice();
        let before = keys.partition_point(|key| list_number(key) < number);
        let (_, behind) = keys.split_at(before);
        let count = behind.partition_point(|key| list_number(key) <= number);
        let (list, _) = behind.split_at(count);
        list
    }

    /// These keys, each displaced across its edges. Their order stays the same. Linear; the only error is out of memory.
    pub fn displaced(&self, alloc: Global, by: i64) -> Result<ColumnKeys, AllocError>
        requires edges { All HasNearEdges self.now }
        requires by { IsNear by }
        ensures { IfOk result (λ keys. keys ≡ map (displaced_key by) self.now) }
    {
        let keys = displaced_keys(alloc, self.keys.as_slice(), by)?;
        Ok(ColumnKeys { keys })
    }
}
