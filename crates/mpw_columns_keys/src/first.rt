//! The first keys of each list of a column, and how many keys each list has.

ghost use Rattle.std.specs.Prelude.{◌≡◌, ◌≤◌, take, IfOk};
ghost use Rattle.mpw_columns_keys.specs.Firsts.{AreFirsts, IsFirst};

use crate::keys::ColumnKeys;
use mpw_markers::Key;
use std::alloc::{AllocError, Global};

/// The first keys of a list, and how many keys it has.
#[derive(Drop)]
pub struct First {
    /// Its first keys, as many as requested.
    pub keys: Vec<Key>,
    /// How many keys it has.
    pub count: usize,
}

/// The first keys of the lists of a column, by the lists' numbers.
#[derive(Drop)]
pub struct Firsts {
    /// The first keys of each list.
    pub lists: Vec<First>,
}

/// The first of the keys, at most `most`. The only error is out of memory.
fn first_of(alloc: Global, keys: &[Key], most: usize) -> Result<Vec<Key>, AllocError>
    ensures { IfOk result (λ v. v.items ≡ take most keys.now) }
{
    let (first, _) = keys.split_at(most.min(keys.len()));
    let mut copy = Vec::new(alloc);
    copy.extend_from_slice(first)?;
    Ok(copy)
}

impl First {
    /// The first keys of a list. The only error is out of memory.
    fn of(alloc: Global, keys: &[Key], most: usize) -> Result<First, AllocError>
        ensures { IfOk result (IsFirst most keys.now) }
    {
        Ok(First {
            keys: first_of(alloc, keys, most)?,
            count: keys.len(),
        })
    }
}

impl Firsts {
    /// The first keys of the first `lists` lists of a column, at most `most` of each, and how many keys each has. Cost: two binary searches for each list, and
    /// the keys that are returned.
    ///
    /// # Errors
    /// Out of memory.
    pub fn of(
        alloc: Global,
        keys: &ColumnKeys,
        lists: u32,
        most: usize,
    ) -> Result<Firsts, AllocError>
        ensures { IfOk result (AreFirsts most lists keys.now) }
    {
        let mut firsts = Vec::with_capacity(alloc, lists as usize)?;
        for number in 0..lists {
            firsts.push(First::of(alloc, keys.list(u64::from(number)), most)?)?;
        }
        Ok(Firsts { lists: firsts })
    }
}
