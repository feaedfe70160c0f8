//! Sets of indexes below 512, as the bits of eight words.
ghost use Rattle.std.specs.Prelude.{◌≡◌, ℕ, ◌≤◌, ◌<◌, true, false, ◌||◌, ◌&&◌, ◌==◌, not, length, OnOk};
ghost use Rattle.mpw_roles.specs.Mask.{has, common};
ghost use Rattle.mpw_roles.specs.Places.{mask_at};

use std::alloc::AllocError;

/// The number of words.
const WORDS: usize = 8;

/// The number of possible indexes.
const PLACES: usize = 512;

/// A set of indexes below 512. One operation on a word works on 64 indexes at once.
#[derive(Clone, Copy)]
pub struct Mask {
    words: [u64; WORDS],
}

impl Mask {
    /// The empty set.
    pub fn new() -> Mask
        ensures { (place : ℕ) → has result place ≡ false }
    {
        Mask { words: [0; WORDS] }
    }

    /// Whether the index is in the set.
    pub fn contains(&self, place: usize) -> bool
        ensures { result ≡ has self.now place }
    {
        if place >= PLACES {
            return false;
        }
        (self.words[place / 64] >> (place % 64)) & 1 == 1
    }

    /// Adds an index.
    pub fn insert(&mut self, place: usize)
        requires { place < 512 }
        ensures { (other : ℕ) → has self.new other ≡ (has self.old other || other == place) }
    {
        self.words[place / 64] |= 1u64 << (place % 64);
    }

    /// Removes an index.
    pub fn remove(&mut self, place: usize)
        requires { place < 512 }
        ensures { (other : ℕ) → has self.new other ≡ (has self.old other && not (other == place)) }
    {
        self.words[place / 64] &= !(1u64 << (place % 64));
    }

    /// Adds the indexes of another set.
    pub fn add(&mut self, other: &Mask)
        ensures { (place : ℕ) → has self.new place ≡ (has self.old place || has other.now place) }
    {
        'words: for k in 0..WORDS {
            self.words[k] |= other.words[k];
        }
    }

    /// Whether some index is in both sets.
    pub fn meets(&self, other: &Mask) -> bool
        ensures some { result ≡ true → (place : ℕ) × (has self.now place ≡ true) × (has other.now place ≡ true) }
        ensures none { result ≡ false → (place : ℕ) → (has self.now place && has other.now place) ≡ false }
    {
        'words: for k in 0..WORDS {
            if self.words[k] & other.words[k] != 0 {
                return true;
            }
        }
        false
    }

    /// How many indexes are in both sets. Cost: an `and` and a count of ones for each word.
    pub fn common(&self, other: &Mask) -> usize
        ensures { result ≡ common self.now other.now }
    {
        let mut count = 0;
        'words: for k in 0..WORDS {
            count += (self.words[k] & other.words[k]).count_ones() as usize;
        }
        count
    }
}

/// Makes sure that there are more than `count` masks: adds one if there are no more.
///
/// # Errors
/// Out of memory. Then the masks are unchanged.
pub fn reserve_mask(masks: &mut Vec<Mask>, count: usize) -> Result<(), AllocError>
    requires { count ≤ length masks.old.items }
    ensures ok { OnOk result (count < length masks.new.items) }
    ensures same { (place : ℕ) → place < count → mask_at masks.new.items place ≡ mask_at masks.old.items place }
    ensures long { count ≤ length masks.new.items }
{
    if masks.len() == count {
        masks.push(Mask::new())?;
    }
    Ok(())
}

/// Adds the indexes of another mask to each mask that has an index.
pub fn join_masks(masks: &mut [Mask], place: usize, added: &Mask)
    ensures joined { (k : ℕ) → k < length masks.old → (other : ℕ) → has (mask_at masks.new k) other ≡ (has (mask_at masks.old k) other || (has (mask_at masks.old k) place && has added.now other)) }
    ensures long { length masks.new ≡ length masks.old }
{
    for k in 0..masks.len() {
        if masks[k].contains(place) {
            masks[k].add(added);
        }
    }
}
