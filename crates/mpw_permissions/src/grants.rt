//! The grants in their order, in blocks that copies share.
//!
//! A block never changes. The last block is separate from the others, which copies share as a whole. Adding a grant copies the last block.
//! If that is full, it begins another, and costs a count for each block. Removing a grant copies the block that has it, which its slots
//! distinguish from nearly all others. It costs a count for each other block, unless the grant is in the last.
ghost use Rattle.std.specs.Prelude.{◌≡◌, ◌∷◌, ◌++◌, [], length, nat_lt, IfOk, OnOk};
ghost use Rattle.std.specs.List.{list_any, flat_map};
ghost use Rattle.mpw_permissions.specs.Grant.{grant_eq, without_grant, ungranted};
ghost use Rattle.mpw_permissions.specs.Internal.Grants.{AreSlots};
ghost use Rattle.mpw_permissions.specs.Internal.Holders.{grants_after};

use crate::Grant;
use crate::block::{Block, Slots};
use mpw_geom::Name;
use mpw_lists::roomy_copy;
use std::alloc::{AllocError, Global};
use std::marker::Model;
use std::sync::Arc;

/// The greatest number of grants of a block.
const BLOCK: usize = 32;

/// Adds a block unless it is empty.
#[tactic(auto, using(crate::proofs::BlockLemmas::flat_last))]
fn keep(blocks: &mut Vec<Block>, block: Block) -> Result<(), AllocError>
    ensures { OnOk result (flat_map (λ block. block) blocks.new.items ≡ flat_map (λ block. block) blocks.old.items ++ block) }
{
    if !block.as_slice().is_empty() {
        blocks.push(block)?;
    }
    Ok(())
}

/// Grants in the order in which they were added, which copies share: blocks, and the last one after them.
pub(crate) struct Grants {
    blocks: Arc<Vec<Block>>,
    last: Block,
}

impl Drop for Grants {
    fn drop(self) {
        let Grants { blocks, last } = self;
        drop(blocks);
        drop(last);
    }
}

impl Model for Grants {
    ghost use Rattle.std.specs.Prelude.{List, ◌++◌};
    ghost use Rattle.std.specs.List.{flat_map};
    ghost use Rattle.mpw_permissions.specs.declared.permission.Grant.{Grant};

    ghost Value = { List Grant };

    ghost view = { λ grants. flat_map (λ block. block) grants.blocks.value.items ++ grants.last };
}

/// Whether there are fewer than `limit` grants in blocks and the last one.
fn is_shorter(blocks: &[Block], last: &[Grant], limit: usize) -> bool
    ensures { result ≡ nat_lt (length (flat_map (λ block. block) blocks.now ++ last.now)) limit }
{
    let mut room = limit;
    for block in blocks {
        let count = block.as_slice().len();
        if count > room {
            return false;
        }
        room -= count;
    }
    room > last.len()
}

/// Whether one of the blocks has the grant.
fn is_among(blocks: &[Block], slots: Slots, grant: &Grant) -> bool
    requires { AreSlots slots grant.now }
    ensures { result ≡ list_any (grant_eq grant.now) (flat_map (λ block. block) blocks.now) }
{
    for block in blocks {
        if block.contains(slots, grant) {
            return true;
        }
    }
    false
}

/// The same blocks, with a count for each, and another after them.
fn with_block(alloc: Global, blocks: &[Block], last: &Block) -> Result<Arc<Vec<Block>>, AllocError>
    ensures { IfOk result (λ next. next.value.items ≡ blocks.now ++ last.now ∷ []) }
{
    let mut blocks = roomy_copy(alloc, blocks)?;
    blocks.push(last.clone()?)?;
    Ok(Arc::new(alloc, blocks)?)
}

/// The blocks without a grant.
fn blocks_without(
    alloc: Global,
    blocks: &[Block],
    slots: Slots,
    grant: &Grant,
) -> Result<Vec<Block>, AllocError>
    requires { AreSlots slots grant.now }
    ensures { IfOk result (λ left. flat_map (λ block. block) left.items ≡ without_grant (flat_map (λ block. block) blocks.now) grant.now) }
{
    let mut left = Vec::with_capacity(alloc, blocks.len())?;
    for block in blocks {
        keep(&mut left, block.without(alloc, slots, grant)?)?;
    }
    Ok(left)
}

/// The blocks without the grants to a role.
fn blocks_without_grants_to(
    alloc: Global,
    blocks: &[Block],
    role: &Name,
) -> Result<Vec<Block>, AllocError>
    ensures { IfOk result (λ left. flat_map (λ block. block) left.items ≡ ungranted (flat_map (λ block. block) blocks.now) role.now) }
{
    let mut left = Vec::with_capacity(alloc, blocks.len())?;
    for block in blocks {
        keep(&mut left, block.without_grants_to(alloc, role)?)?;
    }
    Ok(left)
}

/// The blocks without a grant. If they don't have it, they stay shared.
fn shared_without(
    alloc: Global,
    blocks: &Arc<Vec<Block>>,
    slots: Slots,
    grant: &Grant,
) -> Result<Arc<Vec<Block>>, AllocError>
    requires { AreSlots slots grant.now }
    ensures { IfOk result (λ left. flat_map (λ block. block) left.value.items ≡ without_grant (flat_map (λ block. block) blocks.now.value.items) grant.now) }
{
    if !is_among(blocks, slots, grant) {
        return blocks.clone();
    }
    let left = blocks_without(alloc, blocks, slots, grant)?;
    Ok(Arc::new(alloc, left)?)
}

impl Grants {
    /// The grants of these blocks, and of the last one.
    fn of(blocks: Arc<Vec<Block>>, last: Block) -> Grants
        ensures { result ≡ flat_map (λ block. block) blocks.value.items ++ last }
    {
        Grants { blocks, last }
    }

    /// One grant.
    pub(crate) fn one(alloc: Global, grant: &Grant) -> Result<Grants, AllocError>
        ensures { IfOk result (λ grants. grants ≡ grant.now ∷ []) }
    {
        let blocks = Arc::new(alloc, Vec::new(alloc))?;
        let last = Block::one(alloc, grant)?;
        Ok(Grants::of(blocks, last))
    }

    /// Its blocks without the last, and the grants of the last.
    pub(crate) fn parts(&self) -> (&[Block], &[Grant])
        ensures { flat_map (λ block. block) result.0.now ++ result.1.now ≡ self.now }
    {
        (self.blocks.as_slice(), self.last.as_slice())
    }

    /// The same grants. Cost: two counts.
    pub(crate) fn copy(&self) -> Result<Grants, AllocError>
        ensures { IfOk result (λ grants. grants ≡ self.now) }
    {
        let blocks = self.blocks.clone()?;
        let last = self.last.clone()?;
        Ok(Grants { blocks, last })
    }

    /// Whether there are fewer than `limit` grants. Cost: one step for each block.
    pub(crate) fn is_shorter(&self, limit: usize) -> bool
        ensures { result ≡ nat_lt (length self.now) limit }
    {
        is_shorter(&self.blocks, self.last.as_slice(), limit)
    }

    /// The grants with one more. Cost: a copy of the last block, and, if that is full, a count for each other one.
    #[tactic(auto, using(crate::proofs::BlockLemmas::flat_last))]
    fn with(&self, alloc: Global, grant: &Grant) -> Result<Grants, AllocError>
        ensures { IfOk result (λ grants. grants ≡ self.now ++ grant.now ∷ []) }
    {
        if self.last.as_slice().len() < BLOCK {
            let blocks = self.blocks.clone()?;
            let last = self.last.with(alloc, grant)?;
            return Ok(Grants::of(blocks, last));
        }
        let blocks = with_block(alloc, &self.blocks, &self.last)?;
        let last = Block::one(alloc, grant)?;
        Ok(Grants::of(blocks, last))
    }

    /// The grants without one. Cost: a copy of the last block if that has it; else a copy of its block, and a count for each other one.
    #[tactic(auto, using(crate::proofs::BlockLemmas::filter_append))]
    fn without(&self, alloc: Global, grant: &Grant) -> Result<Grants, AllocError>
        ensures { IfOk result (λ grants. grants ≡ without_grant self.now grant.now) }
    {
        let slots = Slots::of(grant);
        let blocks = shared_without(alloc, &self.blocks, slots, grant)?;
        let last = self.last.without(alloc, slots, grant)?;
        Ok(Grants::of(blocks, last))
    }

    /// The grants with one more, or without one.
    pub(crate) fn after(
        &self,
        alloc: Global,
        grant: &Grant,
        more: bool,
    ) -> Result<Grants, AllocError>
        ensures { IfOk result (λ grants. grants ≡ grants_after more self.now grant.now) }
    {
        if more {
            self.with(alloc, grant)
        } else {
            self.without(alloc, grant)
        }
    }

    /// The grants without those to a role. Cost: a copy of each block.
    #[tactic(auto, using(crate::proofs::BlockLemmas::filter_append))]
    pub(crate) fn without_grants_to(&self, alloc: Global, role: &Name) -> Result<Grants, AllocError>
        ensures { IfOk result (λ grants. grants ≡ ungranted self.now role.now) }
    {
        let blocks = Arc::new(alloc, blocks_without_grants_to(alloc, &self.blocks, role)?)?;
        let last = self.last.without_grants_to(alloc, role)?;
        Ok(Grants::of(blocks, last))
    }
}
