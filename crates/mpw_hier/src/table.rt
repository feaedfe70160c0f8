//! The submissions of a shelf, with their nodes and an index of the present ones. A [`crate::shelf::Shelf`] shares one table.

ghost use Rattle.std.specs.Prelude.{◌≡◌, ◌+◌, ◌<◌, ◌≤◌, ◌^◌, ◌++◌, ◌∷◌, [], length, vec_len, vec_capacity, Err, OnOk, OnErr, IfOk, IfErr, IfSome, IfNone, Some, None, slice_get};
ghost use Rattle.mpw_hier.specs.Shelf.{present, versions};
ghost use Rattle.mpw_hier.specs.Limits.{KeepsLimits, IsRefused, IsSubmitted, IsShelf, has_room_for};
ghost use Rattle.mpw_hier.specs.Nodes.{AreNodes, AreNodesOf};
ghost use Rattle.mpw_hier.specs.Internal.Building.{IsHierarchy};
ghost use Rattle.mpw_hier.specs.Internal.Indexed.{IsEntered};
ghost use Rattle.mpw_hier.specs.Sizes.{IsSizeOf};
ghost use Rattle.mpw_hier.specs.Values.{flat, flats, count, height, heights};

use crate::fault::HierFault;
use crate::node::{Node, Nodes};
use crate::size::Size;
use crate::submission::Submission;
use mpw_geom::Name;
use std::alloc::{AllocError, Global};
use std::collections::BTreeMap;
use std::marker::Model;

/// The most levels of a submission.
const MAX_HEIGHT: u32 = 64;

/// The most submissions.
const MAX_SUBMISSIONS: usize = 4096;

/// The most cells that have a submission.
const MAX_CELLS: usize = 1024;

/// Submissions by number, counted from 0. Contracts see them as a list. It also has an index of the present submissions, and the nodes
/// of each submission.
pub struct Table {
    submissions: Vec<Submission>,
    nodes: Vec<Nodes>,
    present: BTreeMap<Name, u32>,
}

impl Drop for Table {
    fn drop(self) {
        let Table {
            submissions,
            nodes,
            present,
        } = self;
        drop(submissions);
        drop(nodes);
        drop(present);
    }
}

impl Model for Table {
    ghost use Rattle.std.specs.Prelude.{List};
    ghost use Rattle.mpw_hier.specs.declared.submission.Submission.{Submission};

    ghost Value = { List Submission };

    ghost use Rattle.mpw_hier.specs.Internal.Indexed.{IsShelved};

    ghost view = { λ s. s.submissions.items };

    ghost invariant = { λ s. IsShelved s.present s.nodes.items s.submissions.items };
}

impl Table {
    /// The empty table. Takes no memory.
    #[tactic(auto, unfolding(crate::specs::Shelf::present))]
    pub fn new(alloc: Global) -> Table
        ensures { result ≡ [] }
    {
        Table {
            submissions: Vec::new(alloc),
            nodes: Vec::new(alloc),
            present: BTreeMap::new(alloc),
        }
    }

    /// A law; the function does nothing. Every submission is a library as it was read, is bound to the submissions that were present when it came, meets
    /// the limits, and has its version.
    pub fn is_shelf(&self)
        ensures { IsShelf self.now }
    {
        let _submissions = &self.submissions;
    }

    /// The same table. Cost: linear in the number of submissions, which share their contents.
    ///
    /// # Errors
    /// Out of memory.
    pub fn copy(&self, alloc: Global) -> Result<Table, AllocError>
        ensures { IfOk result (λ table. table ≡ self.now) }
    {
        let mut table = Table::new(alloc);
        for number in 0..self.submissions.len() {
            let submission = self.submissions[number].copy()?;
            let nodes = self.nodes[number].copy()?;
            table.append(submission, nodes)?;
        }
        Ok(table)
    }

    /// The submissions by number. Takes no memory.
    pub fn submissions(&self) -> &[Submission]
        ensures { result.now ≡ self.now }
    {
        self.submissions.as_slice()
    }

    /// The number of the present submission of a cell, in logarithmic time. Takes no memory.
    pub fn present(&self, cell: &Name) -> Option<u32>
        ensures { result ≡ present self.now cell.now }
    {
        self.present.get(cell).copied()
    }

    /// The nodes of the submission with a number: those of the structures that its top reaches, each after
    /// those that it places. The top is last. Takes no memory.
    pub fn nodes(&self, number: u32) -> Option<&[Node]>
        ensures some { IfSome result (λ nodes. AreNodes self.now number nodes.now) }
        ensures none { IfNone result (slice_get self.now number ≡ None) }
    {
        let nodes = self.nodes.get(number as usize)?;
        Some(nodes.as_slice())
    }

    /// The size of the submission with a number. Takes no memory.
    pub fn size(&self, number: u32) -> Option<Size>
        ensures some { IfSome result (IsSizeOf (flat self.now number) (height self.now number)) }
        ensures few { IfSome result (λ size. count self.now number ≤ 2 ^ 40) }
        ensures low { IfSome result (λ size. height self.now number ≤ 64) }
        ensures none { IfNone result (slice_get self.now number ≡ None) }
    {
        let nodes = self.nodes(number)?;
        Some(nodes[nodes.len() - 1].size)
    }

    /// The version of the next submission of a cell, counted from 1.
    pub fn next_version(&self, cell: &Name) -> u32
        ensures { result ≡ versions self.now cell.now + 1 }
    {
        match self.present(cell) {
            Some(number) => self.submissions[number as usize].version + 1,
            None => 1,
        }
    }

    /// Whether there is room for a submission of that cell: at most 4096 submissions and 1024 cells.
    fn has_room(&self, cell: &Name) -> bool
        ensures { result ≡ has_room_for self.now cell.now }
    {
        self.submissions.len() < MAX_SUBMISSIONS
            && (self.present(cell).is_some() || self.present.len() < MAX_CELLS)
    }

    /// Tests the limits of a submission with these nodes: at most `most` flat shapes, its levels, and the room
    /// for it.
    ///
    /// # Errors
    /// In this order: `Shapes` if there are more than `most`; `Deep` above 64 levels; `Full` if there are 4096
    /// submissions, or if there are 1024 cells and this would be another.
    pub fn test_limits(
        &self,
        submission: &Submission,
        nodes: &[Node],
        most: u64,
    ) -> Result<(), HierFault>
        requires nodes { IsHierarchy self.now submission.now nodes.now }
        requires most { most ≤ 2 ^ 40 }
        ensures kept { OnOk result (KeepsLimits most self.now submission.now) }
        ensures faults { IfErr result (IsRefused most self.now submission.now) }
    {
        let size = nodes[nodes.len() - 1].size;
        if size.count > most {
            return Err(HierFault::Shapes);
        }
        if size.height > MAX_HEIGHT {
            return Err(HierFault::Deep);
        }
        if !self.has_room(&submission.cell) {
            return Err(HierFault::Full);
        }
        Ok(())
    }

    /// Adds a submission with its nodes and its version.
    ///
    /// # Errors
    /// Out of memory. The table is then as it was.
    pub fn append(&mut self, submission: Submission, nodes: Nodes) -> Result<u32, AllocError>
        requires nodes { AreNodesOf (flats self.old) (heights self.old) submission nodes }
        requires submitted { IsSubmitted self.old submission }
        ensures ok { OnOk result (self.new ≡ self.old ++ submission ∷ []) }
        ensures number { IfOk result (λ number. number ≡ length self.old) }
        ensures err { OnErr result (self.new ≡ self.old) }
    {
        let number = self.submissions.len() as u32;
        enter(
            &mut self.submissions,
            &mut self.nodes,
            &mut self.present,
            &submission.cell,
            number,
        )?;
        self.submissions.push(submission).unwrap();
        self.nodes.push(nodes).unwrap();
        Ok(number)
    }
}

/// Reserves room for one more submission with its nodes, and makes its number the present one of its cell. After an
/// error the lists and the entries are as before.
fn enter(
    submissions: &mut Vec<Submission>,
    nodes: &mut Vec<Nodes>,
    present: &mut BTreeMap<Name, u32>,
    cell: &Name,
    number: u32,
) -> Result<(), AllocError>
    ensures submissions { submissions.new.items ≡ submissions.old.items }
    ensures nodes { nodes.new.items ≡ nodes.old.items }
    ensures room { OnOk result (vec_len submissions.new < vec_capacity submissions.new) }
    ensures room_beside { OnOk result (vec_len nodes.new < vec_capacity nodes.new) }
    ensures entered { OnOk result (IsEntered present.old present.new cell.now number) }
    ensures err { OnErr result (present.new.entries ≡ present.old.entries) }
{
    submissions.reserve(1)?;
    nodes.reserve(1)?;
    present.insert(cell.copy()?, number)?;
    Ok(())
}
