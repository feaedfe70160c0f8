//! The shelf of submissions: a table that copies share. A change makes a new one.

ghost use Rattle.mpw_geom.specs.Names.{by_name};
ghost use Rattle.std.specs.Prelude.{◌≡◌, ◌<◌, ◌≤◌, ◌^◌, ◌++◌, ◌↔◌, IsTrue, true, ◌∷◌, [], length, map, Err, OnOk, OnErr, IfOk, IfErr, IfSome, IfNone, Some, None, option_copied, slice_get};
ghost use Rattle.mpw_hier.specs.Shelf.{present, bound_to, IsOfBinding};
ghost use Rattle.mpw_hier.specs.Limits.{IsBound, KeepsLimits, IsRefused, IsShelf, numbered};
ghost use Rattle.mpw_structures.specs.Library.{IsLibrary};
ghost use Rattle.mpw_hier.specs.Nodes.{AreNodes, AreNodesOf};
ghost use Rattle.mpw_hier.specs.Outline.{IsOutline};
ghost use Rattle.mpw_hier.specs.Sizes.{IsSizeOf};
ghost use Rattle.mpw_hier.specs.Boxes.{is_box_near};
ghost use Rattle.mpw_hier.specs.Values.{flat, flats, count, height, heights, extent};

use crate::bindings::{Binding, Bindings};
use crate::fault::HierFault;
use crate::hierarchy::nodes_of;
use crate::node::{Node, Nodes};
use crate::outline::Outline;
use crate::size::Size;
use crate::submission::Submission;
use crate::table::Table;
use mpw_geom::{Box2, Name, Names};
use mpw_lists::are_same;
use std::alloc::{AllocError, Global};
use std::marker::Model;
use std::sync::Arc;

/// Submissions by number, counted from 0. Contracts see them as a list. The present submission of a cell is found in logarithmic time.
/// Copies share memory.
pub struct Shelf {
    /// `None` if there are no submissions.
    table: Option<Arc<Table>>,
}

impl Drop for Shelf {
    fn drop(self) {
        let Shelf { table } = self;
        drop(table);
    }
}

impl Model for Shelf {
    ghost use Rattle.std.specs.Prelude.{List, []};
    ghost use Rattle.std.specs.Option.{option_map_or};
    ghost use Rattle.mpw_hier.specs.declared.submission.Submission.{Submission};

    ghost Value = { List Submission };

    ghost view = { λ s. option_map_or (λ table. table.value) s.table [] };
}

impl Shelf {
    /// The empty shelf. Takes no memory.
    pub fn new(_alloc: Global) -> Shelf
        ensures { result ≡ [] }
    {
        Shelf { table: None }
    }

    /// A law; the function does nothing. Every submission is a library as it was read, is bound to the submissions that were present when it came, meets
    /// the limits, and has its version.
    pub fn is_shelf(&self)
        ensures { IsShelf self.now }
    {
        if let Some(table) = &self.table {
            table.is_shelf();
        }
    }

    /// The same shelf, in constant time and without more memory.
    ///
    /// # Errors
    /// If no more copies can be counted.
    pub fn copy(&self, _alloc: Global) -> Result<Shelf, AllocError>
        ensures { IfOk result (λ shelf. shelf ≡ self.now) }
    {
        match &self.table {
            Some(table) => Ok(Shelf {
                table: Some(table.clone()?),
            }),
            None => Ok(Shelf { table: None }),
        }
    }

    /// The submissions by number, counted from 0. Takes no memory.
    pub fn submissions(&self) -> &[Submission]
        ensures { result.now ≡ self.now }
    {
        match &self.table {
            Some(table) => table.submissions(),
            None => &[],
        }
    }

    /// Whether both shelves have the same submissions in the same order, by value. Cost: linear in the contents of the submissions and their
    /// libraries, up to the first difference. Takes no memory.
    pub fn is_same(&self, other: &Shelf) -> bool
        ensures { IsTrue result ↔ (self.now ≡ other.now) }
    {
        are_same(self.submissions(), other.submissions())
    }

    /// The number of the present submission of a cell, in logarithmic time. Takes no memory.
    #[tactic(auto, unfolding(crate::specs::Shelf::present))]
    pub fn present(&self, cell: &Name) -> Option<u32>
        ensures { result ≡ present self.now cell.now }
    {
        match &self.table {
            Some(table) => table.present(cell),
            None => None,
        }
    }

    /// The submission with a number. Takes no memory.
    pub fn get(&self, number: u32) -> Option<&Submission>
        ensures { option_copied result ≡ slice_get self.now number }
    {
        self.submissions().get(number as usize)
    }

    /// The cells that have a submission, in alphabetical (byte) order of their names. Cost: a sort of the
    /// submissions' cells.
    ///
    /// # Errors
    /// Out of memory.
    pub fn cells(&self, alloc: Global) -> Result<Names, AllocError>
        ensures { IfOk result (λ cells. cells ≡ by_name (map (λ s. s.cell) self.now)) }
    {
        let mut cells = cells_of(alloc, self.submissions())?;
        cells.sort()?;
        Ok(cells)
    }

    /// The nodes of the submission with a number: those of the structures that its top reaches, each after
    /// those that it places. The top is last. Takes no memory.
    pub fn nodes(&self, number: u32) -> Option<&[Node]>
        ensures some { IfSome result (λ nodes. AreNodes self.now number nodes.now) }
        ensures none { IfNone result (slice_get self.now number ≡ None) }
    {
        match &self.table {
            Some(table) => table.nodes(number),
            None => None,
        }
    }

    /// The size of the submission with a number. Takes no memory.
    fn size(&self, number: u32) -> Option<Size>
        ensures some { IfSome result (IsSizeOf (flat self.now number) (height self.now number)) }
        ensures few { IfSome result (λ size. count self.now number ≤ 2 ^ 40) }
        ensures low { IfSome result (λ size. height self.now number ≤ 64) }
        ensures none { IfNone result (slice_get self.now number ≡ None) }
    {
        match &self.table {
            Some(table) => table.size(number),
            None => None,
        }
    }

    /// The number of flat shapes of a submission, 0 to 2^40; 0 if there is no submission with that number.
    pub fn count(&self, number: u32) -> u64
        ensures count { result ≡ count self.now number }
        ensures few { result ≤ 2 ^ 40 }
    {
        match self.size(number) {
            Some(size) => size.count,
            None => 0,
        }
    }

    /// The levels of a submission, 1 to 64; 0 if there is no submission with that number.
    pub fn height(&self, number: u32) -> u32
        ensures { result ≡ height self.now number }
    {
        match self.size(number) {
            Some(size) => size.height,
            None => 0,
        }
    }

    /// The least box that contains the boxes of all flat shapes of a submission, in nm, within -2^30 to
    /// 2^30. `None` if there are no shapes.
    pub fn extent(&self, number: u32) -> Option<Box2>
        ensures extent { result ≡ extent self.now number }
        ensures near { IfSome result (λ box. is_box_near box ≡ true) }
    {
        self.size(number)?.extent
    }

    /// Binds each name to the present submission of the cell of that name.
    ///
    /// Cost: one search for each name, and memory for the bindings.
    ///
    /// # Errors
    /// `NoCell` if a cell has no submission; or out of memory.
    pub fn bind(&self, alloc: Global, names: &[Name]) -> Result<Bindings, HierFault>
        ensures ok { IfOk result (λ bindings. bound_to self.now names.now ≡ Some bindings) }
        ensures faults { IfErr result (IsOfBinding self.now names.now) }
    {
        let mut bindings = Vec::new(alloc);
        for name in names {
            let Some(submission) = self.present(name) else {
                return Err(HierFault::NoCell);
            };
            let name = name.copy()?;
            bindings.push(Binding { name, submission })?;
        }
        Ok(Bindings::from_vec(alloc, bindings)?)
    }

    /// A table of the same submissions.
    fn table(&self, alloc: Global) -> Result<Table, AllocError>
        ensures { IfOk result (λ table. table ≡ self.now) }
    {
        match &self.table {
            Some(table) => table.copy(alloc),
            None => Ok(Table::new(alloc)),
        }
    }

    /// Puts a submission on the shelf, with the next version of its cell. Returns its number. `outline` must be that of the submission's library and top, and
    /// its bindings must be those of the outline's names. The submission may have at most `most` flat shapes; `most` is at most [`crate::MAX_SHAPES`]. Copies
    /// of the shelf stay as they were.
    ///
    /// Cost: linear in the number of submissions, which share their contents, and in the library, with a search for each name. The depth of the
    /// structures doesn't matter.
    ///
    /// # Errors
    /// In this order: `Extent` if the extent of a structure that the top reaches exceeds -2^30 to 2^30 nm in its own
    /// coordinates; `Shapes` if there are more than `most` flat shapes; `Deep` above 64 levels; `Full` if there are 4096
    /// submissions, or if there are 1024 cells and this would be another. Or out of memory. After an error the shelf is
    /// as before.
    pub fn put(
        &mut self,
        alloc: Global,
        submission: Submission,
        outline: &Outline,
        most: u64,
    ) -> Result<u32, HierFault>
        requires library { IsLibrary submission.library }
        requires outline { IsOutline submission.library submission.top outline.now }
        requires bound { bound_to self.old outline.now.names ≡ Some submission.bound }
        requires most { most ≤ 2 ^ 40 }
        ensures ok { OnOk result (self.new ≡ self.old ++ numbered self.old submission ∷ []) }
        ensures number { IfOk result (λ number. number ≡ length self.old) }
        ensures kept { OnOk result (KeepsLimits most self.old submission) }
        ensures err { OnErr result (self.new ≡ self.old) }
        ensures faults { IfErr result (IsRefused most self.old submission) }
    {
        let mut table = self.table(alloc)?;
        let mut submission = submission;
        submission.version = table.next_version(&submission.cell);
        let nodes = nodes_within(alloc, &table, &submission, outline, most)?;
        let number = table.append(submission, nodes)?;
        self.table = Some(Arc::new(alloc, table)?);
        Ok(number)
    }
}

/// The cell of each submission.
fn cells_of(alloc: Global, submissions: &[Submission]) -> Result<Names, AllocError>
    ensures { IfOk result (λ cells. cells ≡ map (λ s. s.cell) submissions.now) }
{
    let mut cells = Names::new(alloc);
    for submission in submissions {
        cells.push(submission.cell.copy()?)?;
    }
    Ok(cells)
}

/// The nodes of a submission that meets the limits of a table, with at most `most` flat shapes.
///
/// # Errors
/// The same as those of [`Shelf::put`].
fn nodes_within(
    alloc: Global,
    table: &Table,
    submission: &Submission,
    outline: &Outline,
    most: u64,
) -> Result<Nodes, HierFault>
    requires library { IsLibrary submission.now.library }
    requires outline { IsOutline submission.now.library submission.now.top outline.now }
    requires bound { IsBound table.now submission.now }
    requires most { most ≤ 2 ^ 40 }
    ensures nodes { IfOk result (λ nodes. AreNodesOf (flats table.now) (heights table.now) submission.now nodes) }
    ensures kept { OnOk result (KeepsLimits most table.now submission.now) }
    ensures limited { OnOk result (KeepsLimits (2 ^ 40) table.now submission.now) }
    ensures faults { IfErr result (IsRefused most table.now submission.now) }
{
    let nodes = nodes_of(alloc, table, submission, outline)?;
    table.test_limits(submission, &nodes, most)?;
    let shared = Nodes::from_vec(alloc, nodes)?;
    Ok(shared)
}
