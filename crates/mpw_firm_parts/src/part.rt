//! Parts, and what they are parts of.
ghost use Rattle.std.specs.Prelude.{◌≡◌, ◌≤◌, ◌+◌, length};
ghost use Rattle.std.specs.List.{AllZip};
ghost use Rattle.mpw_firm_parts.specs.Parts.{IsFew, IsListOf, IsWithin};

use mpw_columns_keys::{Column, ColumnKeys};
use mpw_geom::{Box2, Name};
use std::marker::Model;

/// What is checked: a library by the SHA-256 of its text, a deck by its text, the structure by its name, the extent of what is
/// checked if there are shapes, and into how many columns it is cut, at most 2^22. Contracts see these.
pub struct Subject {
    library: [u8; 32],
    deck: Vec<u8>,
    top: Name,
    extent: Option<Box2>,
    columns: u32,
}

impl Drop for Subject {
    fn drop(self) {
        let Subject {
            library: _,
            deck,
            top,
            extent: _,
            columns: _,
        } = self;
        drop(deck);
        drop(top);
    }
}

impl Model for Subject {
    ghost use Rattle.mpw_firm_parts.specs.Parts.{Checked, IsFew};

    ghost Value = { Checked };

    ghost view = { λ s. record { library = s.library; deck = s.deck.items; top = s.top; extent = s.extent; columns = s.columns } };

    ghost invariant = { λ s. IsFew (record { library = s.library; deck = s.deck.items; top = s.top; extent = s.extent; columns = s.columns }) };
}

impl Subject {
    /// A structure of a library under a deck, with that extent in nm, which is cut into that many columns.
    pub fn new(
        library: [u8; 32],
        deck: Vec<u8>,
        top: Name,
        extent: Option<Box2>,
        columns: u32,
    ) -> Subject
        requires { columns ≤ 4194304 }
        ensures { result ≡ record { library = library; deck = deck.items; top = top; extent = extent; columns = columns } }
    {
        Subject {
            library,
            deck,
            top,
            extent,
            columns,
        }
    }

    /// The SHA-256 of the library's text.
    pub fn library(&self) -> &[u8; 32]
        ensures { result.now ≡ self.now.library }
    {
        &self.library
    }

    /// The deck's text.
    pub fn deck(&self) -> &[u8]
        ensures { result.now ≡ self.now.deck }
    {
        &self.deck
    }

    /// The name of the structure that is checked.
    pub fn top(&self) -> &Name
        ensures { result.now ≡ self.now.top }
    {
        &self.top
    }

    /// The extent of what is checked, in nm; none without shapes.
    pub fn extent(&self) -> Option<Box2>
        ensures { result ≡ self.now.extent }
    {
        self.extent
    }

    /// Into how many columns it is cut.
    pub fn columns(&self) -> u32
        ensures columns { result ≡ self.now.columns }
        ensures few { IsFew self.now }
    {
        self.columns
    }
}

/// Columns, and the keys of each.
#[derive(Drop)]
pub(crate) struct Lists {
    pub columns: Vec<Column>,
    pub lists: Vec<ColumnKeys>,
}

/// Columns that are one after another among those of a check, from the first of them on, with the keys of each. Contracts see these,
/// and what was checked.
pub struct Part {
    subject: Subject,
    first: u32,
    columns: Vec<Column>,
    lists: Vec<ColumnKeys>,
}

impl Drop for Part {
    fn drop(self) {
        let Part {
            subject,
            first: _,
            columns,
            lists,
        } = self;
        drop(subject);
        drop(columns);
        drop(lists);
    }
}

impl Model for Part {
    ghost use Rattle.mpw_firm_parts.specs.Parts.{Found, IsWithin};

    ghost Value = { Found };

    ghost view = { λ p. record { subject = p.subject; first = p.first; columns = p.columns.items; lists = p.lists.items } };

    ghost invariant = { λ p. IsWithin (record { subject = p.subject; first = p.first; columns = p.columns.items; lists = p.lists.items }) };
}

impl Part {
    /// The columns from `first` on, and the keys of each.
    pub fn new(subject: Subject, first: u32, columns: Vec<Column>, lists: Vec<ColumnKeys>) -> Part
        requires few { first + length lists.items ≤ subject.columns }
        requires lists { AllZip IsListOf columns.items lists.items }
        ensures { result ≡ record { subject = subject; first = first; columns = columns.items; lists = lists.items } }
    {
        Part {
            subject,
            first,
            columns,
            lists,
        }
    }

    /// What was checked.
    pub fn subject(&self) -> &Subject
        ensures { result.now ≡ self.now.subject }
    {
        &self.subject
    }

    /// The place of the first column among all, counted from 0.
    pub fn first(&self) -> u32
        ensures { result ≡ self.now.first }
    {
        self.first
    }

    /// The columns, from the first on.
    pub fn columns(&self) -> &[Column]
        ensures columns { result.now ≡ self.now.columns }
        ensures within { IsWithin self.now }
    {
        &self.columns
    }

    /// The keys of each column, from the first on.
    pub fn lists(&self) -> &[ColumnKeys]
        ensures lists { result.now ≡ self.now.lists }
        ensures within { IsWithin self.now }
    {
        &self.lists
    }

    /// The columns and the keys of each.
    pub(crate) fn into_lists(self) -> Lists
        ensures columns { result.columns.items ≡ self.columns }
        ensures lists { result.lists.items ≡ self.lists }
        ensures within { IsWithin self }
    {
        let Part {
            subject,
            first: _,
            columns,
            lists,
        } = self;
        drop(subject);
        Lists { columns, lists }
    }
}
