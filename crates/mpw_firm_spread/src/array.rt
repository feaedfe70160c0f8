//! Where the instances of a reference lie along an axis.

use crate::line::{Line, Reach};
use mpw_structures::Reference;

/// A node that is placed along an axis, `times` times at the same position.
#[derive(Clone, Copy)]
pub(crate) struct Instances {
    pub(crate) place: usize,
    pub(crate) line: Line,
    pub(crate) times: u64,
}

/// Columns and rows of instances along an axis: how many lie at different positions, the steps between these, and how many lie at each.
#[derive(Clone, Copy)]
pub(crate) struct Array {
    pub(crate) first: Instances,
    columns: u64,
    rows: u64,
    column_step: i64,
    row_step: i64,
}

impl Array {
    /// The instances of a reference that belongs to a placed structure.
    pub(crate) fn of(reference: &Reference, place: usize, placed: Instances) -> Array {
        let column_step = placed.line.along(reference.column_step);
        let row_step = placed.line.along(reference.row_step);
        let (mut columns, mut rows) = (u64::from(reference.columns), u64::from(reference.rows));
        let mut times = placed.times;
        if column_step == 0 {
            times = times.saturating_mul(columns);
            columns = 1;
        }
        if row_step == 0 {
            times = times.saturating_mul(rows);
            rows = 1;
        }
        Array {
            first: Instances {
                place,
                line: placed.line.of_first(reference),
                times,
            },
            columns,
            rows,
            column_step,
            row_step,
        }
    }

    /// How many positions there are.
    pub(crate) fn count(self) -> u64 {
        self.columns.saturating_mul(self.rows)
    }

    /// The instances at the position with a number.
    pub(crate) fn at(self, number: u64) -> Instances {
        let rows = self.rows.max(1);
        let column = i64::try_from(number / rows).unwrap_or(0);
        let row = i64::try_from(number % rows).unwrap_or(0);
        let by = self
            .column_step
            .wrapping_mul(column)
            .wrapping_add(self.row_step.wrapping_mul(row));
        Instances {
            line: self.first.line.displaced(by),
            ..self.first
        }
    }

    /// The interval of all instances, of which the first has this one.
    pub(crate) fn whole(self, first: Reach) -> Reach {
        let columns = i64::try_from(self.columns.saturating_sub(1)).unwrap_or(0);
        let rows = i64::try_from(self.rows.saturating_sub(1)).unwrap_or(0);
        first
            .stretched(self.column_step.wrapping_mul(columns))
            .stretched(self.row_step.wrapping_mul(rows))
    }
}
