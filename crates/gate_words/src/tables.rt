//! Tables of lines: the input of a golden test has a line `== NAME` before the lines of each table.

use anyhow::{Result, bail};
use std::alloc::Global;

/// The beginning of a line that names the next table.
const HEAD: &str = "== ";

/// A table of lines.
#[derive(Drop)]
pub struct Table {
    name: String,
    lines: Vec<String>,
}

impl Table {
    /// Its name.
    pub fn name(&self) -> &str {
        self.name.as_str()
    }

    /// Its lines, without their ends.
    pub fn lines(&self) -> &[String] {
        self.lines.as_slice()
    }
}

/// Adds a line to the last table, or begins the next one.
fn add_line(alloc: Global, tables: &mut Vec<Table>, line: String) -> Result<()> {
    if let Some(name) = line.strip_prefix(HEAD) {
        tables.push(Table {
            name: String::from_str(alloc, name)?,
            lines: Vec::new(alloc),
        })?;
        return Ok(());
    }
    match tables.last_mut() {
        Some(table) => table.lines.push(line)?,
        None => bail!("the first line names no table"),
    }
    Ok(())
}

/// The tables of the standard input, in their order.
///
/// # Errors
/// If the input can't be read or its first line names no table, and out of memory.
pub fn read_tables(rt: &HostRuntime) -> Result<Vec<Table>> {
    let mut tables = Vec::new(rt.alloc());
    for line in rt.lines(rt.alloc()) {
        add_line(rt.alloc(), &mut tables, line?)?;
    }
    Ok(tables)
}
