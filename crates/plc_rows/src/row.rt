//! The rows of a file: headings, and the lines under each.

use plc_base::OutOfMemory;
use std::alloc::Global;

/// A heading with the lines under it.
#[derive(Drop)]
pub struct Entry {
    /// Its line in the file, from 1.
    pub line: usize,
    /// What stands behind `===` or `---`, without blanks around.
    pub heading: String,
    /// The lines under it, with a line feed between two.
    pub text: String,
    /// How many lines stand under it.
    pub lines: usize,
}

impl Entry {
    fn new(alloc: Global, line: usize, heading: &str) -> Result<Entry, OutOfMemory> {
        Ok(Entry {
            line,
            heading: String::from_str(alloc, heading.trim())?,
            text: String::new(alloc),
            lines: 0,
        })
    }

    fn add(&mut self, line: &str) -> Result<(), OutOfMemory> {
        if 0 < self.lines {
            self.text.push_str("\n")?;
        }
        self.text.push_str(line)?;
        self.lines = self.lines.saturating_add(1);
        Ok(())
    }
}

/// A row: its own heading, which `===` begins, and those that `---` begins.
#[derive(Drop)]
pub struct Row {
    pub first: Entry,
    pub others: Vec<Entry>,
}

impl Row {
    fn new(alloc: Global, line: usize, heading: &str) -> Result<Row, OutOfMemory> {
        Ok(Row {
            first: Entry::new(alloc, line, heading)?,
            others: Vec::new(alloc),
        })
    }

    /// One line more: a heading, or one under the last heading.
    fn add(&mut self, alloc: Global, number: usize, line: &str) -> Result<(), OutOfMemory> {
        if let Some(heading) = line.strip_prefix("---") {
            self.others.push(Entry::new(alloc, number, heading)?)?;
            return Ok(());
        }
        match self.others.last_mut() {
            Some(entry) => entry.add(line),
            None => self.first.add(line),
        }
    }
}

/// The rows of a text. What stands before the first of them is for its reader alone.
pub fn rows_of(alloc: Global, text: &str) -> Result<Vec<Row>, OutOfMemory> {
    let mut rows: Vec<Row> = Vec::new(alloc);
    let mut number = 0usize;
    for line in text.lines() {
        number = number.saturating_add(1);
        if let Some(heading) = line.strip_prefix("===") {
            rows.push(Row::new(alloc, number, heading)?)?;
        } else if let Some(row) = rows.last_mut() {
            row.add(alloc, number, line)?;
        }
    }
    Ok(rows)
}
