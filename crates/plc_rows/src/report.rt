//! What is told of the rows: each that differs, each that is no row, and how many were read.
ghost use Rattle.std.specs.Prelude.{◌≡◌, ◌+◌, ◌-◌, ◌^◌, min, OnOk, if◌then◌else◌};
ghost use Rattle.std.specs.Str.{bytes_eq};

use plc_base::OutOfMemory;
use std::alloc::Global;

/// What was told, how many rows were read, and how much is wrong.
#[derive(Drop)]
pub struct Report {
    pub text: String,
    pub rows: u64,
    pub wrong: u64,
}

impl Report {
    /// Nothing told yet.
    pub fn new(alloc: Global) -> Report
        ensures rows { result.rows ≡ 0 }
        ensures wrong { result.wrong ≡ 0 }
    {
        Report {
            text: String::new(alloc),
            rows: 0,
            wrong: 0,
        }
    }

    /// One row more was read.
    pub fn count_row(&mut self)
        ensures rows { self.new.rows ≡ min (self.old.rows + 1) (2 ^ 64 - 1) }
        ensures wrong { self.new.wrong ≡ self.old.wrong }
    {
        self.rows = self.rows.saturating_add(1);
    }

    /// Tells both where they differ.
    pub fn compare(
        &mut self,
        alloc: Global,
        file: &str,
        line: usize,
        wanted: &str,
        got: &str,
    ) -> Result<(), OutOfMemory>
        ensures rows { OnOk result (self.new.rows ≡ self.old.rows) }
        ensures wrong { OnOk result (self.new.wrong ≡ if bytes_eq wanted.now got.now then self.old.wrong else min (self.old.wrong + 1) (2 ^ 64 - 1)) }
    {
        if wanted == got {
            return Ok(());
        }
        self.wrong = self.wrong.saturating_add(1);
        self.tell(alloc, file, line, "wanted:", wanted)?;
        self.tell(alloc, file, line, "got:   ", got)
    }

    /// Tells what is wrong with the form of a file or a row.
    pub fn tell_fault(
        &mut self,
        alloc: Global,
        file: &str,
        line: usize,
        fault: &str,
    ) -> Result<(), OutOfMemory>
        ensures rows { OnOk result (self.new.rows ≡ self.old.rows) }
        ensures wrong { OnOk result (self.new.wrong ≡ min (self.old.wrong + 1) (2 ^ 64 - 1)) }
    {
        self.wrong = self.wrong.saturating_add(1);
        self.tell(alloc, file, line, "fault: ", fault)
    }

    /// The last line.
    pub fn close(&mut self, alloc: Global) -> Result<(), OutOfMemory>
        ensures rows { OnOk result (self.new.rows ≡ self.old.rows) }
        ensures wrong { OnOk result (self.new.wrong ≡ self.old.wrong) }
    {
        let (rows, wrong) = (self.rows, self.wrong);
        let line = if wrong == 0 {
            format!(in alloc; "{rows} rows, all as expected\n")?
        } else {
            format!(in alloc; "{rows} rows, {wrong} not as expected\n")?
        };
        self.text.push_str(line.as_str())?;
        Ok(())
    }

    /// Tells something of a line of a file.
    fn tell(
        &mut self,
        alloc: Global,
        file: &str,
        line: usize,
        what: &str,
        text: &str,
    ) -> Result<(), OutOfMemory>
        ensures rows { OnOk result (self.new.rows ≡ self.old.rows) }
        ensures wrong { OnOk result (self.new.wrong ≡ self.old.wrong) }
    {
        let told = told(alloc, file, line, what, text)?;
        self.text.push_str(told.as_str())?;
        Ok(())
    }
}

/// A line for each line of the text.
fn told(
    alloc: Global,
    file: &str,
    line: usize,
    what: &str,
    text: &str,
) -> Result<String, OutOfMemory> {
    let shown = if text.is_empty() { "nothing" } else { text };
    let mut lines = String::new(alloc);
    for part in shown.lines() {
        let told = format!(in alloc; "{file}:{line}: {what} {part}\n")?;
        lines.push_str(told.as_str())?;
    }
    Ok(lines)
}
