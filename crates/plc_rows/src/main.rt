//! Rows of text that say what the compiler is to answer, and the program that tries them.
//!
//! A row has a source, whole or as parts of a template, and what is expected of it: of the command, or of a call below
//! it. `docs/rows.md` describes the form. The rows run over the public calls, with files and a console in memory. Each
//! row that differs is told by its file and line, with what was wanted and what came, and last how many rows were read.
#![tactic(auto)]

ghost use Rattle.std.specs.Prelude.{◌≡◌, ◌<◌, if◌then◌else◌, nat_lt};
ghost use Rattle.std.specs.Process.{exit_status};

mod call;
mod case;
mod command;
mod failing;
mod heading;
mod marks;
mod phrases;
mod report;
mod row;
mod shown;

use case::{Case, Wrong, case_of};
use plc_base::OutOfMemory;
use report::Report;
use row::{Row, rows_of};
use std::alloc::Global;
use std::process::ExitCode;
use std::{env, fs};

/// Tries what a row expects, where it says that rightly.
fn try_row(alloc: Global, file: &str, row: &Row, report: &mut Report) -> Result<(), OutOfMemory> {
    report.count_row();
    match case_of(alloc, row) {
        Ok(case) => try_case(alloc, file, &case, report),
        Err(Wrong::Form { line, fault }) => report.tell_fault(alloc, file, line, fault.text()),
        Err(Wrong::OutOfMemory) => Err(OutOfMemory),
    }
}

/// Compares what comes with each thing that is expected.
fn try_case(
    alloc: Global,
    file: &str,
    case: &Case,
    report: &mut Report,
) -> Result<(), OutOfMemory> {
    let ran = case.ran(alloc)?;
    for want in &case.wants {
        let got = case.got(alloc, &ran, &want.call)?;
        report.compare(alloc, file, want.line, want.expected.as_str(), got.as_str())?;
    }
    Ok(())
}

/// Tries the rows of a file, of which there is to be one at least.
fn try_text(alloc: Global, file: &str, text: &str, report: &mut Report) -> Result<(), OutOfMemory> {
    let rows = rows_of(alloc, text)?;
    if rows.is_empty() {
        return report.tell_fault(alloc, file, 1, "there is no row");
    }
    for row in &rows {
        try_row(alloc, file, row, report)?;
    }
    Ok(())
}

/// Tries the rows of the files that are named.
fn try_files<R: std::rt::Files + Alloc<A = Global>>(
    rt: &R,
    names: &[String],
) -> Result<Report, OutOfMemory> {
    let alloc = rt.alloc();
    let mut report = Report::new(alloc);
    if names.is_empty() {
        report.tell_fault(alloc, "plc_rows", 0, "no file is named")?;
    }
    for name in names {
        match fs::read_to_string(rt, name.as_str()) {
            Ok(text) => try_text(alloc, name.as_str(), text.as_str(), &mut report)?,
            Err(_) => report.tell_fault(alloc, name.as_str(), 1, "the file can't be read")?,
        }
    }
    report.close(alloc)?;
    Ok(report)
}

/// Ends with 0 where all is as expected, else with 1.
fn end(report: &Report) -> ExitCode
    ensures { exit_status result ≡ if nat_lt 0 report.now.wrong then 1 else 0 }
{
    if 0 < report.wrong {
        ExitCode::from(1)
    } else {
        ExitCode::from(0)
    }
}

fn main(rt: HostRuntime) -> ExitCode {
    let mut names = Vec::new(rt.alloc());
    let Ok(words) = env::args(&rt) else {
        return ExitCode::from(2);
    };
    for word in words.skip(1) {
        if names.push(word).is_err() {
            return ExitCode::from(2);
        }
    }
    let Ok(report) = try_files(&rt, &names) else {
        return ExitCode::from(2);
    };
    match rt.print(report.text.as_str()) {
        Ok(()) => end(&report),
        Err(_) => ExitCode::from(2),
    }
}
