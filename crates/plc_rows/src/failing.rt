//! Calls on files and on the console that fail, and what is left and counted behind them.

use crate::command::Ran;
use crate::shown::text_of;
use plc_base::{Name, OutOfMemory};
use std::alloc::Global;

/// The numbers of the calls that fail, from 1; those on files and those on the console are counted apart.
#[derive(Drop)]
pub struct Failing {
    pub files: Vec<u64>,
    pub console: Vec<u64>,
}

impl Failing {
    /// No call fails.
    pub fn none(alloc: Global) -> Failing {
        Failing {
            files: Vec::new(alloc),
            console: Vec::new(alloc),
        }
    }
}

/// The source of a row, and the files that a compile of the template writes.
const NAMES: [&str; 7] = [
    "a.st",
    "POUS.h",
    "C.h",
    "POUS.c",
    "R.c",
    "C.c",
    "plc_debugger.c",
];

/// The numbers of a line with a space between two, where each word of it is one.
pub fn numbers_of(alloc: Global, line: &str) -> Result<Option<Vec<u64>>, OutOfMemory> {
    let mut numbers = Vec::new(alloc);
    for word in line.split(' ') {
        let Ok(number) = word.parse::<u32>() else {
            return Ok(None);
        };
        numbers.push(u64::from(number))?;
    }
    Ok(Some(numbers))
}

/// The names of the files that stand as behind the whole run, where no call failed. One that differs is told, and by
/// the room that is left, that there are others.
pub fn left(alloc: Global, ran: &Ran, whole: &Ran) -> Result<String, OutOfMemory> {
    let mut out = String::new(alloc);
    let mut before = "";
    let mut room = whole.files.room();
    for name in NAMES {
        let key = Name::new(alloc, name.as_bytes())?;
        let Some(wanted) = whole.files.find(&key) else {
            continue;
        };
        let Some(found) = ran.files.find(&key) else {
            room = room.saturating_add(name.len()).saturating_add(wanted.len());
            continue;
        };
        let differs = if found == wanted { "" } else { " not whole" };
        write!(out, "{before}{name}{differs}")?;
        before = " ";
    }
    if ran.files.room() != room {
        out.push_str(" and others")?;
    }
    Ok(out)
}

/// What was asked for, how much was put and said, and how many calls of each kind failed, each on a line.
pub fn calls(alloc: Global, ran: &Ran) -> Result<String, OutOfMemory> {
    let (files, console) = (&ran.files, &ran.console);
    let mut out = String::new(alloc);
    for name in files.asked() {
        let name = text_of(name.bytes());
        write!(out, "asked for {name}\n")?;
    }
    let (puts, bytes, said) = (files.puts(), files.handed(), console.handed());
    write!(out, "puts {puts}, handed {bytes}\nsaid {said}\n")?;
    let (fetches, puts) = (files.fetch_faults(), files.put_faults());
    let (says, complaints) = (console.say_faults(), console.complain_faults());
    write!(
        out,
        "failed {fetches} fetches, {puts} puts, {says} says, {complaints} complaints\n"
    )?;
    Ok(out)
}
