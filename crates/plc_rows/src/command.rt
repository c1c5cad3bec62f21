//! Runs of the command over files and a console in memory, and what came of them as texts.

use crate::call::Call;
use crate::failing::Failing;
use crate::shown::text_of;
use plc_base::{Name, OutOfMemory};
use plc_outside::{MemoryConsole, MemoryFiles};
use plc_top::{Status, iec2c};
use std::alloc::Global;

/// A file in memory.
#[derive(Drop)]
pub struct NamedText {
    pub name: String,
    pub bytes: Vec<u8>,
}

/// What a run left behind.
#[derive(Drop)]
pub struct Ran {
    pub status: Status,
    pub files: MemoryFiles,
    pub console: MemoryConsole,
}

/// Room for files beside those that are given.
const BESIDES: usize = 1_048_576;

/// Room for what is said and complained.
const CONSOLE: usize = 4_096;

/// The names of the files of a source of the template, each on a line.
const NAMES: &[u8] = b"POUS.h\nC.h\nPOUS.c\nR.c\nC.c\nplc_debugger.c\n";

/// Adds a file where room is left for it.
fn load(alloc: Global, files: &mut MemoryFiles, file: &NamedText) -> Result<(), OutOfMemory> {
    let name = Name::new(alloc, file.name.as_bytes())?;
    if name.bytes().len() + file.bytes.len() <= files.room() {
        files.load(&name, &file.bytes);
    }
    Ok(())
}

/// Does what the words say over a source and further files, where some calls fail.
pub fn run(
    alloc: Global,
    words: &[String],
    source: &NamedText,
    others: &[NamedText],
    failing: &Failing,
) -> Result<Ran, OutOfMemory> {
    let Failing { files, console } = failing;
    let mut room = source.bytes.len().saturating_add(BESIDES);
    for file in others {
        room = room.saturating_add(file.bytes.len());
    }
    let failing = Vec::from_slice(alloc, files.as_slice())?;
    let mut files = MemoryFiles::new(alloc, room, failing)?;
    load(alloc, &mut files, source)?;
    for file in others {
        load(alloc, &mut files, file)?;
    }
    let failing = Vec::from_slice(alloc, console.as_slice())?;
    let mut console = MemoryConsole::new(alloc, CONSOLE, failing)?;
    let status = iec2c(alloc, words, &mut files, &mut console);
    Ok(Ran {
        status,
        files,
        console,
    })
}

/// The text of a rule.
fn rule_text(rule: &str) -> &'static str {
    match rule {
        "L1" => "no token begins here",
        "L2" => "comment is not finished",
        "L3" => "bad literal",
        "L4" => "literal is out of range",
        "L5" => "word is longer than 64 bytes",
        "L6" => "file is longer than 4 MiB",
        "G1" => "not expected here",
        "G2" => "nested more than 64 deep",
        "U1" => "not in this profile",
        "NotYet" => "not built yet",
        "N1" => "name is declared twice",
        "N2" => "unknown name",
        "N3" => "name is of the wrong kind",
        "N4" => "used before its declaration",
        "N5" => "declaration goes in a circle",
        "N6" => "value is listed twice",
        "N7" => "bad bounds",
        "N8" => "bad initial value",
        "N9" => "address and type disagree",
        "N10" => "second initial step",
        "N11" => "limit is passed",
        _ => "no rule",
    }
}

/// The rule and the place of a complaint on the source a.st, where it is exactly the line of a refusal.
fn refused(alloc: Global, complained: &str) -> Result<Option<String>, OutOfMemory> {
    let Some(line) = complained.strip_prefix("a.st:") else {
        return Ok(None);
    };
    let Some((place, rest)) = line.split_once(": error ") else {
        return Ok(None);
    };
    let Some((rule, text)) = rest.split_once(": ") else {
        return Ok(None);
    };
    if text.strip_suffix("\n") != Some(rule_text(rule)) {
        return Ok(None);
    }
    Ok(Some(format!(in alloc; "refused: {rule} {place}")?))
}

/// The number of a status, and whether files were written though it isn't one behind which some stand.
fn status(alloc: Global, ran: &Ran) -> Result<String, OutOfMemory> {
    let (number, puts) = (ran.status.number(), ran.files.puts());
    if puts == 0 || matches!(ran.status, Status::Done | Status::WriteFault) {
        return Ok(format!(in alloc; "{number}")?);
    }
    Ok(format!(in alloc; "{number}, and {puts} files were written")?)
}

/// `accepted`, `refused:` with the rule and the place, or else all that came.
pub fn decision(alloc: Global, ran: &Ran) -> Result<String, OutOfMemory> {
    let (said, complained) = (ran.console.said(), ran.console.complained());
    if ran.status == Status::Done && said == NAMES && complained.is_empty() {
        return Ok(String::from_str(alloc, "accepted")?);
    }
    if ran.status == Status::Refused && said.is_empty() && ran.files.puts() == 0 {
        if let Some(refused) = refused(alloc, text_of(complained))? {
            return Ok(refused);
        }
    }
    let status = status(alloc, ran)?;
    let (said, complained) = (text_of(said), text_of(complained));
    Ok(format!(in alloc; "status {status}\nsaid\n{said}complained\n{complained}")?)
}

/// The content of a file.
fn written(alloc: Global, ran: &Ran, name: &str) -> Result<String, OutOfMemory> {
    let key = Name::new(alloc, name.as_bytes())?;
    let text = match ran.files.find(&key) {
        Some(bytes) => text_of(bytes),
        None => "no such file\n",
    };
    Ok(String::from_str(alloc, text)?)
}

/// What came of a run, for what is expected of it.
pub fn outcome(alloc: Global, ran: &Ran, call: &Call) -> Result<String, OutOfMemory> {
    match call {
        Call::Status => status(alloc, ran),
        Call::Complaint => Ok(String::from_str(alloc, text_of(ran.console.complained()))?),
        Call::Said => Ok(String::from_str(alloc, text_of(ran.console.said()))?),
        Call::Written(name) => written(alloc, ran, name.as_str()),
        _ => decision(alloc, ran),
    }
}
