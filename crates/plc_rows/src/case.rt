//! What a row gives and what it expects, by its headings.

use crate::call::Call;
use crate::command::{NamedText, Ran, outcome, run};
use crate::failing::{Failing, calls, left, numbers_of};
use crate::heading::{Heading, halves, heading_of};
use crate::marks::unfolded;
use crate::phrases::shown_phrase;
use crate::row::{Entry, Row};
use crate::shown::{kinds, listed, places, text_of, unit_answer};
use plc_base::OutOfMemory;
use std::alloc::{AllocError, AllocFailed, Global};

/// What is wrong with the form of a row.
#[derive(Clone, Copy)]
pub enum Fault {
    UnknownHeading,
    BadMark,
    NothingExpected,
    /// An expectation in the row's own heading has no colon.
    NoAnswer,
    /// A part of what a row gives has something behind a colon, which nobody would read.
    PartBehindColon,
    /// Lines stand under a heading that reads none.
    LinesBelow,
    /// A text stands beside a whole source, in which it has no place.
    TextBesideSource,
    /// Calls that fail are told by their numbers.
    NoNumbers,
}

impl Fault {
    pub fn text(self) -> &'static str {
        match self {
            Fault::UnknownHeading => "there is no such heading",
            Fault::BadMark => "there is no such mark",
            Fault::NothingExpected => "nothing is expected",
            Fault::NoAnswer => "what is expected stands behind a colon here",
            Fault::PartBehindColon => "what is given stands under its heading",
            Fault::LinesBelow => "no line stands under this heading",
            Fault::TextBesideSource => "a text stands beside a whole source",
            Fault::NoNumbers => "numbers of calls stand under this heading",
        }
    }
}

/// Why a row gives no case.
#[derive(Clone, Copy)]
pub enum Wrong {
    /// Its form, at a line of the file.
    Form { line: usize, fault: Fault },
    OutOfMemory,
}

impl From<OutOfMemory> for Wrong {
    fn from(_: OutOfMemory) -> Wrong {
        Wrong::OutOfMemory
    }
}

impl From<AllocError> for Wrong {
    fn from(_: AllocError) -> Wrong {
        Wrong::OutOfMemory
    }
}

impl<T: Drop> From<AllocFailed<T>> for Wrong {
    fn from(_: AllocFailed<T>) -> Wrong {
        Wrong::OutOfMemory
    }
}

/// What is expected of a call, at a line of the file.
#[derive(Drop)]
pub struct Want {
    pub line: usize,
    pub call: Call,
    pub expected: String,
}

/// What a row gives and what it expects.
#[derive(Drop)]
pub struct Case {
    text: Vec<u8>,
    declarations: Vec<u8>,
    configuration: Vec<u8>,
    /// A whole source, in place of the template.
    source: Option<Vec<u8>>,
    files: Vec<NamedText>,
    words: Vec<String>,
    failing: Failing,
    pub wants: Vec<Want>,
}

/// The variables that bodies are over where a row declares none.
const DECLARATIONS: &[u8] = b"A, K, N : INT; B, G : BOOL;";

/// A configuration that runs the program P.
const CONFIGURATION: &[u8] =
    b"CONFIGURATION C RESOURCE R ON PLC TASK T0(INTERVAL := T#20ms, PRIORITY := 0); PROGRAM I WITH T0 : P; END_RESOURCE END_CONFIGURATION";

/// The name of the source.
const SOURCE: &str = "a.st";

impl Case {
    fn new(alloc: Global) -> Result<Case, OutOfMemory> {
        let mut words = Vec::new(alloc);
        words.push(String::from_str(alloc, SOURCE)?)?;
        Ok(Case {
            text: Vec::new(alloc),
            declarations: Vec::from_slice(alloc, DECLARATIONS)?,
            configuration: Vec::from_slice(alloc, CONFIGURATION)?,
            source: None,
            files: Vec::new(alloc),
            words,
            failing: Failing::none(alloc),
            wants: Vec::new(alloc),
        })
    }

    /// Takes the row's own heading: what it expects, if anything, and its text.
    fn take_first(&mut self, alloc: Global, entry: &Entry) -> Result<(), Wrong> {
        self.text = bytes_of(alloc, entry)?;
        if entry.heading.is_empty() {
            return Ok(());
        }
        let (name, answer) = halves(entry.heading.as_str());
        let Some(Heading::Expects(call)) = heading_of(alloc, name)? else {
            return Err(at(entry, Fault::UnknownHeading));
        };
        let expected = match answer {
            Some(answer) => answered(alloc, &call, name, answer)?,
            None if matches!(call, Call::Command | Call::Unit) => String::from_str(alloc, name)?,
            None => return Err(at(entry, Fault::NoAnswer)),
        };
        self.want(entry.line, call, expected)
    }

    /// Takes one of the other headings.
    fn take(&mut self, alloc: Global, entry: &Entry) -> Result<(), Wrong> {
        let (name, answer) = halves(entry.heading.as_str());
        match heading_of(alloc, name)? {
            None => Err(at(entry, Fault::UnknownHeading)),
            Some(Heading::Expects(call)) => {
                let expected = match answer {
                    Some(answer) => answered_alone(alloc, &call, name, answer, entry)?,
                    None => expected_below(alloc, &call, name, entry)?,
                };
                self.want(entry.line, call, expected)
            }
            Some(_) if answer.is_some() => Err(at(entry, Fault::PartBehindColon)),
            Some(part) => self.give(alloc, part, entry),
        }
    }

    fn want(&mut self, line: usize, call: Call, expected: String) -> Result<(), Wrong> {
        self.wants.push(Want {
            line,
            call,
            expected,
        })?;
        Ok(())
    }

    /// Keeps a part of what a row gives.
    fn give(&mut self, alloc: Global, part: Heading, entry: &Entry) -> Result<(), Wrong> {
        let bytes = bytes_of(alloc, entry)?;
        match part {
            Heading::Text => self.text = bytes,
            Heading::Declarations => self.declarations = bytes,
            Heading::Configuration => self.configuration = bytes,
            Heading::Source => self.source = Some(bytes),
            Heading::File(name) => self.files.push(NamedText { name, bytes })?,
            Heading::Words => self.words = words_of(alloc, entry)?,
            Heading::FailingFiles => self.failing.files = numbers_in(alloc, entry)?,
            Heading::FailingConsole => self.failing.console = numbers_in(alloc, entry)?,
            Heading::Expects(_) => {}
        }
        Ok(())
    }

    /// The source of the row: the whole one, or the template with its parts.
    pub fn main_source(&self, alloc: Global) -> Result<Vec<u8>, OutOfMemory> {
        if let Some(source) = &self.source {
            return Ok(Vec::from_slice(alloc, source.as_slice())?);
        }
        let parts: [&[u8]; 7] = [
            b"PROGRAM P\nVAR ",
            self.declarations.as_slice(),
            b" END_VAR\n",
            self.text.as_slice(),
            b"\nEND_PROGRAM\n",
            self.configuration.as_slice(),
            b"\n",
        ];
        let mut source = Vec::new(alloc);
        for part in parts {
            source.extend_from_slice(part)?;
        }
        Ok(source)
    }

    /// The run of the command, where something is expected of it.
    pub fn ran(&self, alloc: Global) -> Result<Option<Ran>, OutOfMemory> {
        if !self.wants.iter().any(|want| want.call.is_of_run()) {
            return Ok(None);
        }
        Ok(Some(self.run_where(alloc, &self.failing)?))
    }

    /// The run of the command where these calls fail.
    fn run_where(&self, alloc: Global, failing: &Failing) -> Result<Ran, OutOfMemory> {
        let source = NamedText {
            name: String::from_str(alloc, SOURCE)?,
            bytes: self.main_source(alloc)?,
        };
        run(alloc, &self.words, &source, self.files.as_slice(), failing)
    }

    /// What came of the run.
    fn outcome(
        &self,
        alloc: Global,
        ran: &Option<Ran>,
        call: &Call,
    ) -> Result<String, OutOfMemory> {
        let Some(ran) = ran else {
            return Ok(String::from_str(alloc, "no run")?);
        };
        match call {
            Call::Left => left(alloc, ran, &self.run_where(alloc, &Failing::none(alloc))?),
            Call::Calls => calls(alloc, ran),
            _ => outcome(alloc, ran, call),
        }
    }

    /// What comes of a call.
    pub fn got(
        &self,
        alloc: Global,
        ran: &Option<Ran>,
        call: &Call,
    ) -> Result<String, OutOfMemory> {
        match call {
            Call::Kinds => kinds(alloc, listed(alloc, &self.text, false)?.as_slice()),
            Call::Tokens { nested } => {
                places(alloc, listed(alloc, &self.text, *nested)?.as_slice())
            }
            Call::Phrase(phrase) => {
                shown_phrase(alloc, &listed(alloc, &self.text, false)?, *phrase)
            }
            Call::Unit => unit_answer(alloc, self.main_source(alloc)?.as_slice(), ran),
            _ => self.outcome(alloc, ran, call),
        }
    }
}

fn at(entry: &Entry, fault: Fault) -> Wrong {
    Wrong::Form {
        line: entry.line,
        fault,
    }
}

/// What the text under a heading stands for.
fn bytes_of(alloc: Global, entry: &Entry) -> Result<Vec<u8>, Wrong> {
    match unfolded(alloc, entry.text.as_str())? {
        Some(bytes) => Ok(bytes),
        None => Err(at(entry, Fault::BadMark)),
    }
}

/// The words of a command line, one a line.
fn words_of(alloc: Global, entry: &Entry) -> Result<Vec<String>, OutOfMemory> {
    let mut words = Vec::new(alloc);
    if 0 < entry.lines {
        for word in entry.text.split('\n') {
            words.push(String::from_str(alloc, word)?)?;
        }
    }
    Ok(words)
}

/// The numbers of calls, on one line.
fn numbers_in(alloc: Global, entry: &Entry) -> Result<Vec<u64>, Wrong> {
    match numbers_of(alloc, entry.text.as_str())? {
        Some(numbers) => Ok(numbers),
        None => Err(at(entry, Fault::NoNumbers)),
    }
}

/// What stands behind the colon of a heading, in the form of the call's answer.
fn answered(alloc: Global, call: &Call, name: &str, answer: &str) -> Result<String, OutOfMemory> {
    if matches!(call, Call::Command | Call::Unit) {
        return Ok(format!(in alloc; "{name}: {answer}")?);
    }
    Ok(String::from_str(alloc, answer)?)
}

/// A heading that has its answer, or needs none, reads no line under it.
fn no_lines(entry: &Entry) -> Result<(), Wrong> {
    if entry.lines == 0 {
        Ok(())
    } else {
        Err(at(entry, Fault::LinesBelow))
    }
}

/// The same of a heading under which no line stands.
fn answered_alone(
    alloc: Global,
    call: &Call,
    name: &str,
    answer: &str,
    entry: &Entry,
) -> Result<String, Wrong> {
    no_lines(entry)?;
    Ok(answered(alloc, call, name, answer)?)
}

/// The lines of a text with something else between two of them.
fn joined(alloc: Global, text: &str, between: &str) -> Result<String, OutOfMemory> {
    let mut joined = String::new(alloc);
    let mut is_first = true;
    for line in text.split('\n') {
        if !is_first {
            joined.push_str(between)?;
        }
        joined.push_str(line)?;
        is_first = false;
    }
    Ok(joined)
}

/// The lines under a heading, each with its line feed.
fn lines_of(alloc: Global, entry: &Entry) -> Result<String, Wrong> {
    if entry.lines == 0 {
        return Ok(String::new(alloc));
    }
    let bytes = bytes_of(alloc, entry)?;
    let text = text_of(bytes.as_slice());
    Ok(format!(in alloc; "{text}\n")?)
}

/// What stands under a heading without a colon, in the form of the call's answer.
fn expected_below(alloc: Global, call: &Call, name: &str, entry: &Entry) -> Result<String, Wrong> {
    if call.has_lines() {
        return lines_of(alloc, entry);
    }
    if matches!(call, Call::Command | Call::Unit) {
        no_lines(entry)?;
        return Ok(String::from_str(alloc, name)?);
    }
    Ok(joined(alloc, entry.text.as_str(), " ")?)
}

/// What a row gives and expects, where its form is right.
pub fn case_of(alloc: Global, row: &Row) -> Result<Case, Wrong> {
    let mut case = Case::new(alloc)?;
    case.take_first(alloc, &row.first)?;
    for entry in &row.others {
        case.take(alloc, entry)?;
    }
    if case.wants.is_empty() {
        return Err(at(&row.first, Fault::NothingExpected));
    }
    if case.source.is_some() && !case.text.is_empty() {
        return Err(at(&row.first, Fault::TextBesideSource));
    }
    Ok(case)
}
