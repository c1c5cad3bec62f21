//! What a heading says: a part of what a row gives, or something that it expects.

use crate::call::Call;
use crate::phrases::phrase_of;
use plc_base::OutOfMemory;
use std::alloc::Global;

/// What stands under a heading, or behind its colon.
#[derive(Drop)]
pub enum Heading {
    /// The text of the row: the body of its program, or what is cut into tokens.
    Text,
    Declarations,
    Configuration,
    /// A whole source.
    Source,
    /// A further file.
    File(String),
    /// The words of the command line.
    Words,
    /// The numbers of the calls on files that fail.
    FailingFiles,
    /// The numbers of the calls on the console that fail.
    FailingConsole,
    /// What a call is to answer.
    Expects(Call),
}

/// A heading's name and words, and what stands behind its colon, where there is one.
pub fn halves(heading: &str) -> (&str, Option<&str>) {
    match heading.split_once(":") {
        Some((name, expected)) => (name.trim(), Some(expected.trim())),
        None => (heading, None),
    }
}

fn owned(alloc: Global, text: &str) -> Result<String, OutOfMemory> {
    Ok(String::from_str(alloc, text)?)
}

/// A heading of two words, of which the second is the name of a file.
fn named(alloc: Global, name: &str) -> Result<Option<Heading>, OutOfMemory> {
    if let Some(file) = name.strip_prefix("file ") {
        return Ok(Some(Heading::File(owned(alloc, file.trim())?)));
    }
    if let Some(file) = name.strip_prefix("written ") {
        let file = owned(alloc, file.trim())?;
        return Ok(Some(Heading::Expects(Call::Written(file))));
    }
    Ok(phrase_of(name).map(|phrase| Heading::Expects(Call::Phrase(phrase))))
}

/// What a heading of this name says, where it is one.
pub fn heading_of(alloc: Global, name: &str) -> Result<Option<Heading>, OutOfMemory> {
    let heading = match name {
        "body" | "text" => Heading::Text,
        "declarations" => Heading::Declarations,
        "configuration" => Heading::Configuration,
        "source" => Heading::Source,
        "words" => Heading::Words,
        "failing files" => Heading::FailingFiles,
        "failing console" => Heading::FailingConsole,
        "accepted" | "refused" => Heading::Expects(Call::Command),
        "parses" | "unparsed" => Heading::Expects(Call::Unit),
        "kinds" => Heading::Expects(Call::Kinds),
        "tokens" => Heading::Expects(Call::Tokens { nested: false }),
        "nested" => Heading::Expects(Call::Tokens { nested: true }),
        "status" => Heading::Expects(Call::Status),
        "complaint" => Heading::Expects(Call::Complaint),
        "said" => Heading::Expects(Call::Said),
        "left" => Heading::Expects(Call::Left),
        "calls" => Heading::Expects(Call::Calls),
        _ => return named(alloc, name),
    };
    Ok(Some(heading))
}
