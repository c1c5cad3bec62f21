//! The calls of the parsers that read a phrase from a token on.
ghost use Rattle.std.specs.Prelude.{◌≤◌, ◌<◌, length};
ghost use Rattle.plc_tokens.specs.Tokens.{IsClosed};

use crate::shown::refusal;
use plc_base::{OutOfMemory, Stop};
use plc_lex::Tokens;
use st_parse::parse::{parse_args, parse_expr, parse_operand, parse_path, parse_stmts};
use std::alloc::Global;

/// Which phrase is read.
#[derive(Clone, Copy)]
pub enum Sort {
    Expression,
    Statements,
    Arguments,
    Path,
    Operand,
}

/// A phrase that is read from the token of a number on.
#[derive(Clone, Copy)]
pub struct Phrase {
    pub sort: Sort,
    /// The number of its first token, from 0.
    pub from: usize,
    /// How many nodes are open around it.
    pub around: u32,
    /// Whether it stands on one line.
    pub on_line: bool,
}

fn sort_of(name: &str) -> Option<Sort> {
    match name {
        "expression" => Some(Sort::Expression),
        "statements" => Some(Sort::Statements),
        "arguments" => Some(Sort::Arguments),
        "path" => Some(Sort::Path),
        "operand" => Some(Sort::Operand),
        _ => None,
    }
}

impl Phrase {
    /// With a word of a heading: `from=2`, `around=63` or `line`.
    fn with(self, word: &str) -> Option<Phrase> {
        let mut phrase = self;
        if word == "line" {
            phrase.on_line = true;
        } else if let Some(number) = word.strip_prefix("from=") {
            phrase.from = number.parse::<usize>().ok()?;
        } else {
            phrase.around = word.strip_prefix("around=")?.parse::<u32>().ok()?;
        }
        Some(phrase)
    }
}

/// The phrase that the words of a heading name.
pub fn phrase_of(heading: &str) -> Option<Phrase> {
    let mut phrase = None;
    for word in heading.split(' ') {
        phrase = match phrase {
            None => Some(Phrase {
                sort: sort_of(word)?,
                from: 0,
                around: 0,
                on_line: false,
            }),
            Some(begun) => Some(begun.with(word)?),
        };
    }
    phrase
}

fn next_of<T: Drop>(answer: Result<(T, usize), Stop>) -> Result<usize, Stop> {
    match answer {
        Ok((_, next)) => Ok(next),
        Err(stop) => Err(stop),
    }
}

/// The number of the token behind the phrase, or why there is none.
fn read(alloc: Global, tokens: &Tokens, phrase: Phrase) -> Result<usize, Stop>
    requires closed { IsClosed tokens.now }
    requires from { phrase.from < length tokens.now }
    requires around { phrase.around ≤ 64 }
{
    let Phrase {
        sort,
        from,
        around,
        on_line,
    } = phrase;
    match sort {
        Sort::Expression => next_of(parse_expr(alloc, tokens, from, around)),
        Sort::Statements => next_of(parse_stmts(alloc, tokens, from, around)),
        Sort::Arguments => next_of(parse_args(alloc, tokens, from, around)),
        Sort::Path => next_of(parse_path(alloc, tokens, from, around, on_line)),
        Sort::Operand => next_of(parse_operand(alloc, tokens, from, around, on_line)),
    }
}

/// `next` and the number of the token behind the phrase, or the rule and the place.
pub fn shown_phrase(alloc: Global, tokens: &Tokens, phrase: Phrase) -> Result<String, OutOfMemory>
    requires { IsClosed tokens.now }
{
    if tokens.len() <= phrase.from || 64 < phrase.around {
        return Ok(String::from_str(alloc, "no such token or depth")?);
    }
    match read(alloc, tokens, phrase) {
        Ok(next) => Ok(format!(in alloc; "next {next}")?),
        Err(stop) => refusal(alloc, stop),
    }
}
