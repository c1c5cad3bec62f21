//! Answers as short texts: tokens, refusals, and what the parser of sources answers.
//!
//! A word is shown as it is kept, an integer by its number, with its type before it where it has one. A duration is
//! shown in nanoseconds, an address with its size, and a symbol by its spelling. An inclusion, a token of what is left
//! out and a bad one each have a word before them.
ghost use Rattle.std.specs.Prelude.{IfOk};
ghost use Rattle.plc_tokens.specs.Tokens.{IsClosed};

use crate::command::{Ran, decision};
use decl_parse::parse::parse_unit;
use plc_base::{Elem, Kind, OutOfMemory, Rule, Stop};
use plc_lex::{Tokens, lex};
use plc_tokens::Token;
use std::alloc::Global;

/// The symbols by their numbers.
const SYMBOLS: [&str; 23] = [
    ":=", "=>", "<>", "<=", ">=", "..", "(", ")", "[", "]", ",", ";", ":", ".", "+", "-", "*", "/",
    "&", "=", "<", ">", "#",
];

/// The most bytes of a source.
const MOST: usize = 4_194_304;

fn type_name(elem: Elem) -> &'static str {
    match elem {
        Elem::Sint => "SINT",
        Elem::Int => "INT",
        Elem::Dint => "DINT",
        Elem::Lint => "LINT",
        Elem::Usint => "USINT",
        Elem::Uint => "UINT",
        Elem::Udint => "UDINT",
        Elem::Ulint => "ULINT",
        Elem::Byte => "BYTE",
        Elem::Word => "WORD",
        Elem::Dword => "DWORD",
        Elem::Lword => "LWORD",
        Elem::Bool => "BOOL",
        Elem::Time => "TIME",
    }
}

fn rule_name(rule: Rule) -> &'static str {
    match rule {
        Rule::L1 => "L1",
        Rule::L2 => "L2",
        Rule::L3 => "L3",
        Rule::L4 => "L4",
        Rule::L5 => "L5",
        Rule::L6 => "L6",
        Rule::G1 => "G1",
        Rule::G2 => "G2",
        Rule::U1 => "U1",
        Rule::NotYet => "NotYet",
        Rule::N1 => "N1",
        Rule::N2 => "N2",
        Rule::N3 => "N3",
        Rule::N4 => "N4",
        Rule::N5 => "N5",
        Rule::N6 => "N6",
        Rule::N7 => "N7",
        Rule::N8 => "N8",
        Rule::N9 => "N9",
        Rule::N10 => "N10",
        Rule::N11 => "N11",
    }
}

fn symbol_name(number: u8) -> &'static str {
    match SYMBOLS.get(usize::from(number)) {
        Some(spelling) => spelling,
        None => "no symbol",
    }
}

/// Bytes as a text.
pub fn text_of(bytes: &[u8]) -> &str {
    match std::str::from_utf8(bytes) {
        Ok(text) => text,
        Err(_) => "no text in UTF-8",
    }
}

fn add_number(out: &mut String, value: i128, want: Option<Elem>) -> Result<(), OutOfMemory> {
    if let Some(elem) = want {
        out.push_str(type_name(elem))?;
        out.push_str("#")?;
    }
    write!(out, "{value}")?;
    Ok(())
}

fn add_address(out: &mut String, dir: u8, size: u8, numbers: &[u32]) -> Result<(), OutOfMemory> {
    let letters = [dir, size];
    out.push_str("%")?;
    out.push_str(text_of(&letters))?;
    let mut before = "";
    for number in numbers {
        write!(out, "{before}{number}")?;
        before = ".";
    }
    Ok(())
}

fn add_name(out: &mut String, before: &str, name: &[u8]) -> Result<(), OutOfMemory> {
    out.push_str(before)?;
    out.push_str(text_of(name))?;
    Ok(())
}

fn add_kind(out: &mut String, kind: &Kind) -> Result<(), OutOfMemory> {
    match kind {
        Kind::Word(name) => add_name(out, "", name.bytes())?,
        Kind::Number { value, want } => add_number(out, *value, *want)?,
        Kind::Truth(true) => out.push_str("TRUE")?,
        Kind::Truth(false) => out.push_str("FALSE")?,
        Kind::Span(nanoseconds) => write!(out, "{nanoseconds}ns")?,
        Kind::Address { dir, size, numbers } => {
            add_address(out, *dir, *size, numbers.as_slice())?;
        }
        Kind::Symbol(number) => out.push_str(symbol_name(*number))?,
        Kind::Include(name) => add_name(out, "include ", name.bytes())?,
        Kind::Left(name) => add_name(out, "left ", name.bytes())?,
        Kind::End => out.push_str("end")?,
        Kind::Bad(rule) => write!(out, "bad {}", rule_name(*rule))?,
    }
    Ok(())
}

/// The place, and the line and column of the last byte.
fn add_place(out: &mut String, token: &Token) -> Result<(), OutOfMemory> {
    let (place, last) = (token.place, token.last);
    write!(out, "@{}:{}-{}:{}", place.line, place.col, last.0, last.1)?;
    Ok(())
}

/// What the tokens are, with a space between two.
pub fn kinds(alloc: Global, tokens: &[Token]) -> Result<String, OutOfMemory> {
    let mut out = String::new(alloc);
    let mut before = "";
    for token in tokens {
        out.push_str(before)?;
        add_kind(&mut out, &token.kind)?;
        before = " ";
    }
    Ok(out)
}

/// What the tokens are and where. Before one that has a line break before it stands `^`, and behind one whose number
/// isn't its place in the list `!`.
pub fn places(alloc: Global, tokens: &[Token]) -> Result<String, OutOfMemory> {
    let mut out = String::new(alloc);
    let mut before = "";
    let mut number = 0u32;
    for token in tokens {
        out.push_str(before)?;
        out.push_str(if token.fresh { "^" } else { "" })?;
        add_kind(&mut out, &token.kind)?;
        add_place(&mut out, token)?;
        out.push_str(if token.place.token == number { "" } else { "!" })?;
        number = number.saturating_add(1);
        before = " ";
    }
    Ok(out)
}

/// The tokens of a text; one of more than 4 MiB has only a bad one.
pub fn listed(alloc: Global, text: &[u8], nested: bool) -> Result<Tokens, OutOfMemory>
    ensures { IfOk result (λ tokens. IsClosed tokens) }
{
    if MOST < text.len() {
        let bad = Tokens::of_bad(alloc, 0, Rule::L6)?;
        return Ok(bad);
    }
    let tokens = lex(alloc, text, 0, nested)?;
    Ok(tokens)
}

/// The rule and the place of a refusal.
pub fn refusal(alloc: Global, stop: Stop) -> Result<String, OutOfMemory> {
    match stop {
        Stop::Refused(refusal) => {
            let (rule, at) = (rule_name(refusal.rule), refusal.place);
            Ok(format!(in alloc; "{rule} {}:{}", at.line, at.col)?)
        }
        Stop::OutOfMemory => Err(OutOfMemory),
    }
}

/// What a run of the command answers, where it isn't this refusal.
fn unlike(alloc: Global, refusal: &str, ran: &Option<Ran>) -> Result<Option<String>, OutOfMemory> {
    let Some(ran) = ran else {
        return Ok(None);
    };
    let decision = decision(alloc, ran)?;
    if decision.as_str().strip_prefix("refused: ") == Some(refusal) {
        return Ok(None);
    }
    Ok(Some(decision))
}

/// `parses`, or `unparsed:` with the rule and the place; and what the command answers, where it refuses otherwise than
/// the parser of sources.
pub fn unit_answer(alloc: Global, source: &[u8], ran: &Option<Ran>) -> Result<String, OutOfMemory> {
    let tokens = listed(alloc, source, false)?;
    let Err(stop) = parse_unit(alloc, &tokens) else {
        return Ok(String::from_str(alloc, "parses")?);
    };
    let refusal = refusal(alloc, stop)?;
    match unlike(alloc, refusal.as_str(), ran)? {
        None => Ok(format!(in alloc; "unparsed: {refusal}")?),
        Some(decision) => Ok(format!(in alloc;
            "unparsed: {refusal}, and the command: {decision}"
        )?),
    }
}
