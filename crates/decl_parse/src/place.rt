//! Where a source of the whole language can go on with a token that no source has there whose productions are built,
//! and the rule of a token with which none does.
ghost use Rattle.std.specs.Prelude.{◌≡◌, map};
ghost use Rattle.std.specs.Option.{option_map};
ghost use Rattle.decl_parse.specs.Places as spec;

use crate::later::{
    BOUNDS, CONFIGURATIONS, FIRST_CHART, FIRST_INSTRUCTION, LINE_FIRST, OPERAND_FIRST,
};
use plc_base::{Kind, Rule};
use plc_tokens::Token;
use plc_tokens::reader::is_one_of;
use plc_tokens::sets::{
    COLON, CONFIGURATION, END_FUNCTION, END_FUNCTION_BLOCK, END_PROGRAM, END_VAR, FUNCTION,
    FUNCTION_BLOCK, NAME, UNIT,
};
use plc_tokens::sort::{Seen, seen_in};
use plc_tokens::token::name_of;

/// The operators of Instruction List that have an operand and are no reserved words.
const LOADS: [&[u8]; 15] = [
    b"LD", b"LDN", b"ANDN", b"ORN", b"XORN", b"ADD", b"SUB", b"MUL", b"DIV", b"GT", b"GE", b"EQ",
    b"NE", b"LE", b"LT",
];

/// Those that have a name.
const NAMING: [&[u8]; 10] = [
    b"ST", b"STN", b"S", b"R", b"JMP", b"JMPC", b"JMPCN", b"CAL", b"CALC", b"CALCN",
];

/// Those that stand alone.
const RETURNS: [&[u8]; 3] = [b"RET", b"RETC", b"RETCN"];

fn is_of(token: &Token, sorts: &[Seen]) -> bool
    ensures { result ≡ spec.is_of token.now sorts.now }
{
    is_one_of(seen_in(token, false), sorts)
}

/// The last of the tokens that is of these sorts, and those behind it.
fn last_of<'a>(sorts: &[Seen], mut tokens: &'a [Token]) -> Option<(&'a Token, &'a [Token])>
    ensures { option_map (λ x. (x.0.now, x.1.now)) result ≡ spec.last_of sorts.now tokens.entry.now }
{
    let mut found = None;
    while let [first, rest @ ..] = tokens {
        if is_of(first, sorts) {
            found = Some((first, rest));
        }
        tokens = rest;
    }
    found
}

fn in_configuration(before: &[Token]) -> bool
    ensures { result ≡ spec.in_configuration before.now }
{
    match last_of(&CONFIGURATIONS, before) {
        None => false,
        Some((word, _)) => is_of(word, &CONFIGURATION),
    }
}

/// How many tokens stand between the first word of a program organisation unit and its sections.
fn header(word: &Token) -> usize
    ensures { result ≡ spec.header word.now }
{
    if is_of(word, &FUNCTION) { 3 } else { 1 }
}

fn behind_header<'a>(word: &'a Token, tokens: &'a [Token]) -> Option<(&'a Token, &'a [Token])>
    ensures { option_map (λ x. (x.0.now, x.1.now)) result ≡ spec.behind_header word.now tokens.now }
{
    let header = header(word);
    if tokens.len() < header {
        return None;
    }
    Some((word, &tokens[header..]))
}

/// Where a body stands or can begin behind these tokens, the first word of its unit, and what stands of the body.
fn body_behind<'a>(before: &'a [Token]) -> Option<(&'a Token, &'a [Token])>
    ensures { option_map (λ x. (x.0.now, x.1.now)) result ≡ spec.body_behind before.now }
{
    if in_configuration(before) {
        return None;
    }
    let (bound, behind) = last_of(&BOUNDS, before)?;
    if is_of(bound, &END_VAR) {
        let (word, _) = last_of(&UNIT, before)?;
        return Some((word, behind));
    }
    if is_of(bound, &UNIT) {
        return behind_header(bound, behind);
    }
    None
}

fn is_among(mut words: &[&[u8]], word: &[u8]) -> bool
    ensures { result ≡ spec.is_among (map (λ w. w.now) words.entry.now) word.now }
{
    while let [first, rest @ ..] = words {
        if *first == word {
            return true;
        }
        words = rest;
    }
    false
}

/// The word that ends a program organisation unit.
fn end_of(word: &Token) -> &'static [Seen]
    ensures { result.now ≡ spec.end_of word.now }
{
    if is_of(word, &FUNCTION) {
        return &END_FUNCTION;
    }
    if is_of(word, &FUNCTION_BLOCK) {
        return &END_FUNCTION_BLOCK;
    }
    &END_PROGRAM
}

/// Whether an instruction list of a unit that begins with a word goes on with a token.
fn goes_on_list(unit: &Token, word: &[u8], token: &Token) -> bool
    ensures { result ≡ spec.goes_on_list unit.now word.now token.now }
{
    if is_among(&LOADS, word) {
        return !token.fresh && is_of(token, &OPERAND_FIRST);
    }
    if is_among(&NAMING, word) {
        return !token.fresh && is_of(token, &NAME);
    }
    if is_among(&RETURNS, word) {
        return (token.fresh && is_of(token, &LINE_FIRST)) || is_of(token, end_of(unit));
    }
    is_of(token, &COLON)
}

fn begins_later(unit: &Token, token: &Token) -> bool
    ensures { result ≡ spec.begins_later unit.now token.now }
{
    is_of(token, &FIRST_INSTRUCTION) || (!is_of(unit, &FUNCTION) && is_of(token, &FIRST_CHART))
}

/// Whether a body that is an instruction list or a chart goes on with a token.
fn goes_on_later(unit: &Token, body: &[Token], token: &Token) -> bool
    ensures { result ≡ spec.goes_on_later unit.now body.now token.now }
{
    match body {
        [] => begins_later(unit, token),
        [first] => is_of(first, &NAME) && goes_on_list(unit, name_of(&first.kind), token),
        _ => false,
    }
}

fn address_rule(before: &[Token]) -> Rule
    ensures { result ≡ spec.address_rule before.now }
{
    match body_behind(before) {
        None => Rule::G1,
        Some(_) => Rule::U1,
    }
}

fn rule_by_place(before: &[Token], token: &Token) -> Rule
    ensures { result ≡ spec.rule_by_place before.now token.now }
{
    match body_behind(before) {
        None => Rule::G1,
        Some((unit, body)) => {
            if goes_on_later(unit, body, token) {
                Rule::NotYet
            } else {
                Rule::G1
            }
        }
    }
}

/// The rule that a token breaks behind some others with which no source goes on whose productions are built.
pub fn rule_behind(before: &[Token], token: &Token) -> Rule
    ensures { result ≡ spec.rule_behind before.now token.now token.now.kind }
{
    match &token.kind {
        Kind::Bad(rule) => *rule,
        Kind::Left(_) => Rule::U1,
        Kind::Include(_) => Rule::NotYet,
        Kind::Address { .. } => address_rule(before),
        _ => rule_by_place(before, token),
    }
}
