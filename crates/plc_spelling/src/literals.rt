// Literals with a word and `#` before them.
ghost use Rattle.std.specs.Prelude.{◌≡◌, [], IfOk, map};
ghost use Rattle.std.specs.Str.{str_eq_ignore_ascii_case};
ghost use Rattle.plc_spelling.specs.Literals as spec;
ghost use Rattle.plc_spelling.specs.Literals.{row};
ghost use Rattle.plc_spelling.specs.Text.{IsGreatest};

use crate::durations::{duration_kind, duration_size};
use crate::integers::{integer_kind, integer_size, negative_kind, number_size};
use crate::text::{begins, begins_with, behind, is_same};
use crate::words::{capitals, is_left, word_run};
use plc_base::{Elem, Kind, Name, OutOfMemory, Rule};
use std::alloc::Global;

/// What a word before `#` says of what stands behind it.
#[derive(Clone, Copy, Debug, PartialEq, Eq)]
pub enum Owner {
    /// An integer of this integer type, which may be below 0.
    Integer(Elem),
    /// An integer of this type of bit strings.
    Bits(Elem),
    /// A truth value.
    Boolean,
    /// A duration.
    Time,
    /// A literal of a type that the profile leaves out.
    LeftOut,
}

/// Words, and what each says of what stands behind `#`.
const OWNERS: [(&[u8], Owner); 16] = [
    (b"SINT", Owner::Integer(Elem::Sint)),
    (b"INT", Owner::Integer(Elem::Int)),
    (b"DINT", Owner::Integer(Elem::Dint)),
    (b"LINT", Owner::Integer(Elem::Lint)),
    (b"USINT", Owner::Integer(Elem::Usint)),
    (b"UINT", Owner::Integer(Elem::Uint)),
    (b"UDINT", Owner::Integer(Elem::Udint)),
    (b"ULINT", Owner::Integer(Elem::Ulint)),
    (b"BYTE", Owner::Bits(Elem::Byte)),
    (b"WORD", Owner::Bits(Elem::Word)),
    (b"DWORD", Owner::Bits(Elem::Dword)),
    (b"LWORD", Owner::Bits(Elem::Lword)),
    (b"BOOL", Owner::Boolean),
    (b"T", Owner::Time),
    (b"TIME", Owner::Time),
    (b"D", Owner::LeftOut),
];

/// What a word says by the rows of a table, or as one of what is left out.
fn owner_in(table: &[(&[u8], Owner)], word: &[u8]) -> Option<Owner>
    ensures { result ≡ spec.owner_in (map (λ r. row r.0.now r.1) table.now) word.now }
{
    for (name, owner) in table {
        if is_same(name, word) {
            return Some(*owner);
        }
    }
    if is_left(word) {
        Some(Owner::LeftOut)
    } else {
        None
    }
}

/// What a word before `#` says.
fn owner_of_word(word: &[u8]) -> Option<Owner>
    ensures { result ≡ spec.owner word.now }
{
    owner_in(&OWNERS, word)
}

/// How many bytes the same word has at the front of a text; 0 where another stands there.
fn word_size(word: &[u8], text: &[u8]) -> usize
    ensures { IsGreatest (str_eq_ignore_ascii_case word.now) text.now result }
{
    if begins(word, text) { word.len() } else { 0 }
}

/// How many bytes at the front are a truth value behind `BOOL#`.
fn truth_size(text: &[u8]) -> usize
    ensures { IsGreatest spec.is_truth text.now result }
{
    let truth = word_size(b"TRUE", text).max(word_size(b"1", text));
    let falsity = word_size(b"FALSE", text).max(word_size(b"0", text));
    truth.max(falsity)
}

/// How many bytes at the front are a minus and decimal digits.
fn negative_size(text: &[u8]) -> usize
    ensures { IsGreatest spec.is_negative text.now result }
{
    if !begins_with(b'-', text) {
        return 0;
    }
    let digits = number_size(10, behind(1, text));
    if digits == 0 { 0 } else { digits + 1 }
}

/// How many bytes at the front may stand behind the `#` of an owner.
fn follow_size(owner: Owner, text: &[u8]) -> usize
    ensures { IsGreatest (spec.may_follow owner) text.now result }
{
    match owner {
        Owner::Integer(_) => integer_size(text).max(negative_size(text)),
        Owner::Bits(_) => integer_size(text),
        Owner::Boolean => truth_size(text),
        Owner::Time => duration_size(text),
        Owner::LeftOut => 0,
    }
}

/// How many bytes at the front are a literal with a word and `#` before it.
pub fn literal_size(text: &[u8]) -> usize
    ensures { IsGreatest spec.is_literal text.now result }
{
    let word = word_run(text);
    if !begins_with(b'#', behind(word, text)) {
        return 0;
    }
    match owner_of_word(&text[..word]) {
        Some(owner) => word + 1 + follow_size(owner, behind(word + 1, text)),
        None => 0,
    }
}

/// What stands behind `BOOL#` spells.
fn truth_kind(bytes: &[u8]) -> Kind
    ensures { result ≡ spec.truth_kind bytes.now }
{
    if bytes.is_empty() {
        Kind::Bad(Rule::L3)
    } else {
        Kind::Truth(is_same(b"TRUE", bytes) || is_same(b"1", bytes))
    }
}

/// What a literal of an integer type spells behind its `#`.
fn typed_kind(elem: Elem, bytes: &[u8]) -> Kind
    ensures { result ≡ spec.owned_kind (Owner.Integer elem) [] bytes.now }
{
    if begins_with(b'-', bytes) {
        negative_kind(Some(elem), behind(1, bytes))
    } else {
        integer_kind(Some(elem), bytes)
    }
}

/// What a literal spells, from all its bytes and from those behind the `#`.
fn owned_kind(alloc: Global, owner: Owner, all: &[u8], bytes: &[u8]) -> Result<Kind, OutOfMemory>
    ensures { IfOk result (λ kind. kind ≡ spec.owned_kind owner all.now bytes.now) }
{
    Ok(match owner {
        Owner::Integer(elem) => typed_kind(elem, bytes),
        Owner::Bits(elem) => integer_kind(Some(elem), bytes),
        Owner::Boolean => truth_kind(bytes),
        Owner::Time => duration_kind(bytes),
        Owner::LeftOut => Kind::Left(Name::from_vec(capitals(alloc, all)?)),
    })
}

/// What a literal spells.
pub fn literal_kind(alloc: Global, bytes: &[u8]) -> Result<Kind, OutOfMemory>
    ensures { IfOk result (λ kind. kind ≡ spec.literal_kind bytes.now) }
{
    let word = word_run(bytes);
    match owner_of_word(&bytes[..word]) {
        Some(owner) => owned_kind(alloc, owner, bytes, behind(word + 1, bytes)),
        None => Ok(Kind::Bad(Rule::L3)),
    }
}
