// What stands at the front of a text.
ghost use Rattle.std.specs.Prelude.{◌≡◌, ◌<◌, ◌||◌, ◌==◌, IfOk, true, false, length, slice_index};
ghost use Rattle.std.specs.Char.{is_ascii_digit};
ghost use Rattle.plc_spelling.specs.FirstBytes.{begins_word};
ghost use Rattle.plc_spelling.specs.Marks.{is_symbol};
ghost use Rattle.plc_spelling.specs.Marks as marks;
ghost use Rattle.plc_spelling.specs.Spelling.{first_kind, kind_of, size};
ghost use Rattle.plc_spelling.specs.Words.{is_word_byte};

use crate::addresses::{address_kind, address_size};
use crate::integers::{integer_kind, integer_size};
use crate::literals::{literal_kind, literal_size};
use crate::marks::{inclusion_kind, inclusion_size, is_mark, real_size, symbol_kind, symbol_size};
use crate::words::{is_word_byte, run_kind, word_run};
use plc_base::{Kind, Name, OutOfMemory, Rule};
use std::alloc::Global;

/// At a letter or an underscore: a literal with a word before it, or a word.
fn word_token(alloc: Global, text: &[u8]) -> Result<(Kind, usize), OutOfMemory>
    requires some { 0 < length text.now }
    requires first { begins_word (slice_index text.now 0) ≡ true }
    ensures { IfOk result (λ x. x ≡ (first_kind text.now, size text.now)) }
{
    let run = word_run(text);
    let literal = literal_size(text);
    if literal > run {
        Ok((literal_kind(alloc, &text[..literal])?, literal))
    } else {
        Ok((run_kind(alloc, &text[..run])?, run))
    }
}

/// At a digit: a real, or an integer.
fn digit_token(alloc: Global, text: &[u8]) -> Result<(Kind, usize), OutOfMemory>
    requires some { 0 < length text.now }
    requires first { is_ascii_digit (slice_index text.now 0) ≡ true }
    ensures { IfOk result (λ x. x ≡ (first_kind text.now, size text.now)) }
{
    let integer = integer_size(text);
    let real = real_size(text);
    if real > integer {
        Ok((Kind::Left(Name::new(alloc, &text[..real])?), real))
    } else {
        Ok((integer_kind(None, &text[..integer]), integer))
    }
}

/// At a percent sign: an address.
fn address_token(alloc: Global, text: &[u8]) -> Result<(Kind, usize), OutOfMemory>
    requires some { 0 < length text.now }
    requires first { slice_index text.now 0 ≡ 37 }
    ensures { IfOk result (λ x. x ≡ (first_kind text.now, size text.now)) }
{
    let size = address_size(text);
    Ok((address_kind(alloc, &text[..size])?, size))
}

/// The kind of a symbol, or of a mark of what is left out.
fn mark_kind(alloc: Global, bytes: &[u8]) -> Result<Kind, OutOfMemory>
    requires { (is_symbol bytes.now || marks.is_mark bytes.now) ≡ true }
    ensures { IfOk result (λ kind. kind ≡ kind_of bytes.now) }
{
    if is_mark(bytes) {
        Ok(Kind::Left(Name::new(alloc, bytes)?))
    } else {
        Ok(symbol_kind(bytes))
    }
}

/// At any other byte: an inclusion, a symbol, a mark of what is left out, or no token.
fn mark_token(alloc: Global, text: &[u8]) -> Result<(Kind, usize), OutOfMemory>
    requires some { 0 < length text.now }
    requires first { (is_word_byte (slice_index text.now 0) || (slice_index text.now 0 == 37)) ≡ false }
    ensures { IfOk result (λ x. x ≡ (first_kind text.now, size text.now)) }
{
    let mark = symbol_size(text);
    let inclusion = inclusion_size(text);
    if inclusion > mark {
        Ok((inclusion_kind(alloc, &text[..inclusion])?, inclusion))
    } else if mark > 0 {
        Ok((mark_kind(alloc, &text[..mark])?, mark))
    } else {
        Ok((Kind::Bad(Rule::L1), 0))
    }
}

/// The kind and the length of the longest spelling at the front of a text.
pub fn first_token(alloc: Global, text: &[u8]) -> Result<(Kind, usize), OutOfMemory>
    ensures { IfOk result (λ x. x ≡ (first_kind text.now, size text.now)) }
{
    if text.is_empty() {
        return Ok((Kind::End, 0));
    }
    let first = text[0];
    if first.is_ascii_digit() {
        digit_token(alloc, text)
    } else if is_word_byte(first) {
        word_token(alloc, text)
    } else if first == b'%' {
        address_token(alloc, text)
    } else {
        mark_token(alloc, text)
    }
}
