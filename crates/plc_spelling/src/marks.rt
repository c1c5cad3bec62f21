// Symbols, inclusions, and the marks of what the profile leaves out.
ghost use Rattle.std.specs.Prelude.{◌≡◌, ◌+◌, ◌^◌, ◌<◌, ◌≤◌, ◌||◌, ◌&&◌, IfOk, true, bytes_eq, codes, length, map, nat_le, not, take};
ghost use Rattle.std.specs.List.{list_any, prefix_len};
ghost use Rattle.plc_spelling.specs.Marks as spec;
ghost use Rattle.plc_spelling.specs.Marks.{is_symbol, is_mark, is_inclusion, is_real};
ghost use Rattle.plc_spelling.specs.Text.{IsGreatest, is_nil, begins_with, run_of, behind_run};

use crate::text::{begins, begins_with, behind, blank_run, digit_run};
use plc_base::{Kind, Name, OutOfMemory};
use std::alloc::Global;

/// All symbols; a symbol's number is its place.
const SYMBOLS: [&[u8]; 23] = [
    b":=", b"=>", b"<>", b"<=", b">=", b"..", b"(", b")", b"[", b"]", b",", b";", b":", b".", b"+",
    b"-", b"*", b"/", b"&", b"=", b"<", b">", b"#",
];

/// A power, the quotation marks of strings, and the bracket of a pragma that is no inclusion.
const MARKS: [&[u8]; 4] = [b"**", b"'", b"\"", b"{"];

/// The word of an inclusion.
const INCLUDE: &[u8] = b"{#include";

/// What stands behind the name of the file of an inclusion.
const CLOSING: &[u8] = b"\"}";

/// Whether bytes are one of the rows of a table.
fn is_one_of(table: &[&[u8]], bytes: &[u8]) -> bool
    ensures { result ≡ list_any (λ row. bytes_eq row.now bytes.now) table.now }
{
    table.iter().any(|row| *row == bytes)
}

/// Whether these bytes are a symbol.
fn is_symbol(bytes: &[u8]) -> bool
    ensures { result ≡ spec.is_symbol bytes.now }
{
    is_one_of(&SYMBOLS, bytes)
}

/// Whether these bytes are a mark of what is left out.
pub fn is_mark(bytes: &[u8]) -> bool
    ensures { result ≡ spec.is_mark bytes.now }
{
    is_one_of(&MARKS, bytes)
}

/// Whether a text has so many bytes, and they are a symbol or a mark of what is left out.
fn has_symbol(text: &[u8], size: usize) -> bool
    ensures { result ≡ (nat_le size (length text.now)
        && (spec.is_symbol (take size text.now) || spec.is_mark (take size text.now))) }
{
    match text.get(..size) {
        Some(front) => is_symbol(front) || is_mark(front),
        None => false,
    }
}

/// How many bytes at the front are a symbol or a mark of what is left out; 0 where none is.
pub fn symbol_size(text: &[u8]) -> usize
    ensures { IsGreatest (λ bs. is_symbol bs || is_mark bs) text.now result }
{
    if has_symbol(text, 2) {
        2
    } else if has_symbol(text, 1) {
        1
    } else {
        0
    }
}

/// The place of these bytes in a table, counted from `at`.
fn place_in(mut table: &[&[u8]], mut at: u8, bytes: &[u8]) -> u8
    requires room { at + length table.now < 2 ^ 8 }
    ensures { result ≡ at + spec.place_in (map (λ r. r.now) table.entry.now) bytes.now }
{
    while let [row, rest @ ..] = table {
        if *row == bytes {
            return at;
        }
        table = rest;
        at += 1;
    }
    at
}

/// The symbol of these bytes.
pub fn symbol_kind(bytes: &[u8]) -> Kind
    ensures { result ≡ spec.symbol_kind bytes.now }
{
    Kind::Symbol(place_in(&SYMBOLS, 0, bytes))
}

/// Whether a byte can stand in the name of a file.
fn is_file_byte(b: u8) -> bool
    ensures { result ≡ spec.is_file_byte b }
{
    b.is_ascii_alphanumeric() || b == b'_' || b == b'-' || b == b'.'
}

/// How many bytes of names of files stand at the front.
fn file_run(text: &[u8]) -> usize
    ensures value { result ≡ prefix_len spec.is_file_byte text.now }
    ensures within { result ≤ length text.now }
{
    text.iter().take_while(|b| is_file_byte(**b)).count()
}

/// How many bytes at the front are the name of a file and what closes an inclusion, or 0.
fn name_size(text: &[u8]) -> usize
    ensures { IsGreatest (λ bs. not (is_nil (run_of spec.is_file_byte bs))
        && not (begins_with 46 (run_of spec.is_file_byte bs))
        && bytes_eq (codes "\"}") (behind_run spec.is_file_byte bs)) text.now result }
{
    let name = file_run(text);
    if name == 0 || begins_with(b'.', text) {
        return 0;
    }
    if behind(name, text).starts_with(CLOSING) {
        name + CLOSING.len()
    } else {
        0
    }
}

/// How many bytes at the front are an inclusion; 0 where none is.
pub fn inclusion_size(text: &[u8]) -> usize
    ensures { IsGreatest is_inclusion text.now result }
{
    if !begins(INCLUDE, text) {
        return 0;
    }
    let rest = behind(INCLUDE.len(), text);
    let blanks = blank_run(rest);
    let quoted = behind(blanks, rest);
    if blanks == 0 || !begins_with(b'"', quoted) {
        return 0;
    }
    let size = name_size(behind(1, quoted));
    if size == 0 {
        0
    } else {
        INCLUDE.len() + blanks + 1 + size
    }
}

/// The name of the file of an inclusion.
fn file_name(bytes: &[u8]) -> &[u8]
    ensures { result.now ≡ spec.file_name bytes.now }
{
    let rest = behind(INCLUDE.len(), bytes);
    let named = behind(1, behind(blank_run(rest), rest));
    &named[..file_run(named)]
}

/// The inclusion of these bytes.
pub fn inclusion_kind(alloc: Global, bytes: &[u8]) -> Result<Kind, OutOfMemory>
    ensures { IfOk result (λ kind. kind ≡ spec.inclusion_kind bytes.now) }
{
    let name = Vec::from_slice(alloc, file_name(bytes))?;
    Ok(Kind::Include(Name::from_vec(name)))
}

/// How many bytes at the front are a real; 0 where none is.
pub fn real_size(text: &[u8]) -> usize
    ensures { IsGreatest is_real text.now result }
{
    let whole = digit_run(text);
    let rest = behind(whole, text);
    if whole == 0 || !begins_with(b'.', rest) {
        return 0;
    }
    let decimals = digit_run(behind(1, rest));
    if decimals == 0 {
        0
    } else {
        whole + 1 + decimals
    }
}
