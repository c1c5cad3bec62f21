// Addresses: `%`, a direction, the letter of a size or none, and numbers with points between.
ghost use Rattle.std.specs.Prelude.{◌≡◌, ◌||◌, IfOk, length};
ghost use Rattle.plc_spelling.specs.Text.{IsGreatest, is_nil};
ghost use Rattle.plc_spelling.specs.Addresses as spec;

use crate::text::{apart_size, behind, is_apart};
use crate::words::capitals;
use plc_base::{Kind, Name, OutOfMemory, Rule};
use sqlite_items::Items;
use std::alloc::Global;

/// What a greater number is kept as.
const GREATEST: u32 = 65536;

/// The first byte, as a capital.
fn letter(bytes: &[u8]) -> u8
    ensures { result ≡ spec.letter bytes.now }
{
    match bytes {
        [first, ..] => first.to_ascii_uppercase(),
        [] => 0,
    }
}

fn is_direction(b: u8) -> bool
    ensures { result ≡ spec.is_direction b }
{
    b == b'I' || b == b'Q' || b == b'M'
}

fn is_size(b: u8) -> bool
    ensures { result ≡ spec.is_size b }
{
    b == b'X' || b == b'B' || b == b'W' || b == b'D' || b == b'L'
}

/// Whether the letter of a size stands behind the direction.
fn has_size(bytes: &[u8]) -> bool
    ensures { result ≡ spec.has_size bytes.now }
{
    is_size(letter(behind(2, bytes)))
}

/// What stands behind the direction and the size.
fn behind_size(bytes: &[u8]) -> &[u8]
    ensures { result.now ≡ spec.numbers bytes.now }
{
    behind(if has_size(bytes) { 3 } else { 2 }, bytes)
}

fn is_star(bytes: &[u8]) -> bool
    ensures { result ≡ spec.is_star bytes.now }
{
    matches!(bytes, [b'*'])
}

/// How many bytes at the front are numbers or a star.
fn numbers_size(text: &[u8]) -> usize
    ensures { IsGreatest (λ bs. is_nil bs || spec.are_numbers bs || spec.is_star bs) text.now result }
{
    match text {
        [b'*', ..] => 1,
        _ => apart_size(10, b'.', text),
    }
}

/// How many bytes at the front spell an address, one with a star, or the front of one that lacks
/// its direction or its numbers.
pub fn address_size(text: &[u8]) -> usize
    ensures { IsGreatest spec.is_address text.now result }
{
    match text {
        [b'%', rest @ ..] if is_direction(letter(rest)) => {
            let numbers = behind_size(text);
            text.len() - numbers.len() + numbers_size(numbers)
        }
        [b'%', ..] => 1,
        _ => 0,
    }
}

/// The numbers of an address.
fn counted(alloc: Global, bytes: &[u8]) -> Result<Items<u32>, OutOfMemory>
    ensures { IfOk result (λ numbers. numbers ≡ spec.counted bytes.now) }
{
    let mut numbers = Items::new(alloc);
    let mut number: u32 = 0;
    for b in bytes {
        if *b == b'.' {
            numbers.push(number)?;
            number = 0;
        } else {
            number = GREATEST.min(number * 10 + u32::from(b.saturating_sub(b'0')));
        }
    }
    numbers.push(number)?;
    Ok(numbers)
}

/// What an address spells.
pub fn address_kind(alloc: Global, bytes: &[u8]) -> Result<Kind, OutOfMemory>
    ensures { IfOk result (λ kind. kind ≡ spec.address_kind bytes.now) }
{
    let dir = letter(behind(1, bytes));
    let numbers = behind_size(bytes);
    if is_direction(dir) && is_apart(10, b'.', numbers) {
        let size = if has_size(bytes) {
            letter(behind(2, bytes))
        } else {
            b'X'
        };
        let numbers = counted(alloc, numbers)?;
        return Ok(Kind::Address { dir, size, numbers });
    }
    if is_direction(dir) && is_star(numbers) {
        return Ok(Kind::Left(Name::from_vec(capitals(alloc, bytes)?)));
    }
    Ok(Kind::Bad(Rule::L3))
}
