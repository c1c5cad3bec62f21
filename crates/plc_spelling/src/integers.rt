// Integers, with a base before them or without.
ghost use Rattle.std.specs.Prelude.{◌≡◌, ◌≤◌, ◌^◌, min};
ghost use Rattle.plc_spelling.specs.Text.{IsGreatest};
ghost use Rattle.plc_spelling.specs.Integers as spec;

use crate::text::{apart_size, begins, digit_value, is_apart};
use plc_base::{Elem, Kind, Rule};

/// One more than the greatest integer.
pub const INTEGERS: u128 = 1 << 64;

/// How far the integers go below 0.
const NEGATIVES: u128 = 1 << 63;

/// The number that digits spell, or `INTEGERS` where it is greater.
pub fn value(base: u32, digits: &[u8]) -> u128
    requires { base ≤ 16 }
    ensures { result ≡ min (spec.value base digits.now) (2 ^ 64) }
{
    let mut value: u128 = 0;
    for b in digits {
        if *b != b'_' {
            value = INTEGERS.min(value * u128::from(base) + u128::from(digit_value(*b)));
        }
    }
    value
}

/// How many bytes at the front are digits of a base with single underscores between.
pub fn number_size(base: u32, text: &[u8]) -> usize
    requires { base ≤ 36 }
    ensures { IsGreatest (spec.is_number base) text.now result }
{
    apart_size(base, b'_', text)
}

/// How many bytes at the front are a base's mark, with digits behind it or none.
fn based_size(base: u32, mark: &[u8], text: &[u8]) -> usize
    requires { base ≤ 36 }
    ensures { IsGreatest (spec.is_based base mark.now) text.now result }
{
    if !begins(mark, text) {
        return 0;
    }
    mark.len() + number_size(base.max(10), &text[mark.len()..])
}

/// How many bytes at the front spell an integer, or one that lacks a digit or has one too great for
/// its base.
pub fn integer_size(text: &[u8]) -> usize
    ensures { IsGreatest spec.is_integer text.now result }
{
    number_size(10, text)
        .max(based_size(2, b"2#", text))
        .max(based_size(8, b"8#", text))
        .max(based_size(16, b"16#", text))
}

/// What these digits of a base spell.
fn digits_kind(want: Option<Elem>, base: u32, digits: &[u8]) -> Kind
    requires { base ≤ 16 }
    ensures { result ≡ spec.digits_kind want base digits.now }
{
    if !is_apart(base, b'_', digits) {
        return Kind::Bad(Rule::L3);
    }
    let value = value(base, digits);
    if value < INTEGERS {
        Kind::Number {
            value: value as i128,
            want,
        }
    } else {
        Kind::Bad(Rule::L4)
    }
}

/// What an integer spells, whose type is given before it or isn't.
pub fn integer_kind(want: Option<Elem>, bytes: &[u8]) -> Kind
    ensures { result ≡ spec.integer_kind want bytes.now }
{
    if begins(b"2#", bytes) {
        digits_kind(want, 2, &bytes[2..])
    } else if begins(b"8#", bytes) {
        digits_kind(want, 8, &bytes[2..])
    } else if begins(b"16#", bytes) {
        digits_kind(want, 16, &bytes[3..])
    } else {
        digits_kind(want, 10, bytes)
    }
}

/// What an integer below 0 spells that has these decimal digits.
pub fn negative_kind(want: Option<Elem>, digits: &[u8]) -> Kind
    ensures { result ≡ spec.negative_kind want digits.now }
{
    let value = value(10, digits);
    if value <= NEGATIVES {
        Kind::Number {
            value: -(value as i128),
            want,
        }
    } else {
        Kind::Bad(Rule::L4)
    }
}
