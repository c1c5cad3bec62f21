// Durations, behind `T#` or `TIME#`.
ghost use Rattle.std.specs.Prelude.{◌≡◌, ℕ, ◌+◌, ◌-◌, ◌*◌, ◌/◌, ◌^◌, ◌≤◌, ◌<◌, min, true, length, drop, get_or, codes, if◌then◌else◌, is_some, IfSome};
ghost use Rattle.std.specs.Char.{is_ascii_digit};
ghost use Rattle.std.specs.List.{list_all};
ghost use Rattle.std.specs.Option.{option_map};
ghost use Rattle.plc_spelling.specs.Durations as spec;
ghost use Rattle.plc_spelling.specs.Integers.{value};
ghost use Rattle.plc_spelling.specs.Text.{IsGreatest, behind_run, begins};

use crate::integers::{INTEGERS, value};
use crate::text::{begins, begins_with, digit_run, letter_run};
use plc_base::{Kind, Rule};
use std::marker::Model;

/// A unit of time.
#[derive(Drop)]
struct TimeUnit {
    letters: &'static [u8],
    nanoseconds: u64,
    /// How many of it may stand behind a part of a greater unit.
    below: u32,
}

impl Model for TimeUnit {
    ghost use Rattle.plc_spelling.specs.Durations as spec;

    ghost Value = { spec.TimeUnit };

    ghost view = { λ u. record { letters = u.letters.now; nanoseconds = u.nanoseconds; below = u.below } };
}

/// The units in falling order.
const UNITS: [TimeUnit; 5] = [
    TimeUnit {
        letters: b"D",
        nanoseconds: 86_400_000_000_000,
        below: 0,
    },
    TimeUnit {
        letters: b"H",
        nanoseconds: 3_600_000_000_000,
        below: 24,
    },
    TimeUnit {
        letters: b"M",
        nanoseconds: 60_000_000_000,
        below: 60,
    },
    TimeUnit {
        letters: b"S",
        nanoseconds: 1_000_000_000,
        below: 60,
    },
    TimeUnit {
        letters: b"MS",
        nanoseconds: 1_000_000,
        below: 1000,
    },
];

/// The digits at the front.
fn front_digits(bytes: &[u8]) -> &[u8]
    ensures { result.now ≡ spec.whole bytes.now }
{
    &bytes[..digit_run(bytes)]
}

/// What stands behind the digits at the front.
fn behind_digits(bytes: &[u8]) -> &[u8]
    ensures { result.now ≡ behind_run is_ascii_digit bytes.now }
{
    &bytes[digit_run(bytes)..]
}

/// Whether a point stands behind the digits.
fn has_point(bytes: &[u8]) -> bool
    ensures { result ≡ spec.has_point bytes.now }
{
    begins_with(b'.', behind_digits(bytes))
}

/// The digits behind the point.
fn fraction(bytes: &[u8]) -> &[u8]
    ensures { result.now ≡ spec.fraction bytes.now }
{
    match behind_digits(bytes) {
        [b'.', rest @ ..] => front_digits(rest),
        _ => &[],
    }
}

/// What stands behind the digits, and behind the point and its digits.
fn behind_number(bytes: &[u8]) -> &[u8]
    ensures value { result.now ≡ spec.behind_number bytes.now }
    ensures within { length result.now ≤ length bytes.now }
{
    match behind_digits(bytes) {
        [b'.', rest @ ..] => behind_digits(rest),
        rest => rest,
    }
}

/// Whether there are digits, and also behind a point.
fn has_number(bytes: &[u8]) -> bool
    ensures { result ≡ spec.has_number bytes.now }
{
    !front_digits(bytes).is_empty() && !(has_point(bytes) && fraction(bytes).is_empty())
}

/// Whether the bytes begin with a part of this unit. Behind a part of a greater unit its number is
/// limited.
fn begins_part(unit: &TimeUnit, first: bool, bytes: &[u8]) -> bool
    ensures { result ≡ spec.begins_part unit.now first bytes.now }
{
    let letters = behind_number(bytes);
    has_number(bytes)
        && unit
            .letters
            .eq_ignore_ascii_case(&letters[..letter_run(letters)])
        && (first || value(10, front_digits(bytes)) < u128::from(unit.below))
}

/// What stands behind the part at the front.
fn behind_part(bytes: &[u8]) -> &[u8]
    ensures { result.now ≡ spec.behind_part bytes.now }
{
    let letters = behind_number(bytes);
    &letters[letter_run(letters)..]
}

/// How much of a unit the digits behind a point are, truncated.
fn share(unit: u64, digits: &[u8]) -> u128
    requires { list_all is_ascii_digit digits.now ≡ true }
    ensures value { result ≡ value 10 digits.now * unit / 10 ^ length digits.now }
    ensures within { result ≤ unit }
{
    let mut share: u128 = 0;
    let mut left = digits.len();
    while left > 0 {
        left -= 1;
        share = (u128::from(unit) * u128::from(digits[left] - b'0') + share) / 10;
    }
    share
}

/// The nanoseconds of the part at the front, truncated, or `INTEGERS` where there are more.
fn nanoseconds(unit: &TimeUnit, bytes: &[u8]) -> u128
    ensures { result ≡ min (spec.nanoseconds unit.now bytes.now) (2 ^ 64) }
{
    let units = value(10, front_digits(bytes)) * u128::from(unit.nanoseconds);
    INTEGERS.min(units + share(unit.nanoseconds, fraction(bytes)))
}

/// What stands behind an underscore, or everything where there is none.
fn past_bar(bytes: &[u8]) -> &[u8]
    ensures { result.now ≡ spec.past_bar bytes.now }
{
    match bytes {
        [b'_', rest @ ..] => rest,
        _ => bytes,
    }
}

/// What stands behind the sign, or everything where there is none.
fn unsigned(bytes: &[u8]) -> &[u8]
    ensures { result.now ≡ spec.unsigned bytes.now }
{
    match bytes {
        [b'-', rest @ ..] => rest,
        _ => bytes,
    }
}

/// The nanoseconds of parts that are the whole of the bytes, or `INTEGERS` where there are more.
fn parts(units: &[TimeUnit], first: bool, bytes: &[u8]) -> Option<u128>
    ensures value { result ≡ option_map (λ n. min n (2 ^ 64)) (spec.parts units.now first bytes.now) }
    ensures within { IfSome result (λ n. n ≤ 2 ^ 64) }
{
    let [unit, rest @ ..] = units else {
        return None;
    };
    if !begins_part(unit, first, bytes) {
        return parts(rest, first, bytes);
    }
    let behind = behind_part(bytes);
    let here = nanoseconds(unit, bytes);
    if behind.is_empty() {
        return Some(here);
    }
    if has_point(bytes) {
        return None;
    }
    let more = parts(rest, false, past_bar(behind))?;
    Some(INTEGERS.min(here + more))
}

/// A number of nanoseconds with its sign.
fn span_kind(below_zero: bool, nanoseconds: u128) -> Kind
    requires { nanoseconds ≤ 2 ^ 64 }
    ensures { result ≡ spec.span_kind below_zero nanoseconds }
{
    let size = nanoseconds as i128;
    match i64::try_from(if below_zero { -size } else { size }) {
        Ok(span) => Kind::Span(span),
        Err(_) => Kind::Bad(Rule::L4),
    }
}

/// What a duration spells, from its bytes behind `T#`.
pub fn duration_kind(bytes: &[u8]) -> Kind
    ensures { result ≡ spec.duration_kind bytes.now }
{
    match parts(&UNITS, true, unsigned(bytes)) {
        None => Kind::Bad(Rule::L3),
        Some(nanoseconds) => span_kind(begins_with(b'-', bytes), nanoseconds),
    }
}

/// How many bytes a number at the front and the letters of a unit behind it have.
fn part_size(text: &[u8]) -> usize
    ensures value { result
        ≡ min
        (length text.now - length (spec.behind_number text.now)
        + (if begins (codes "MS") (spec.behind_number text.now) then 2 else 1))
        (length text.now) }
    ensures within { result ≤ length text.now }
{
    let letters = behind_number(text);
    // `ms` begins with the letter of another unit.
    let unit = if begins(b"MS", letters) { 2 } else { 1 };
    text.len().min(text.len() - letters.len() + unit)
}

/// How many bytes at the front of a text are parts of these units, which are the last ones of the
/// table, or 0.
fn parts_size(units: &[TimeUnit], first: bool, text: &[u8]) -> usize
    requires { (k : ℕ) × (k ≤ 5) × (units.now ≡ drop k spec.units) }
    ensures { IsGreatest (λ front. is_some (spec.parts units.now first front)) text.now result }
{
    let [unit, rest @ ..] = units else {
        return 0;
    };
    let size = part_size(text);
    if !begins_part(unit, first, &text[..size]) {
        return parts_size(rest, first, text);
    }
    if has_point(&text[..size]) {
        return size;
    }
    let behind = past_bar(&text[size..]);
    match parts_size(rest, false, behind) {
        0 => size,
        more => text.len() - behind.len() + more,
    }
}

/// How many bytes at the front of a text are a digit, or an underscore and a digit.
fn digit_size(text: &[u8]) -> usize
    ensures value { result
        ≡ (if is_ascii_digit (get_or (spec.past_bar text.now) 0 0) then
        length text.now - length (spec.past_bar text.now) + 1
        else 0) }
    ensures within { result ≤ length text.now }
{
    match past_bar(text) {
        [digit, rest @ ..] if digit.is_ascii_digit() => text.len() - rest.len(),
        _ => 0,
    }
}

/// How many bytes at the front of a text may stand behind `T#`.
pub fn duration_size(text: &[u8]) -> usize
    ensures { IsGreatest spec.is_duration text.now result }
{
    let unsigned = unsigned(text);
    let sign = text.len() - unsigned.len();
    match parts_size(&UNITS, true, unsigned) {
        0 => sign,
        size => sign + size + digit_size(&unsigned[size..]),
    }
}
