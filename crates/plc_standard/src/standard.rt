//! The names of the standard functions and blocks.
ghost use Rattle.std.specs.Prelude.{◌≡◌, ◌≢◌, ◌++◌, List, ℕ, MatchOption, bytes_eq, false, if◌then◌else◌, length, ◌≤◌};
ghost use Rattle.std.specs.List.{list_any, position_from};
ghost use Rattle.plc_standard.specs.Standard as spec;

use crate::listed::is_listed;

const FUNCTIONS: [&[u8]; 27] = [
    b"ADD",
    b"SUB",
    b"MUL",
    b"DIV",
    b"MOD",
    b"AND",
    b"OR",
    b"XOR",
    b"NOT",
    b"EQ",
    b"NE",
    b"LT",
    b"GT",
    b"LE",
    b"GE",
    b"ABS",
    b"MIN",
    b"MAX",
    b"LIMIT",
    b"SEL",
    b"MUX",
    b"SHL",
    b"SHR",
    b"ROL",
    b"ROR",
    b"MOVE",
    b"PLC_MOMENT",
];

const BLOCKS: [&[u8]; 10] = [
    b"SR", b"RS", b"R_TRIG", b"F_TRIG", b"CTU", b"CTD", b"CTUD", b"TON", b"TOF", b"TP",
];

/// The types between which conversions stand.
const CONVERTED: [&[u8]; 13] = [
    b"SINT", b"INT", b"DINT", b"LINT", b"USINT", b"UINT", b"UDINT", b"ULINT", b"BYTE", b"WORD",
    b"DWORD", b"LWORD", b"BOOL",
];

const TO: &[u8] = b"_TO_";

/// The rest of a text after this front.
fn after<'a>(text: &'a [u8], front: &[u8]) -> Option<&'a [u8]>
    ensures { MatchOption result ((rest : List ℕ) → text.now ≢ front.now ++ rest) (λ rest. text.now ≡ front.now ++ rest.now) }
{
    text.strip_prefix(front)
}

/// Whether a name is that of the conversion between two types.
fn is_named(name: &[u8], from: &[u8], to: &[u8]) -> bool
    ensures { result ≡ bytes_eq name.now (spec.conversion from.now to.now) }
{
    match after(name, from) {
        Some(rest) => match after(rest, TO) {
            Some(end) => end == to,
            None => false,
        },
        None => false,
    }
}

fn converts(name: &[u8], from: &[u8], to: &[u8]) -> bool
    ensures { result ≡ (if bytes_eq from.now to.now then false else bytes_eq name.now (spec.conversion from.now to.now)) }
{
    if from == to {
        return false;
    }
    is_named(name, from, to)
}

fn converts_from(name: &[u8], from: &[u8], types: &[&[u8]]) -> bool
    ensures { result ≡ list_any (λ to. if bytes_eq from.now to.now then false else bytes_eq name.now (spec.conversion from.now to.now)) types.now }
{
    types.iter().any(|to| converts(name, from, to))
}

fn is_conversion_among(name: &[u8], types: &[&[u8]]) -> bool
    ensures { result ≡ list_any (λ from. list_any (λ to. if bytes_eq from.now to.now then false else bytes_eq name.now (spec.conversion from.now to.now)) types.now) types.now }
{
    types.iter().any(|from| converts_from(name, from, types))
}

fn is_conversion(name: &[u8]) -> bool
    ensures { result ≡ spec.is_conversion name.now }
{
    is_conversion_among(name, &CONVERTED)
}

/// Whether a name is that of a standard function, a conversion among them.
#[tactic(auto, unfolding(crate::specs::Standard::is_function))]
pub fn is_function(name: &[u8]) -> bool
    ensures { result ≡ spec.is_function name.now }
{
    is_listed(&FUNCTIONS, name) || is_conversion(name)
}

/// Whether a name is that of a standard block.
#[tactic(auto, unfolding(crate::specs::Standard::is_block))]
pub fn is_block(name: &[u8]) -> bool
    ensures { result ≡ spec.is_block name.now }
{
    is_listed(&BLOCKS, name)
}

/// The place of a name in a list of up to 256 names.
fn place_in(mut names: &[&[u8]], name: &[u8]) -> Option<u8>
    requires { length names.now ≤ 256 }
    ensures { result ≡ position_from (λ n. bytes_eq n.now name.now) 0 names.entry.now }
{
    let mut place = 0;
    while let [first, rest @ ..] = names {
        if *first == name {
            return Some(place);
        }
        if rest.is_empty() {
            return None;
        }
        names = rest;
        place += 1;
    }
    None
}

/// The place of a standard block in the list of them, from 0.
#[tactic(auto, unfolding(crate::specs::Standard::block_number))]
pub fn block_number(name: &[u8]) -> Option<u8>
    ensures { result ≡ spec.block_number name.now }
{
    place_in(&BLOCKS, name)
}
