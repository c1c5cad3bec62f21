// Runs of letters, digits and underscores, and what they spell.
ghost use Rattle.std.specs.Prelude.{◌≡◌, ◌≤◌, IfOk, length};
ghost use Rattle.std.specs.List.{list_any, prefix_len};
ghost use Rattle.std.specs.Str.{str_eq_ignore_ascii_case};
ghost use Rattle.plc_spelling.specs.Words as spec;

use plc_base::{Kind, Name, OutOfMemory, Rule};
use std::alloc::Global;

const TRUE: &[u8] = b"TRUE";

const FALSE: &[u8] = b"FALSE";

/// The most bytes of a word.
const MOST: usize = 64;

/// The words of what the profile leaves out.
const LEFT: [&[u8]; 20] = [
    b"REAL",
    b"LREAL",
    b"STRING",
    b"WSTRING",
    b"DATE",
    b"TIME_OF_DAY",
    b"TOD",
    b"DATE_AND_TIME",
    b"DT",
    b"VOID",
    b"EXPT",
    b"REF_TO",
    b"VAR_ACCESS",
    b"VAR_CONFIG",
    b"VAR_TEMP",
    b"R_EDGE",
    b"F_EDGE",
    b"SINGLE",
    b"RETAIN",
    b"NON_RETAIN",
];

/// Whether a byte can stand in a word.
pub fn is_word_byte(b: u8) -> bool
    ensures { result ≡ spec.is_word_byte b }
{
    b.is_ascii_alphanumeric() || b == b'_'
}

/// How many bytes of words stand at the front.
pub fn word_run(text: &[u8]) -> usize
    ensures value { result ≡ prefix_len spec.is_word_byte text.now }
    ensures within { result ≤ length text.now }
{
    text.iter().take_while(|b| is_word_byte(**b)).count()
}

/// Whether an underscore or nothing follows.
fn stops(rest: &[u8]) -> bool
    ensures { result ≡ spec.stops rest.now }
{
    match rest.first() {
        Some(b) => *b == b'_',
        None => true,
    }
}

/// Whether no underscore stands beside another or at the end.
fn underscores_alone(run: &[u8]) -> bool
    ensures { result ≡ spec.underscores_alone run.now }
{
    for i in 0..run.len() {
        if run[i] == b'_' && stops(&run[i + 1..]) {
            return false;
        }
    }
    true
}

fn is_one_of(words: &[&[u8]], name: &[u8]) -> bool
    ensures { result ≡ list_any (λ word. str_eq_ignore_ascii_case word.now name.now) words.now }
{
    words.iter().any(|word| word.eq_ignore_ascii_case(name))
}

/// Whether a word, in letters of either case, is one of what the profile leaves out.
pub fn is_left(name: &[u8]) -> bool
    ensures { result ≡ spec.is_left name.now }
{
    is_one_of(&LEFT, name)
}

/// Bytes in capitals.
pub fn capitals(alloc: Global, bytes: &[u8]) -> Result<Vec<u8>, OutOfMemory>
    ensures { IfOk result (λ name. name.items ≡ spec.capitals bytes.now) }
{
    let mut name = Vec::from_slice(alloc, bytes)?;
    name.as_mut_slice().make_ascii_uppercase();
    Ok(name)
}

/// A word in capitals.
fn named(name: Vec<u8>) -> Kind
    ensures { result ≡ spec.named name.items }
{
    if name.as_slice() == TRUE {
        Kind::Truth(true)
    } else if name.as_slice() == FALSE {
        Kind::Truth(false)
    } else if is_left(&name) {
        Kind::Left(Name::from_vec(name))
    } else {
        Kind::Word(Name::from_vec(name))
    }
}

/// What a run spells.
pub fn run_kind(alloc: Global, run: &[u8]) -> Result<Kind, OutOfMemory>
    ensures { IfOk result (λ kind. kind ≡ spec.run_kind run.now) }
{
    if !underscores_alone(run) {
        return Ok(Kind::Bad(Rule::L1));
    }
    if run.len() > MOST {
        return Ok(Kind::Bad(Rule::L5));
    }
    Ok(named(capitals(alloc, run)?))
}
