//! The passes that compile a source, one after the other.
ghost use Rattle.std.specs.Prelude.{◌≡◌, IfOk, Ok, Err};
ghost use Rattle.plc_top.specs.Decision as spec;
ghost use Rattle.plc_top.specs.Decision.{Compiles, CompilesTokens, IsLexed, Means, TypesTokens, IsTyped, source_tokens};

use c_tree::printing::print_unit;
use c_tree::text::CText;
use decl_parse::parse::parse_unit;
use emit_pou::emit_unit;
use plc_base::{OutOfMemory, Place, Rule, Stop};
use plc_lex::{Tokens, lex};
use plc_tokens::Token;
use plc_tree::typed::TUnit;
use plc_typing::{numbers_of, typed_unit};
use std::alloc::Global;

/// The greatest number of bytes of a source.
const MOST: usize = 4_194_304;

/// Where a file begins.
const START: Place = Place {
    file: 0,
    line: 1,
    col: 1,
    token: 0,
};

/// What the words of a command line ask of a compile. Nothing can be asked yet.
#[derive(Clone, Copy, Debug, PartialEq, Eq)]
pub struct Options {
    /// Full places in complaints.
    pub full: bool,
    /// Arrays of equal bounds and elements are equal.
    pub relaxed: bool,
    /// A declaration may stand after its use.
    pub forward: bool,
    /// Comments nest.
    pub nested: bool,
}

/// The tokens of a source.
fn tokens_of(alloc: Global, source: &[u8]) -> Result<Tokens, OutOfMemory>
    ensures { IfOk result (λ tokens. tokens ≡ source_tokens source.now) }
{
    if MOST < source.len() {
        return Tokens::of_bad(alloc, 0, Rule::L6);
    }
    lex(alloc, source, 0, false)
}

/// Where a list of tokens ends: the place of its last one.
fn end_of(tokens: &[Token]) -> Place
    ensures { result ≡ spec.end_of tokens.now }
{
    match tokens.last() {
        Some(token) => token.place,
        None => START,
    }
}

/// The typed unit of tokens, or the first rule that they break.
fn typed(alloc: Global, tokens: &Tokens) -> Result<TUnit, Stop>
    requires { IsLexed tokens.now }
    ensures { TypesTokens tokens.now result }
{
    let unit = parse_unit(alloc, tokens)?;
    let numbers = numbers_of(alloc, &unit, end_of(tokens.as_slice()))?;
    Ok(typed_unit(alloc, &numbers, &unit)?)
}

/// The texts of a typed unit.
fn texts_of(alloc: Global, unit: &TUnit) -> Result<Vec<CText>, OutOfMemory>
    requires { IsTyped unit.now }
    ensures { IfOk result (λ texts. Means unit.now texts.items) }
{
    let c = emit_unit(alloc, unit)?;
    let texts = print_unit(alloc, &c)?;
    Ok(texts)
}

/// The texts of all files, in order, or the first rule that the tokens break.
pub fn compile(alloc: Global, options: &Options, tokens: &Tokens) -> Result<Vec<CText>, Stop>
    requires { IsLexed tokens.now }
    ensures { CompilesTokens tokens.now result }
{
    let _ = options;
    let unit = typed(alloc, tokens)?;
    Ok(texts_of(alloc, &unit)?)
}

/// The texts of a source, or the first rule that it breaks.
pub fn compile_source(alloc: Global, source: &[u8]) -> Result<Vec<CText>, Stop>
    ensures { Compiles source.now result }
{
    let options = Options {
        full: false,
        relaxed: false,
        forward: false,
        nested: false,
    };
    let tokens = tokens_of(alloc, source)?;
    compile(alloc, &options, &tokens)
}
