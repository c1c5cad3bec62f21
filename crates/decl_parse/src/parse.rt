//! The parser's call.
ghost use Rattle.std.specs.Prelude.{◌≡◌, ◌<◌, ◌≤◌, length};
ghost use Rattle.plc_tokens.specs.Tokens.{IsClosed};
ghost use Rattle.decl_parse.specs.Parsed.{IsAtFront, ParsesUnit};

use crate::place::rule_behind;
use crate::source::closed;
use phrase::Fault;
use plc_base::{Refusal, Rule, Stop};
use plc_tokens::reader::Reader;
use plc_tokens::{Token, Tokens};
use plc_tree::tree::Unit;
use std::alloc::Global;

/// How many nodes of a body's tree may be open, one in another.
const MOST: u32 = 64;

/// The refusal of the next token, with which no source goes on, by the rule of its place.
fn at_front(tokens: &[Token], reader: &Reader<'_>) -> Refusal
    requires left { 0 < length reader.now }
    requires fits { length reader.now ≤ length tokens.now }
    ensures { IsAtFront tokens.now reader.now result }
{
    let token = reader.here();
    let (before, _) = tokens.split_at(tokens.len() - reader.left());
    Refusal {
        rule: rule_behind(before, token),
        place: token.place,
    }
}

/// The tree of all these tokens, or the refusal of the first token with which no source goes on, or which opens a node
/// where 64 are open.
///
/// The rule is that of a bad token, U1 where something left out of the language stands and at an address from the first
/// place on where a body can begin, `NotYet` at an inclusion and where a source of the whole language goes on with that
/// token, else G1; G2 at a token that opens a node past the limit.
pub fn parse_unit(alloc: Global, tokens: &Tokens) -> Result<Unit, Stop>
    requires { IsClosed tokens.now }
    ensures { ParsesUnit tokens.now result }
{
    let tokens = tokens.as_slice();
    let mut reader = Reader::new(tokens);
    match closed(alloc, &mut reader, MOST) {
        Ok(unit) if reader.left() == 0 => Ok(unit),
        Err(phrase::Stop::Memory) => Err(Stop::OutOfMemory),
        Ok(_) => Err(Stop::Refused(at_front(tokens, &reader))),
        Err(phrase::Stop::At(Fault::Wrong)) => Err(Stop::Refused(at_front(tokens, &reader))),
        Err(phrase::Stop::At(Fault::Deep)) => Err(Stop::Refused(Refusal {
            rule: Rule::G2,
            place: reader.here().place,
        })),
    }
}
