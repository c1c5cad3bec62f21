//! The parsers' calls. Each reads the longest phrase from a token on, where `around` nodes of the tree are open, of 64
//! at most, and answers its tree and the number of the token behind it.
//!
//! A refusal is at the first token with which no phrase goes on: by the rule of a bad token, by U1 where the token is
//! left out of the language or is an address, else by G1. It is by G2 at a token before it where that opens a node and
//! the nodes open around it, the height of the operand that was read before it and one more pass 64.
ghost use Rattle.std.specs.Prelude.{◌≡◌, ◌≤◌, ◌<◌, ◌-◌, length};
ghost use Rattle.plc_tokens.specs.Tokens.{IsClosed};
ghost use Rattle.st_expr.specs.Answered.{Answered, AnsweredTree, CanAnswer, IsFailed};
ghost use Rattle.st_expr.specs.Depth.{Arguments, Expressions, Operands, Paths};
ghost use Rattle.st_expr.specs.Parsed.{ParsesTree};
ghost use Rattle.st_expr.specs.Parsed as spec;

use crate::expression::{args, operand, path, read};
use crate::level::Level;
use phrase::Fault;
use plc_base::{Kind, Refusal, Rule, Stop};
use plc_tokens::Tokens;
use plc_tokens::reader::Reader;
use plc_tokens::sets::FIRST_NAME;
use plc_tree::tree::{Arg, Expr, Path};
use sqlite_items::Items;
use std::alloc::Global;

/// How many nodes may be open, one in another.
pub const MOST: u32 = 64;

/// The rule that a token of a body breaks with which no phrase goes on.
pub fn rule_at(kind: &Kind) -> Rule
    ensures { result ≡ spec.rule_at kind.now }
{
    match kind {
        Kind::Bad(rule) => *rule,
        Kind::Left(_) | Kind::Address { .. } => Rule::U1,
        _ => Rule::G1,
    }
}

fn rule_of(fault: Fault, kind: &Kind) -> Rule
    ensures { result ≡ spec.rule_of fault kind.now }
{
    match fault {
        Fault::Wrong => rule_at(kind),
        Fault::Deep => Rule::G2,
    }
}

/// What is answered where a reading failed.
fn failed(failure: phrase::Stop, reader: &Reader<'_>) -> Stop
    requires { CanAnswer {A = Unit {0}} (Err failure) 0 reader.now }
    ensures { IsFailed failure reader.now result }
{
    match failure {
        phrase::Stop::Memory => Stop::OutOfMemory,
        phrase::Stop::At(fault) => {
            let token = reader.here();
            Stop::Refused(Refusal {
                rule: rule_of(fault, &token.kind),
                place: token.place,
            })
        }
    }
}

/// The value and the number of the next token, where the whole list has so many.
pub fn answer<T>(
    outcome: Result<T, phrase::Stop>,
    whole: usize,
    reader: &Reader<'_>,
) -> Result<(T, usize), Stop>
    requires { CanAnswer outcome whole reader.now }
    ensures { Answered outcome whole reader.now result }
{
    match outcome {
        Ok(value) => Ok((value, whole - reader.left())),
        Err(failure) => Err(failed(failure, reader)),
    }
}

/// The same of a tree with its height, which is not answered.
fn answer_tree<T>(
    outcome: Result<(T, u32), phrase::Stop>,
    whole: usize,
    reader: &Reader<'_>,
) -> Result<(T, usize), Stop>
    requires { CanAnswer outcome whole reader.now }
    ensures { AnsweredTree outcome whole reader.now result }
{
    match outcome {
        Ok((tree, _)) => Ok((tree, whole - reader.left())),
        Err(failure) => Err(failed(failure, reader)),
    }
}

/// An expression.
pub fn parse_expr(
    alloc: Global,
    tokens: &Tokens,
    from: usize,
    around: u32,
) -> Result<(Expr, usize), Stop>
    requires closed { IsClosed tokens.now }
    requires from { from < length tokens.now }
    requires around { around ≤ 64 }
    ensures { ParsesTree Expressions (64 - around) tokens.now from result }
{
    let mut reader = Reader::new(tokens.behind(from));
    let outcome = read(alloc, &mut reader, MOST - around, Level::Whole, false);
    answer_tree(outcome, tokens.len(), &reader)
}

/// The path of a variable. With `line` no line break stands before a token behind the first, but inside the arguments
/// of a call.
pub fn parse_path(
    alloc: Global,
    tokens: &Tokens,
    from: usize,
    around: u32,
    line: bool,
) -> Result<(Path, usize), Stop>
    requires closed { IsClosed tokens.now }
    requires from { from < length tokens.now }
    requires around { around ≤ 64 }
    ensures { ParsesTree (Paths line) (64 - around) tokens.now from result }
{
    let mut reader = Reader::new(tokens.behind(from));
    let outcome = path(alloc, &mut reader, &FIRST_NAME, MOST - around, line);
    answer_tree(outcome, tokens.len(), &reader)
}

/// The operand of an instruction: a literal, a path, or the value of an enumeration; `line` is as for a path.
pub fn parse_operand(
    alloc: Global,
    tokens: &Tokens,
    from: usize,
    around: u32,
    line: bool,
) -> Result<(Expr, usize), Stop>
    requires closed { IsClosed tokens.now }
    requires from { from < length tokens.now }
    requires around { around ≤ 64 }
    ensures { ParsesTree (Operands line) (64 - around) tokens.now from result }
{
    let mut reader = Reader::new(tokens.behind(from));
    let outcome = operand(alloc, &mut reader, MOST - around, line);
    answer_tree(outcome, tokens.len(), &reader)
}

/// The arguments of a call, one or more, without its parentheses.
pub fn parse_args(
    alloc: Global,
    tokens: &Tokens,
    from: usize,
    around: u32,
) -> Result<(Items<Arg>, usize), Stop>
    requires closed { IsClosed tokens.now }
    requires from { from < length tokens.now }
    requires around { around ≤ 64 }
    ensures { ParsesTree Arguments (64 - around) tokens.now from result }
{
    let mut reader = Reader::new(tokens.behind(from));
    let outcome = args(alloc, &mut reader, MOST - around + 1);
    answer_tree(outcome, tokens.len(), &reader)
}
