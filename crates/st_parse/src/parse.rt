//! The parser's call, and those of st_expr, so that all five stand in one place.
ghost use Rattle.std.specs.Prelude.{◌≤◌, ◌<◌, ◌-◌, length};
ghost use Rattle.plc_tokens.specs.Tokens.{IsClosed};
ghost use Rattle.st_expr.specs.Parsed.{Parses};
ghost use Rattle.st_parse.specs.Depth.{Statements};

use crate::statement::stmts;
use plc_base::Stop;
use plc_tokens::Tokens;
use plc_tokens::reader::Reader;
use plc_tree::tree::Stmt;
use sqlite_items::Items;
use st_expr::parse::{MOST, answer};
pub use st_expr::parse::{parse_args, parse_expr, parse_operand, parse_path};
use std::alloc::Global;

/// Statements, as many as there are: from a token on, where `around` nodes of the tree are open, of 64 at most. The
/// answer and the refusals are as those of `st_expr::parse`.
pub fn parse_stmts(
    alloc: Global,
    tokens: &Tokens,
    from: usize,
    around: u32,
) -> Result<(Items<Stmt>, usize), Stop>
    requires closed { IsClosed tokens.now }
    requires from { from < length tokens.now }
    requires around { around ≤ 64 }
    ensures { Parses Statements (64 - around) tokens.now from result }
{
    let mut reader = Reader::new(tokens.behind(from));
    let outcome = stmts(alloc, &mut reader, MOST - around + 1);
    answer(outcome, tokens.len(), &reader)
}
