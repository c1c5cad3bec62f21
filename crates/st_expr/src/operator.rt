//! Operators with two sides.
ghost use Rattle.std.specs.Prelude.{◌≡◌, ◌<◌};
ghost use Rattle.phrase.specs.Reads.{OnlyMemory};
ghost use Rattle.st_expr.specs.Expressions as spec;

use phrase::Stop;
use plc_tokens::Token;
use plc_tokens::reserved::Reserved;
use plc_tokens::sort::{Sort, Symbol};
use plc_tree::tree::{BinOp, Expr};
use sqlite_items::Boxed;
use std::alloc::Global;

/// The operator that a sort stands for.
pub fn op_of(sort: Sort) -> BinOp
    ensures { result ≡ spec.op_of sort }
{
    match sort {
        Sort::Word(Reserved::Or) => BinOp::Or,
        Sort::Word(Reserved::Xor) => BinOp::Xor,
        Sort::Symbol(Symbol::Equal) => BinOp::Eq,
        Sort::Symbol(Symbol::Unequal) => BinOp::Ne,
        Sort::Symbol(Symbol::Below) => BinOp::Lt,
        Sort::Symbol(Symbol::Above) => BinOp::Gt,
        Sort::Symbol(Symbol::AtMost) => BinOp::Le,
        Sort::Symbol(Symbol::AtLeast) => BinOp::Ge,
        Sort::Symbol(Symbol::Plus) => BinOp::Add,
        Sort::Symbol(Symbol::Minus) => BinOp::Sub,
        Sort::Symbol(Symbol::Times) => BinOp::Mul,
        Sort::Symbol(Symbol::Divided) => BinOp::Div,
        Sort::Word(Reserved::Mod) => BinOp::Rem,
        _ => BinOp::And,
    }
}

/// The node of an operator, whose sides have these heights, where `room` more nodes may open.
pub fn binary(
    alloc: Global,
    left: Expr,
    height: u32,
    token: &Token,
    right: Expr,
    its: u32,
    room: u32,
) -> Result<(Expr, u32), Stop>
    requires left { height < room }
    requires right { its < room }
    ensures { OnlyMemory result (spec.binary_of (left, height) token.now (right, its)) }
{
    Ok((
        Expr::Binary {
            op: op_of(token.sort),
            at: token.place,
            left: Boxed::new(alloc, left)?,
            right: Boxed::new(alloc, right)?,
        },
        height.max(its) + 1,
    ))
}
