//! The numbers that expressions have by themselves.
ghost use Rattle.std.specs.Prelude.{◌≡◌, ◌+ℤ◌, ◌-ℤ◌, ◌*ℤ◌};
ghost use Rattle.plc_tree.specs.Execution as divided;
ghost use Rattle.plc_typing.specs.Constants as spec;

use plc_tree::tree::{BinOp, Expr, UnOp};

/// The lowest number of 64 bits with a sign.
const LEAST: i128 = -(1 << 63);

/// The greatest number of 64 bits without one.
const MOST: i128 = (1 << 64) - 1;

// ---- whether one has a number

/// Whether an operator over numbers has one.
pub fn folds(op: BinOp) -> bool
    ensures { result ≡ spec.folds op }
{
    match op {
        BinOp::Add | BinOp::Sub | BinOp::Mul | BinOp::Div | BinOp::Rem => true,
        BinOp::Or | BinOp::Xor | BinOp::And => false,
        BinOp::Eq | BinOp::Ne | BinOp::Lt | BinOp::Gt | BinOp::Le | BinOp::Ge => false,
    }
}

/// Whether an operator over one number has one.
pub fn folds_one(op: UnOp) -> bool
    ensures { result ≡ spec.folds_one op }
{
    match op {
        UnOp::Minus => true,
        UnOp::Not => false,
    }
}

// ---- which number that is

fn in_64_bits(value: i128) -> Option<i128>
    ensures { result ≡ spec.in_64_bits value }
{
    if LEAST <= value && value <= MOST {
        Some(value)
    } else {
        None
    }
}

fn sum(a: i128, b: i128) -> Option<i128>
    ensures { result ≡ spec.in_64_bits (a +ℤ b) }
{
    in_64_bits(a.checked_add(b)?)
}

fn difference(a: i128, b: i128) -> Option<i128>
    ensures { result ≡ spec.in_64_bits (a -ℤ b) }
{
    in_64_bits(a.checked_sub(b)?)
}

fn product(a: i128, b: i128) -> Option<i128>
    ensures { result ≡ spec.in_64_bits (a *ℤ b) }
{
    in_64_bits(a.checked_mul(b)?)
}

/// Toward zero; 0 for a divisor of 0.
fn quotient(a: i128, b: i128) -> Option<i128>
    ensures { result ≡ spec.in_64_bits (divided.quotient a b) }
{
    if b == 0 {
        return Some(0);
    }
    in_64_bits(a.checked_div(b)?)
}

/// With the sign of what is divided; 0 for a divisor of 0.
fn remainder(a: i128, b: i128) -> Option<i128>
    ensures { result ≡ spec.in_64_bits (divided.remainder a b) }
{
    if b == 0 {
        return Some(0);
    }
    in_64_bits(a.wrapping_rem(b))
}

/// What an operator gives for two numbers.
fn folded(op: BinOp, a: i128, b: i128) -> Option<i128>
    ensures { result ≡ spec.folded op a b }
{
    match op {
        BinOp::Add => sum(a, b),
        BinOp::Sub => difference(a, b),
        BinOp::Mul => product(a, b),
        BinOp::Div => quotient(a, b),
        BinOp::Rem => remainder(a, b),
        BinOp::Or | BinOp::Xor | BinOp::And => None,
        BinOp::Eq | BinOp::Ne | BinOp::Lt | BinOp::Gt | BinOp::Le | BinOp::Ge => None,
    }
}

fn folded_one(op: UnOp, a: i128) -> Option<i128>
    ensures { result ≡ spec.folded_one op a }
{
    match op {
        UnOp::Minus => difference(0, a),
        UnOp::Not => None,
    }
}

/// Over numbers where there are some.
fn of_two(op: BinOp, a: Option<i128>, b: Option<i128>) -> Option<i128>
    ensures { result ≡ spec.of_two op a b }
{
    folded(op, a?, b?)
}

fn of_one(op: UnOp, a: Option<i128>) -> Option<i128>
    ensures { result ≡ spec.of_one op a }
{
    folded_one(op, a?)
}

/// The number that an expression has by itself, where that is one of 64 bits.
#[cycle(const_of)]
pub fn const_of(expr: &Expr) -> Option<i128>
    ensures { result ≡ spec.const_of expr.now }
{
    match expr {
        Expr::Number { value, .. } => in_64_bits(*value),
        Expr::Paren { inner, .. } => const_of(inner.get()),
        Expr::Unary { op, inner, .. } => of_one(*op, const_of(inner.get())),
        Expr::Binary {
            op,
            left,
            right,
            ..
        } => of_two(*op, const_of(left.get()), const_of(right.get())),
        Expr::Truth { .. } | Expr::Span { .. } | Expr::Value { .. } => None,
        Expr::Var(_) | Expr::Call { .. } => None,
    }
}

/// Whether that number is 0.
pub fn is_zero(value: Option<i128>) -> bool
    ensures { result ≡ spec.is_zero value }
{
    match value {
        Some(number) => number == 0,
        None => false,
    }
}
