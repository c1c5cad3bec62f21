//! Expressions.
ghost use Rattle.std.specs.Prelude.{◌<◌, ◌≤◌, IfOk};
ghost use Rattle.phrase.specs.Piece.{many};
ghost use Rattle.phrase.specs.Reads.{Reads};
ghost use Rattle.st_expr.specs.Depth.{deep};
ghost use Rattle.st_expr.specs.Expressions as spec;
ghost use Rattle.st_expr.specs.Expressions.{standing};
ghost use Rattle.st_expr.specs.Nests.{Nests};

use crate::level::{Level, operators, side_of, under_sign};
use crate::literal::{negative, number, span, truth, value};
use crate::operator::binary;
use crate::token_name::token_name;
use phrase::Stop;
use plc_tokens::Token;
use plc_tokens::reader::Reader;
use plc_tokens::sets::{
    FIRST_MINUS, FIRST_NAME, FIRST_NUMBER, FIRST_SPAN, FIRST_TRUTH, HASH, INTEGER, LPAREN, MINUS,
    NAME, NOT, OPERATION, RPAREN, SPAN, TRUTH, TYPED,
};
use plc_tokens::sort::Seen;
use plc_tree::tree::{Arg, Expr, Path, UnOp};
use sqlite_items::{Boxed, Items};
use std::alloc::Global;

/// A place where expressions are read.
#[derive(Clone, Copy)]
pub struct Expressions<F> {
    pub alloc: Global,
    /// How many more nodes may open here.
    pub room: u32,
    /// Whether no line break may stand before a token, but inside the arguments of a call.
    pub line: bool,
    /// What reads an expression under one more node.
    pub nested: F,
}

impl<
    F: Fn(Global, &mut Reader<'_>, u32, Level, bool) -> Result<(Expr, u32), Stop> + Copy,
> Expressions<F> {
    /// An expression of a level under one more node.
    pub fn nested(
        &self,
        tokens: &mut Reader<'_>,
        level: Level,
        line: bool,
    ) -> Result<(Expr, u32), Stop>
        requires nests { Nests self.now.room (F.pre self.now.nested) (F.post self.now.nested) }
        requires opened { 0 < self.now.room }
        ensures value { Reads (((deep self.now.room).operand level line).run tokens.old) result tokens.new }
        ensures low { IfOk result (λ x. x.1 < self.now.room) }
    {
        (self.nested)(self.alloc, tokens, self.room - 1, level, line)
    }

    #[tactic(auto, unfolding(crate::specs::Expressions::call))]
    fn call(&self, tokens: &mut Reader<'_>, token: &Token) -> Result<(Expr, u32), Stop>
        requires nests { Nests self.now.room (F.pre self.now.nested) (F.post self.now.nested) }
        requires opened { 0 < self.now.room }
        ensures value { Reads ((spec.call self.now.line (deep self.now.room) token.now).run tokens.old) result tokens.new }
        ensures low { IfOk result (λ x. x.1 ≤ self.now.room) }
    {
        let (args, height) = self.call_rest(tokens)?;
        let name = token_name(self.alloc, token)?;
        Ok((
            Expr::Call {
                name,
                at: token.place,
                args,
            },
            height,
        ))
    }

    /// What follows `(`.
    #[tactic(auto, unfolding(crate::specs::Expressions::paren_rest))]
    fn paren_rest(&self, tokens: &mut Reader<'_>, token: &Token) -> Result<(Expr, u32), Stop>
        requires nests { Nests self.now.room (F.pre self.now.nested) (F.post self.now.nested) }
        requires opened { 0 < self.now.room }
        ensures value { Reads ((spec.paren_rest self.now.line (deep self.now.room) token.now).run tokens.old) result tokens.new }
        ensures low { IfOk result (λ x. x.1 ≤ self.now.room) }
    {
        let (inner, height) = self.nested(tokens, Level::Whole, self.line)?;
        tokens.take_in(self.line, &RPAREN)?;
        Ok((
            Expr::Paren {
                at: token.place,
                inner: Boxed::new(self.alloc, inner)?,
            },
            height + 1,
        ))
    }

    #[tactic(auto, unfolding(crate::specs::Expressions::variable))]
    fn variable(&self, tokens: &mut Reader<'_>, sorts: &[Seen]) -> Result<(Expr, u32), Stop>
        requires nests { Nests self.now.room (F.pre self.now.nested) (F.post self.now.nested) }
        ensures value { Reads ((spec.variable sorts.now self.now.line self.now.room (deep self.now.room)).run tokens.old) result tokens.new }
        ensures low { IfOk result (λ x. x.1 ≤ self.now.room) }
    {
        let (path, height) = self.path(tokens, sorts)?;
        Ok((Expr::Var(path), height))
    }

    #[tactic(auto, unfolding(crate::specs::Expressions::named_operand))]
    fn named_operand(&self, tokens: &mut Reader<'_>, sorts: &[Seen]) -> Result<(Expr, u32), Stop>
        requires nests { Nests self.now.room (F.pre self.now.nested) (F.post self.now.nested) }
        ensures value { Reads ((spec.named_operand sorts.now self.now.line self.now.room (deep self.now.room)).run tokens.old) result tokens.new }
        ensures low { IfOk result (λ x. x.1 ≤ self.now.room) }
    {
        if tokens.sees_two_in(self.line, sorts, &HASH) {
            value(self.alloc, tokens, sorts, self.line)
        } else {
            self.variable(tokens, sorts)
        }
    }

    #[tactic(auto, unfolding(crate::specs::Expressions::called_or_named))]
    fn called_or_named(&self, tokens: &mut Reader<'_>) -> Result<(Expr, u32), Stop>
        requires nests { Nests self.now.room (F.pre self.now.nested) (F.post self.now.nested) }
        ensures value { Reads ((spec.called_or_named self.now.line self.now.room (deep self.now.room)).run tokens.old) result tokens.new }
        ensures low { IfOk result (λ x. x.1 ≤ self.now.room) }
    {
        if tokens.sees_two_in(self.line, &NAME, &LPAREN) {
            let name = tokens.enter_in(self.line, self.room, 0, &NAME)?;
            tokens.take_in(self.line, &LPAREN)?;
            return self.call(tokens, name);
        }
        self.named_operand(tokens, &NAME)
    }

    #[tactic(auto, unfolding(crate::specs::Expressions::other))]
    fn other(&self, tokens: &mut Reader<'_>) -> Result<(Expr, u32), Stop>
        requires nests { Nests self.now.room (F.pre self.now.nested) (F.post self.now.nested) }
        ensures value { Reads ((spec.other self.now.line self.now.room (deep self.now.room)).run tokens.old) result tokens.new }
        ensures low { IfOk result (λ x. x.1 ≤ self.now.room) }
    {
        if tokens.sees_in(self.line, &TYPED) {
            return number(tokens, &TYPED, self.line);
        }
        if tokens.sees_in(self.line, &TRUTH) {
            return truth(tokens, &TRUTH, self.line);
        }
        if tokens.sees_in(self.line, &SPAN) {
            return span(tokens, &SPAN, self.line);
        }
        if tokens.sees_in(self.line, &LPAREN) {
            let first = tokens.enter_in(self.line, self.room, 0, &LPAREN)?;
            return self.paren_rest(tokens, first);
        }
        if tokens.sees_in(self.line, &OPERATION) {
            let name = tokens.enter_in(self.line, self.room, 0, &OPERATION)?;
            tokens.take_in(self.line, &LPAREN)?;
            return self.call(tokens, name);
        }
        self.called_or_named(tokens)
    }

    #[tactic(auto, unfolding(crate::specs::Expressions::primary))]
    fn primary(&self, tokens: &mut Reader<'_>) -> Result<(Expr, u32), Stop>
        requires nests { Nests self.now.room (F.pre self.now.nested) (F.post self.now.nested) }
        ensures value { Reads ((spec.primary self.now.line self.now.room (deep self.now.room)).run tokens.old) result tokens.new }
        ensures low { IfOk result (λ x. x.1 ≤ self.now.room) }
    {
        if tokens.sees_in(self.line, &INTEGER) {
            number(tokens, &INTEGER, self.line)
        } else {
            self.other(tokens)
        }
    }

    /// The operand of an instruction.
    #[tactic(auto, unfolding(crate::specs::Expressions::operand))]
    pub fn operand(&self, tokens: &mut Reader<'_>) -> Result<(Expr, u32), Stop>
        requires nests { Nests self.now.room (F.pre self.now.nested) (F.post self.now.nested) }
        ensures value { Reads ((spec.operand self.now.line self.now.room (deep self.now.room)).run tokens.old) result tokens.new }
        ensures low { IfOk result (λ x. x.1 ≤ self.now.room) }
    {
        if tokens.sees_in(self.line, &FIRST_MINUS) {
            return negative(tokens, &FIRST_MINUS, self.line);
        }
        if tokens.sees_in(self.line, &FIRST_NUMBER) {
            return number(tokens, &FIRST_NUMBER, self.line);
        }
        if tokens.sees_in(self.line, &FIRST_TRUTH) {
            return truth(tokens, &FIRST_TRUTH, self.line);
        }
        if tokens.sees_in(self.line, &FIRST_SPAN) {
            return span(tokens, &FIRST_SPAN, self.line);
        }
        self.named_operand(tokens, &FIRST_NAME)
    }

    /// What follows `-` or NOT.
    #[tactic(auto, unfolding(crate::specs::Expressions::signed))]
    fn signed(
        &self,
        tokens: &mut Reader<'_>,
        sign: UnOp,
        token: &Token,
    ) -> Result<(Expr, u32), Stop>
        requires nests { Nests self.now.room (F.pre self.now.nested) (F.post self.now.nested) }
        requires opened { 0 < self.now.room }
        ensures value { Reads ((spec.signed sign self.now.line (deep self.now.room) token.now).run tokens.old) result tokens.new }
        ensures low { IfOk result (λ x. x.1 ≤ self.now.room) }
    {
        let (inner, height) = self.nested(tokens, under_sign(sign), self.line)?;
        Ok((
            Expr::Unary {
                op: sign,
                at: token.place,
                inner: Boxed::new(self.alloc, inner)?,
            },
            height + 1,
        ))
    }

    #[tactic(auto, unfolding(crate::specs::Expressions::unary))]
    fn unary(&self, tokens: &mut Reader<'_>) -> Result<(Expr, u32), Stop>
        requires nests { Nests self.now.room (F.pre self.now.nested) (F.post self.now.nested) }
        ensures value { Reads ((spec.unary self.now.line self.now.room (deep self.now.room)).run tokens.old) result tokens.new }
        ensures low { IfOk result (λ x. x.1 ≤ self.now.room) }
    {
        if tokens.sees_two_in(self.line, &MINUS, &INTEGER) {
            return negative(tokens, &MINUS, self.line);
        }
        if tokens.sees_in(self.line, &MINUS) {
            let sign = tokens.enter_in(self.line, self.room, 0, &MINUS)?;
            return self.signed(tokens, UnOp::Minus, sign);
        }
        if tokens.sees_in(self.line, &NOT) {
            let word = tokens.enter_in(self.line, self.room, 0, &NOT)?;
            return self.signed(tokens, UnOp::Not, word);
        }
        self.primary(tokens)
    }

    #[tactic(auto, unfolding(crate::specs::Expressions::side_rest))]
    fn side_rest(
        &self,
        tokens: &mut Reader<'_>,
        level: Level,
        left: Expr,
        height: u32,
        token: &Token,
    ) -> Result<(Expr, u32), Stop>
        requires nests { Nests self.now.room (F.pre self.now.nested) (F.post self.now.nested) }
        requires height { height < self.now.room }
        ensures value { Reads ((spec.side_rest level self.now.line (deep self.now.room) (left, height) token.now).run tokens.old) result tokens.new }
        ensures low { IfOk result (λ x. x.1 ≤ self.now.room) }
    {
        let (right, its) = self.nested(tokens, side_of(level), self.line)?;
        binary(self.alloc, left, height, token, right, its, self.room)
    }

    #[tactic(auto, unfolding(crate::specs::Expressions::next_side))]
    fn next_side(
        &self,
        tokens: &mut Reader<'_>,
        level: Level,
        left: Expr,
        height: u32,
    ) -> Result<(Expr, u32), Stop>
        requires nests { Nests self.now.room (F.pre self.now.nested) (F.post self.now.nested) }
        requires height { height ≤ self.now.room }
        ensures value { Reads ((spec.next_side level self.now.line self.now.room (deep self.now.room) (left, height)).run tokens.old) result tokens.new }
        ensures low { IfOk result (λ x. x.1 ≤ self.now.room) }
    {
        let token = tokens.enter_in(self.line, self.room, height, operators(level))?;
        self.side_rest(tokens, level, left, height, token)
    }

    #[tactic(auto, using(phrase::proofs::Loops::going_starts, phrase::proofs::Loops::going_on, phrase::proofs::Loops::going_fails, phrase::proofs::Loops::going_stops, phrase::proofs::Loops::going_ends))]
    fn more_sides(
        &self,
        tokens: &mut Reader<'_>,
        level: Level,
        mut left: Expr,
        mut height: u32,
    ) -> Result<(Expr, u32), Stop>
        requires nests { Nests self.now.room (F.pre self.now.nested) (F.post self.now.nested) }
        requires height { height ≤ self.now.room }
        ensures value { Reads ((many (spec.joining level) (spec.next_side level self.now.line self.now.room (deep self.now.room)) (left, height)).run tokens.old) result tokens.new }
        ensures low { IfOk result (λ x. x.1 ≤ self.now.room) }
    {
        for _turn in 0..tokens.left() {
            if !tokens.sees_in(self.line, operators(level)) {
                return Ok((left, height));
            }
            (left, height) = self.next_side(tokens, level, left, height)?;
        }
        Ok((left, height))
    }

    /// An expression of a level.
    #[tactic(auto, unfolding(crate::specs::Expressions::layered))]
    fn at_level(&self, tokens: &mut Reader<'_>, level: Level) -> Result<(Expr, u32), Stop>
        requires nests { Nests self.now.room (F.pre self.now.nested) (F.post self.now.nested) }
        ensures value { Reads ((standing level self.now.line self.now.room (deep self.now.room)).run tokens.old) result tokens.new }
        ensures low { IfOk result (λ x. x.1 ≤ self.now.room) }
    {
        match level {
            Level::Unary => self.unary(tokens),
            Level::Primary => self.primary(tokens),
            Level::Other => self.other(tokens),
            _ => {
                let (first, height) = self.at_level(tokens, side_of(level))?;
                self.more_sides(tokens, level, first, height)
            }
        }
    }
}

/// The expression of a level at the front, where `room` more nodes may open.
pub fn read(
    alloc: Global,
    tokens: &mut Reader<'_>,
    room: u32,
    level: Level,
    line: bool,
) -> Result<(Expr, u32), Stop>
    ensures value { Reads ((standing level line room (deep room)).run tokens.old) result tokens.new }
    ensures low { IfOk result (λ x. x.1 ≤ room) }
{
    Expressions {
        alloc,
        room,
        line,
        nested: read,
    }
    .at_level(tokens, level)
}

/// The expression of a level at the front, under one more node.
#[tactic(auto, using(crate::proofs::Stands::stands))]
pub fn under_node(
    alloc: Global,
    tokens: &mut Reader<'_>,
    room: u32,
    level: Level,
    line: bool,
) -> Result<(Expr, u32), Stop>
    requires { 0 < room }
    ensures value { Reads (((deep room).operand level line).run tokens.old) result tokens.new }
    ensures low { IfOk result (λ x. x.1 < room) }
{
    read(alloc, tokens, room - 1, level, line)
}

/// The path at the front, whose first token is of these sorts.
pub fn path(
    alloc: Global,
    tokens: &mut Reader<'_>,
    sorts: &[Seen],
    room: u32,
    line: bool,
) -> Result<(Path, u32), Stop>
    ensures value { Reads ((spec.path sorts.now line room (deep room)).run tokens.old) result tokens.new }
{
    Expressions {
        alloc,
        room,
        line,
        nested: read,
    }
    .path(tokens, sorts)
}

/// What follows the name of a call and `(`.
pub fn call_rest(
    alloc: Global,
    tokens: &mut Reader<'_>,
    room: u32,
    line: bool,
) -> Result<(Items<Arg>, u32), Stop>
    requires { 0 < room }
    ensures { Reads ((spec.call_rest line (deep room)).run tokens.old) result tokens.new }
{
    Expressions {
        alloc,
        room,
        line,
        nested: read,
    }
    .call_rest(tokens)
}

/// The arguments at the front, one at least.
pub fn args(alloc: Global, tokens: &mut Reader<'_>, room: u32) -> Result<(Items<Arg>, u32), Stop>
    requires { 0 < room }
    ensures value { Reads ((spec.args (deep room)).run tokens.old) result tokens.new }
{
    Expressions {
        alloc,
        room,
        line: false,
        nested: read,
    }
    .args(tokens)
}

/// The operand of an instruction at the front.
pub fn operand(
    alloc: Global,
    tokens: &mut Reader<'_>,
    room: u32,
    line: bool,
) -> Result<(Expr, u32), Stop>
    ensures value { Reads ((spec.operand line room (deep room)).run tokens.old) result tokens.new }
{
    Expressions {
        alloc,
        room,
        line,
        nested: read,
    }
    .operand(tokens)
}
