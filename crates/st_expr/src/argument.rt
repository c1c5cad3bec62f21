//! The arguments of calls.
ghost use Rattle.std.specs.Prelude.{◌<◌, ◌≤◌, IfOk};
ghost use Rattle.phrase.specs.Piece.{many};
ghost use Rattle.phrase.specs.Reads.{Reads};
ghost use Rattle.plc_tokens.specs.Sets.{COMMA};
ghost use Rattle.st_expr.specs.Depth.{deep};
ghost use Rattle.st_expr.specs.Expressions as spec;
ghost use Rattle.st_expr.specs.Nests.{Nests};

use crate::expression::Expressions;
use crate::level::Level;
use crate::token_name::token_name;
use phrase::Stop;
use plc_tokens::Token;
use plc_tokens::reader::Reader;
use plc_tokens::sets::{ARROW, ASSIGN, COMMA, FIRST_EXPR, NAME, NOT, RPAREN};
use plc_tree::tree::{Arg, Expr, Path};
use sqlite_items::Items;
use std::alloc::Global;

impl<
    F: Fn(Global, &mut Reader<'_>, u32, Level, bool) -> Result<(Expr, u32), Stop> + Copy,
> Expressions<F> {
    /// The path behind `=>`, which stands under the node of the call.
    #[tactic(auto, using(crate::proofs::Stands::stands_path))]
    fn out_path(&self, tokens: &mut Reader<'_>) -> Result<(Path, u32), Stop>
        requires nests { Nests self.now.room (F.pre self.now.nested) (F.post self.now.nested) }
        requires opened { 0 < self.now.room }
        ensures value { Reads ((deep self.now.room).path.run tokens.old) result tokens.new }
        ensures low { IfOk result (λ x. x.1 < self.now.room) }
    {
        Expressions {
            room: self.room - 1,
            line: false,
            ..*self
        }
        .path(tokens, &NAME)
    }

    #[tactic(auto, unfolding(crate::specs::Expressions::plain))]
    fn plain(&self, tokens: &mut Reader<'_>) -> Result<(Arg, u32), Stop>
        requires nests { Nests self.now.room (F.pre self.now.nested) (F.post self.now.nested) }
        requires opened { 0 < self.now.room }
        ensures value { Reads ((spec.plain (deep self.now.room)).run tokens.old) result tokens.new }
        ensures low { IfOk result (λ x. x.1 < self.now.room) }
    {
        let (value, height) = self.nested(tokens, Level::Whole, false)?;
        Ok((Arg::Plain(value), height))
    }

    #[tactic(auto, unfolding(crate::specs::Expressions::named_rest))]
    fn named_rest(&self, tokens: &mut Reader<'_>, token: &Token) -> Result<(Arg, u32), Stop>
        requires nests { Nests self.now.room (F.pre self.now.nested) (F.post self.now.nested) }
        requires opened { 0 < self.now.room }
        ensures value { Reads ((spec.named_rest (deep self.now.room) token.now).run tokens.old) result tokens.new }
        ensures low { IfOk result (λ x. x.1 < self.now.room) }
    {
        tokens.take(&ASSIGN)?;
        let (value, height) = self.nested(tokens, Level::Whole, false)?;
        let name = token_name(self.alloc, token)?;
        Ok((
            Arg::Named {
                name,
                at: token.place,
                value,
            },
            height,
        ))
    }

    #[tactic(auto, unfolding(crate::specs::Expressions::named))]
    fn named(&self, tokens: &mut Reader<'_>) -> Result<(Arg, u32), Stop>
        requires nests { Nests self.now.room (F.pre self.now.nested) (F.post self.now.nested) }
        requires opened { 0 < self.now.room }
        ensures value { Reads ((spec.named (deep self.now.room)).run tokens.old) result tokens.new }
        ensures low { IfOk result (λ x. x.1 < self.now.room) }
    {
        let token = tokens.take(&NAME)?;
        self.named_rest(tokens, token)
    }

    #[tactic(auto, unfolding(crate::specs::Expressions::out_rest))]
    fn out_rest(
        &self,
        tokens: &mut Reader<'_>,
        negate: bool,
        token: &Token,
    ) -> Result<(Arg, u32), Stop>
        requires nests { Nests self.now.room (F.pre self.now.nested) (F.post self.now.nested) }
        requires opened { 0 < self.now.room }
        ensures value { Reads ((spec.out_rest (deep self.now.room) negate token.now).run tokens.old) result tokens.new }
        ensures low { IfOk result (λ x. x.1 < self.now.room) }
    {
        tokens.take(&ARROW)?;
        let (to, height) = self.out_path(tokens)?;
        let name = token_name(self.alloc, token)?;
        Ok((
            Arg::Out {
                negate,
                name,
                at: token.place,
                to,
            },
            height,
        ))
    }

    #[tactic(auto, unfolding(crate::specs::Expressions::out))]
    fn out(&self, tokens: &mut Reader<'_>) -> Result<(Arg, u32), Stop>
        requires nests { Nests self.now.room (F.pre self.now.nested) (F.post self.now.nested) }
        requires opened { 0 < self.now.room }
        ensures value { Reads ((spec.out (deep self.now.room)).run tokens.old) result tokens.new }
        ensures low { IfOk result (λ x. x.1 < self.now.room) }
    {
        let token = tokens.take(&NAME)?;
        self.out_rest(tokens, false, token)
    }

    #[tactic(auto, unfolding(crate::specs::Expressions::not_out))]
    fn not_out(&self, tokens: &mut Reader<'_>) -> Result<(Arg, u32), Stop>
        requires nests { Nests self.now.room (F.pre self.now.nested) (F.post self.now.nested) }
        requires opened { 0 < self.now.room }
        ensures value { Reads ((spec.not_out (deep self.now.room)).run tokens.old) result tokens.new }
        ensures low { IfOk result (λ x. x.1 < self.now.room) }
    {
        tokens.take(&NOT)?;
        let token = tokens.take(&NAME)?;
        self.out_rest(tokens, true, token)
    }

    #[tactic(auto, unfolding(crate::specs::Expressions::named_or_plain))]
    fn named_or_plain(&self, tokens: &mut Reader<'_>) -> Result<(Arg, u32), Stop>
        requires nests { Nests self.now.room (F.pre self.now.nested) (F.post self.now.nested) }
        requires opened { 0 < self.now.room }
        ensures value { Reads ((spec.named_or_plain (deep self.now.room)).run tokens.old) result tokens.new }
        ensures low { IfOk result (λ x. x.1 < self.now.room) }
    {
        if tokens.sees_two(&NAME, &ASSIGN) {
            self.named(tokens)
        } else {
            self.plain(tokens)
        }
    }

    #[tactic(auto, unfolding(crate::specs::Expressions::out_or_in))]
    fn out_or_in(&self, tokens: &mut Reader<'_>) -> Result<(Arg, u32), Stop>
        requires nests { Nests self.now.room (F.pre self.now.nested) (F.post self.now.nested) }
        requires opened { 0 < self.now.room }
        ensures value { Reads ((spec.out_or_in (deep self.now.room)).run tokens.old) result tokens.new }
        ensures low { IfOk result (λ x. x.1 < self.now.room) }
    {
        if tokens.sees_two(&NAME, &ARROW) {
            self.out(tokens)
        } else {
            self.named_or_plain(tokens)
        }
    }

    #[tactic(auto, unfolding(crate::specs::Expressions::arg))]
    fn arg(&self, tokens: &mut Reader<'_>) -> Result<(Arg, u32), Stop>
        requires nests { Nests self.now.room (F.pre self.now.nested) (F.post self.now.nested) }
        requires opened { 0 < self.now.room }
        ensures value { Reads ((spec.arg (deep self.now.room)).run tokens.old) result tokens.new }
        ensures low { IfOk result (λ x. x.1 < self.now.room) }
    {
        if tokens.sees_three(&NOT, &NAME, &ARROW) {
            self.not_out(tokens)
        } else {
            self.out_or_in(tokens)
        }
    }

    #[tactic(auto, unfolding(crate::specs::Expressions::next_arg))]
    fn next_arg(
        &self,
        tokens: &mut Reader<'_>,
        mut list: Items<Arg>,
        height: u32,
    ) -> Result<(Items<Arg>, u32), Stop>
        requires nests { Nests self.now.room (F.pre self.now.nested) (F.post self.now.nested) }
        requires height { height < self.now.room }
        ensures value { Reads ((spec.next_arg (deep self.now.room) (list, height)).run tokens.old) result tokens.new }
        ensures low { IfOk result (λ x. x.1 < self.now.room) }
    {
        tokens.take(&COMMA)?;
        let (next, its) = self.arg(tokens)?;
        list.push(next)?;
        Ok((list, height.max(its)))
    }

    #[tactic(auto, using(phrase::proofs::Loops::going_starts, phrase::proofs::Loops::going_on, phrase::proofs::Loops::going_fails, phrase::proofs::Loops::going_stops, phrase::proofs::Loops::going_ends))]
    fn more_args(
        &self,
        tokens: &mut Reader<'_>,
        mut list: Items<Arg>,
        mut height: u32,
    ) -> Result<(Items<Arg>, u32), Stop>
        requires nests { Nests self.now.room (F.pre self.now.nested) (F.post self.now.nested) }
        requires height { height < self.now.room }
        ensures value { Reads ((many COMMA (spec.next_arg (deep self.now.room)) (list, height)).run tokens.old) result tokens.new }
        ensures low { IfOk result (λ x. x.1 < self.now.room) }
    {
        for _turn in 0..tokens.left() {
            if !tokens.sees(&COMMA) {
                return Ok((list, height));
            }
            (list, height) = self.next_arg(tokens, list, height)?;
        }
        Ok((list, height))
    }

    /// The arguments of a call, one at least.
    #[tactic(auto, unfolding(crate::specs::Expressions::args))]
    pub fn args(&self, tokens: &mut Reader<'_>) -> Result<(Items<Arg>, u32), Stop>
        requires nests { Nests self.now.room (F.pre self.now.nested) (F.post self.now.nested) }
        requires opened { 0 < self.now.room }
        ensures value { Reads ((spec.args (deep self.now.room)).run tokens.old) result tokens.new }
        ensures low { IfOk result (λ x. x.1 < self.now.room) }
    {
        let (first, height) = self.arg(tokens)?;
        let mut list = Items::new(self.alloc);
        list.push(first)?;
        self.more_args(tokens, list, height)
    }

    #[tactic(auto, unfolding(crate::specs::Expressions::args_if_any))]
    fn args_if_any(&self, tokens: &mut Reader<'_>) -> Result<(Items<Arg>, u32), Stop>
        requires nests { Nests self.now.room (F.pre self.now.nested) (F.post self.now.nested) }
        requires opened { 0 < self.now.room }
        ensures value { Reads ((spec.args_if_any (deep self.now.room)).run tokens.old) result tokens.new }
        ensures low { IfOk result (λ x. x.1 < self.now.room) }
    {
        if tokens.sees(&FIRST_EXPR) {
            self.args(tokens)
        } else {
            Ok((Items::new(self.alloc), 0))
        }
    }

    /// What follows the name of a call and `(`.
    #[tactic(auto, unfolding(crate::specs::Expressions::call_rest))]
    pub fn call_rest(&self, tokens: &mut Reader<'_>) -> Result<(Items<Arg>, u32), Stop>
        requires nests { Nests self.now.room (F.pre self.now.nested) (F.post self.now.nested) }
        requires opened { 0 < self.now.room }
        ensures value { Reads ((spec.call_rest self.now.line (deep self.now.room)).run tokens.old) result tokens.new }
        ensures low { IfOk result (λ x. x.1 ≤ self.now.room) }
    {
        let (list, height) = self.args_if_any(tokens)?;
        tokens.take_in(self.line, &RPAREN)?;
        Ok((list, height + 1))
    }
}
