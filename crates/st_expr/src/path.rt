//! Paths of variables.
ghost use Rattle.std.specs.Prelude.{◌≡◌, ◌<◌, ◌≤◌, IfOk};
ghost use Rattle.phrase.specs.Piece.{many};
ghost use Rattle.phrase.specs.Reads.{Reads};
ghost use Rattle.plc_tokens.specs.Sets.{COMMA, PARTS};
ghost use Rattle.st_expr.specs.Depth.{deep};
ghost use Rattle.st_expr.specs.Expressions as spec;
ghost use Rattle.st_expr.specs.Nests.{Nests};

use crate::expression::Expressions;
use crate::level::Level;
use crate::token_name::token_name;
use phrase::Stop;
use plc_tokens::Token;
use plc_tokens::reader::Reader;
use plc_tokens::sets::{COMMA, DOT, LBRACKET, NAME, PARTS, RBRACKET};
use plc_tokens::sort::Seen;
use plc_tree::tree::{Expr, Part, Path};
use sqlite_items::Items;
use std::alloc::Global;

#[tactic(auto, unfolding(crate::specs::Expressions::field))]
fn field(
    alloc: Global,
    tokens: &mut Reader<'_>,
    line: bool,
    mut parts: Items<Part>,
    height: u32,
) -> Result<(Items<Part>, u32), Stop>
    ensures value { Reads ((spec.field line (parts, height)).run tokens.old) result tokens.new }
    ensures low { IfOk result (λ x. x.1 ≡ height) }
{
    let dot = tokens.take_in(line, &DOT)?.place;
    let token = tokens.take_in(line, &NAME)?;
    let name = token_name(alloc, token)?;
    parts.push(Part::Field {
        name,
        at: token.place,
        dot,
    })?;
    Ok((parts, height))
}

impl<
    F: Fn(Global, &mut Reader<'_>, u32, Level, bool) -> Result<(Expr, u32), Stop> + Copy,
> Expressions<F> {
    #[tactic(auto, unfolding(crate::specs::Expressions::next_expr))]
    fn next_expr(
        &self,
        tokens: &mut Reader<'_>,
        mut list: Items<Expr>,
        height: u32,
    ) -> Result<(Items<Expr>, u32), Stop>
        requires nests { Nests self.now.room (F.pre self.now.nested) (F.post self.now.nested) }
        requires height { height < self.now.room }
        ensures value { Reads ((spec.next_expr self.now.line (deep self.now.room) (list, height)).run tokens.old) result tokens.new }
        ensures low { IfOk result (λ x. x.1 < self.now.room) }
    {
        tokens.take_in(self.line, &COMMA)?;
        let (next, its) = self.nested(tokens, Level::Whole, self.line)?;
        list.push(next)?;
        Ok((list, height.max(its)))
    }

    #[tactic(auto, using(phrase::proofs::Loops::going_starts, phrase::proofs::Loops::going_on, phrase::proofs::Loops::going_fails, phrase::proofs::Loops::going_stops, phrase::proofs::Loops::going_ends))]
    fn more_exprs(
        &self,
        tokens: &mut Reader<'_>,
        mut list: Items<Expr>,
        mut height: u32,
    ) -> Result<(Items<Expr>, u32), Stop>
        requires nests { Nests self.now.room (F.pre self.now.nested) (F.post self.now.nested) }
        requires height { height < self.now.room }
        ensures value { Reads ((many COMMA (spec.next_expr self.now.line (deep self.now.room)) (list, height)).run tokens.old) result tokens.new }
        ensures low { IfOk result (λ x. x.1 < self.now.room) }
    {
        for _turn in 0..tokens.left() {
            if !tokens.sees_in(self.line, &COMMA) {
                return Ok((list, height));
            }
            (list, height) = self.next_expr(tokens, list, height)?;
        }
        Ok((list, height))
    }

    #[tactic(auto, unfolding(crate::specs::Expressions::exprs))]
    fn exprs(&self, tokens: &mut Reader<'_>) -> Result<(Items<Expr>, u32), Stop>
        requires nests { Nests self.now.room (F.pre self.now.nested) (F.post self.now.nested) }
        requires opened { 0 < self.now.room }
        ensures value { Reads ((spec.exprs self.now.line (deep self.now.room)).run tokens.old) result tokens.new }
        ensures low { IfOk result (λ x. x.1 < self.now.room) }
    {
        let (first, height) = self.nested(tokens, Level::Whole, self.line)?;
        let mut list = Items::new(self.alloc);
        list.push(first)?;
        self.more_exprs(tokens, list, height)
    }

    #[tactic(auto, unfolding(crate::specs::Expressions::index_rest))]
    fn index_rest(
        &self,
        tokens: &mut Reader<'_>,
        mut parts: Items<Part>,
        height: u32,
        first: &Token,
    ) -> Result<(Items<Part>, u32), Stop>
        requires nests { Nests self.now.room (F.pre self.now.nested) (F.post self.now.nested) }
        requires opened { 0 < self.now.room }
        requires height { height ≤ self.now.room }
        ensures value { Reads ((spec.index_rest self.now.line (deep self.now.room) (parts, height) first.now).run tokens.old) result tokens.new }
        ensures low { IfOk result (λ x. x.1 ≤ self.now.room) }
    {
        let (list, its) = self.exprs(tokens)?;
        tokens.take_in(self.line, &RBRACKET)?;
        parts.push(Part::Index {
            list,
            at: first.place,
        })?;
        Ok((parts, height.max(its + 1)))
    }

    #[tactic(auto, unfolding(crate::specs::Expressions::part))]
    fn part(
        &self,
        tokens: &mut Reader<'_>,
        parts: Items<Part>,
        height: u32,
    ) -> Result<(Items<Part>, u32), Stop>
        requires nests { Nests self.now.room (F.pre self.now.nested) (F.post self.now.nested) }
        requires height { height ≤ self.now.room }
        ensures value { Reads ((spec.part self.now.line self.now.room (deep self.now.room) (parts, height)).run tokens.old) result tokens.new }
        ensures low { IfOk result (λ x. x.1 ≤ self.now.room) }
    {
        if tokens.sees_in(self.line, &LBRACKET) {
            let first = tokens.enter_in(self.line, self.room, 0, &LBRACKET)?;
            return self.index_rest(tokens, parts, height, first);
        }
        field(self.alloc, tokens, self.line, parts, height)
    }

    #[tactic(auto, using(phrase::proofs::Loops::going_starts, phrase::proofs::Loops::going_on, phrase::proofs::Loops::going_fails, phrase::proofs::Loops::going_stops, phrase::proofs::Loops::going_ends))]
    fn more_parts(
        &self,
        tokens: &mut Reader<'_>,
        mut parts: Items<Part>,
        mut height: u32,
    ) -> Result<(Items<Part>, u32), Stop>
        requires nests { Nests self.now.room (F.pre self.now.nested) (F.post self.now.nested) }
        requires height { height ≤ self.now.room }
        ensures value { Reads ((many PARTS (spec.part self.now.line self.now.room (deep self.now.room)) (parts, height)).run tokens.old) result tokens.new }
        ensures low { IfOk result (λ x. x.1 ≤ self.now.room) }
    {
        for _turn in 0..tokens.left() {
            if !tokens.sees_in(self.line, &PARTS) {
                return Ok((parts, height));
            }
            (parts, height) = self.part(tokens, parts, height)?;
        }
        Ok((parts, height))
    }

    /// A path, whose first token is of these sorts.
    #[tactic(auto, unfolding(crate::specs::Expressions::path))]
    pub fn path(&self, tokens: &mut Reader<'_>, sorts: &[Seen]) -> Result<(Path, u32), Stop>
        requires nests { Nests self.now.room (F.pre self.now.nested) (F.post self.now.nested) }
        ensures value { Reads ((spec.path sorts.now self.now.line self.now.room (deep self.now.room)).run tokens.old) result tokens.new }
        ensures low { IfOk result (λ x. x.1 ≤ self.now.room) }
    {
        let token = tokens.take_in(self.line, sorts)?;
        let (parts, height) = self.more_parts(tokens, Items::new(self.alloc), 0)?;
        let first = token_name(self.alloc, token)?;
        Ok((
            Path {
                first,
                at: token.place,
                parts,
            },
            height,
        ))
    }
}
