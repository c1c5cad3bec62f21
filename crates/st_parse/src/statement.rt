//! Statements.
ghost use Rattle.std.specs.Prelude.{◌≡◌, ◌<◌};
ghost use Rattle.phrase.specs.Piece.{many};
ghost use Rattle.phrase.specs.Reads.{OnlyMemory, Reads};
ghost use Rattle.plc_tokens.specs.Sets.{ELSIF, FIRST_ITEM, FIRST_STMT};
ghost use Rattle.st_parse.specs.Depth.{nested, stmt_under};
ghost use Rattle.st_parse.specs.Nests.{Nests};
ghost use Rattle.st_parse.specs.Statements as spec;

use crate::for_list::ForList;
use crate::group::{Group, begun, group_end, longer, next_group};
use crate::label::{labels, number_labels, value_labels};
use phrase::Stop;
use plc_tokens::Token;
use plc_tokens::reader::Reader;
use plc_tokens::sets::{
    ASSIGN, BY, CASE, DO, ELSE, ELSIF, END_CASE, END_FOR, END_IF, END_REPEAT, END_WHILE, EXIT,
    FIRST_ITEM, FIRST_STMT, FOR, IF, LABELLED, LPAREN, NAME, OF, REPEAT, RETURN, SEMI, SIGNED,
    THEN, TO, UNTIL, WHILE,
};
use plc_tokens::sort::Seen;
use plc_tree::tree::{Arm, Choice, Expr, Path, Stmt};
use sqlite_items::Items;
use st_expr::expression::{call_rest, path, read, under_node};
use st_expr::level::Level;
use st_expr::token_name::token_name;
use std::alloc::Global;

#[tactic(auto, unfolding(crate::specs::Statements::number_item))]
fn number_item(alloc: Global, tokens: &mut Reader<'_>, group: Group) -> Result<Group, Stop>
    ensures value { Reads ((spec.number_item group).run tokens.old) result tokens.new }
{
    let labels = number_labels(alloc, tokens)?;
    next_group(alloc, group, labels)
}

#[tactic(auto, unfolding(crate::specs::Statements::value_item))]
fn value_item(
    alloc: Global,
    tokens: &mut Reader<'_>,
    group: Group,
    name: &Token,
) -> Result<Group, Stop>
    ensures value { Reads ((spec.value_item group name.now).run tokens.old) result tokens.new }
{
    let labels = value_labels(alloc, tokens, name)?;
    next_group(alloc, group, labels)
}

#[tactic(auto, unfolding(crate::specs::Statements::named_item))]
fn named_item(alloc: Global, tokens: &mut Reader<'_>, group: Group) -> Result<Group, Stop>
    ensures value { Reads ((spec.named_item group).run tokens.old) result tokens.new }
{
    let name = tokens.take(&NAME)?;
    value_item(alloc, tokens, group, name)
}

#[tactic(auto, unfolding(crate::specs::Statements::step))]
fn step(alloc: Global, tokens: &mut Reader<'_>, room: u32) -> Result<Option<Expr>, Stop>
    requires { 0 < room }
    ensures value { Reads ((spec.step (nested room)).run tokens.old) result tokens.new }
{
    tokens.take(&BY)?;
    let (step, _) = under_node(alloc, tokens, room, Level::Whole, false)?;
    Ok(Some(step))
}

#[tactic(auto, unfolding(crate::specs::Statements::step_if_any))]
fn step_if_any(alloc: Global, tokens: &mut Reader<'_>, room: u32) -> Result<Option<Expr>, Stop>
    requires { 0 < room }
    ensures value { Reads ((spec.step_if_any (nested room)).run tokens.old) result tokens.new }
{
    if tokens.sees(&BY) {
        step(alloc, tokens, room)
    } else {
        Ok(None)
    }
}

fn variable_of(alloc: Global, name: &Token) -> Result<Path, Stop>
    ensures { OnlyMemory result (spec.variable_of name.now) }
{
    Ok(Path {
        first: token_name(alloc, name)?,
        at: name.place,
        parts: Items::new(alloc),
    })
}

#[tactic(auto, unfolding(crate::specs::Statements::for_list))]
fn for_list(alloc: Global, tokens: &mut Reader<'_>, room: u32) -> Result<ForList, Stop>
    requires { 0 < room }
    ensures value { Reads ((spec.for_list (nested room)).run tokens.old) result tokens.new }
{
    let (start, _) = under_node(alloc, tokens, room, Level::Whole, false)?;
    tokens.take(&TO)?;
    let (limit, _) = under_node(alloc, tokens, room, Level::Whole, false)?;
    let step = step_if_any(alloc, tokens, room)?;
    Ok(ForList { start, limit, step })
}

fn for_stmt(alloc: Global, name: &Token, range: ForList, body: Items<Stmt>) -> Result<Stmt, Stop>
    ensures { OnlyMemory result (spec.for_of name.now range body) }
{
    Ok(Stmt::For {
        var: variable_of(alloc, name)?,
        start: range.start,
        limit: range.limit,
        step: range.step,
        body,
    })
}

#[tactic(auto, unfolding(crate::specs::Statements::empty_stmt))]
fn empty_stmt(tokens: &mut Reader<'_>) -> Result<Stmt, Stop>
    ensures value { Reads (spec.empty_stmt.run tokens.old) result tokens.new }
{
    tokens.take(&SEMI)?;
    Ok(Stmt::Empty)
}

#[tactic(auto, unfolding(crate::specs::Statements::exit_stmt))]
fn exit_stmt(tokens: &mut Reader<'_>) -> Result<Stmt, Stop>
    ensures value { Reads (spec.exit_stmt.run tokens.old) result tokens.new }
{
    let word = tokens.take(&EXIT)?;
    tokens.take(&SEMI)?;
    Ok(Stmt::Exit(word.place))
}

#[tactic(auto, unfolding(crate::specs::Statements::return_stmt))]
fn return_stmt(tokens: &mut Reader<'_>) -> Result<Stmt, Stop>
    ensures value { Reads (spec.return_stmt.run tokens.old) result tokens.new }
{
    let word = tokens.take(&RETURN)?;
    tokens.take(&SEMI)?;
    Ok(Stmt::Return(word.place))
}

#[tactic(auto, unfolding(crate::specs::Statements::call_stmt))]
fn call_stmt(alloc: Global, tokens: &mut Reader<'_>, room: u32, name: &Token) -> Result<Stmt, Stop>
    requires { 0 < room }
    ensures value { Reads ((spec.call_stmt (nested room) name.now).run tokens.old) result tokens.new }
{
    let (args, _) = call_rest(alloc, tokens, room, false)?;
    tokens.take(&SEMI)?;
    Ok(Stmt::Call {
        name: token_name(alloc, name)?,
        at: name.place,
        args,
    })
}

#[tactic(auto, unfolding(crate::specs::Statements::set_stmt))]
fn set_stmt(alloc: Global, tokens: &mut Reader<'_>, room: u32) -> Result<Stmt, Stop>
    ensures value { Reads ((spec.set_stmt room (nested room)).run tokens.old) result tokens.new }
{
    let (to, _) = path(alloc, tokens, &NAME, room, false)?;
    tokens.take(&ASSIGN)?;
    let (from, _) = read(alloc, tokens, room, Level::Whole, false)?;
    tokens.take(&SEMI)?;
    Ok(Stmt::Set { to, from })
}

#[tactic(auto, unfolding(crate::specs::Statements::called_or_set))]
fn called_or_set(alloc: Global, tokens: &mut Reader<'_>, room: u32) -> Result<Stmt, Stop>
    ensures value { Reads ((spec.called_or_set room (nested room)).run tokens.old) result tokens.new }
{
    if tokens.sees_two(&NAME, &LPAREN) {
        let name = tokens.enter(room, 0, &NAME)?;
        tokens.take(&LPAREN)?;
        return call_stmt(alloc, tokens, room, name);
    }
    set_stmt(alloc, tokens, room)
}

/// The statements at a place.
#[derive(Clone, Copy)]
pub struct Statements<F> {
    pub alloc: Global,
    /// How many more nodes may open here.
    pub room: u32,
    /// What reads a statement under one more node.
    pub nested: F,
}

impl<F: Fn(Global, &mut Reader<'_>, u32) -> Result<Stmt, Stop>> Statements<F> {
    fn nested(&self, tokens: &mut Reader<'_>) -> Result<Stmt, Stop>
        requires nests { Nests self.now.room (F.pre self.now.nested) (F.post self.now.nested) }
        requires room { 0 < self.now.room }
        ensures value { Reads ((stmt_under self.now.room).run tokens.old) result tokens.new }
    {
        (self.nested)(self.alloc, tokens, self.room - 1)
    }

    #[tactic(auto, unfolding(crate::specs::Statements::next_stmt))]
    fn next_stmt(&self, tokens: &mut Reader<'_>, mut list: Items<Stmt>) -> Result<Items<Stmt>, Stop>
        requires nests { Nests self.now.room (F.pre self.now.nested) (F.post self.now.nested) }
        requires room { 0 < self.now.room }
        ensures value { Reads ((spec.next_stmt (nested self.now.room) list).run tokens.old) result tokens.new }
    {
        let next = self.nested(tokens)?;
        list.push(next)?;
        Ok(list)
    }

    #[tactic(auto, using(phrase::proofs::Loops::going_starts, phrase::proofs::Loops::going_on, phrase::proofs::Loops::going_fails, phrase::proofs::Loops::going_stops, phrase::proofs::Loops::going_ends))]
    fn more_stmts(
        &self,
        tokens: &mut Reader<'_>,
        mut list: Items<Stmt>,
    ) -> Result<Items<Stmt>, Stop>
        requires nests { Nests self.now.room (F.pre self.now.nested) (F.post self.now.nested) }
        requires room { 0 < self.now.room }
        ensures value { Reads ((many FIRST_STMT (spec.next_stmt (nested self.now.room)) list).run tokens.old) result tokens.new }
    {
        for _turn in 0..tokens.left() {
            if !tokens.sees(&FIRST_STMT) {
                return Ok(list);
            }
            list = self.next_stmt(tokens, list)?;
        }
        Ok(list)
    }

    #[tactic(auto, unfolding(crate::specs::Statements::stmts))]
    fn stmts(&self, tokens: &mut Reader<'_>) -> Result<Items<Stmt>, Stop>
        requires nests { Nests self.now.room (F.pre self.now.nested) (F.post self.now.nested) }
        requires room { 0 < self.now.room }
        ensures value { Reads ((spec.stmts (nested self.now.room)).run tokens.old) result tokens.new }
    {
        self.more_stmts(tokens, Items::new(self.alloc))
    }

    #[tactic(auto, unfolding(crate::specs::Statements::other_stmts))]
    fn other_stmts(&self, tokens: &mut Reader<'_>) -> Result<Items<Stmt>, Stop>
        requires nests { Nests self.now.room (F.pre self.now.nested) (F.post self.now.nested) }
        requires room { 0 < self.now.room }
        ensures value { Reads ((spec.other_stmts (nested self.now.room)).run tokens.old) result tokens.new }
    {
        tokens.take(&ELSE)?;
        self.stmts(tokens)
    }

    #[tactic(auto, unfolding(crate::specs::Statements::else_if_any))]
    fn else_if_any(&self, tokens: &mut Reader<'_>) -> Result<Items<Stmt>, Stop>
        requires nests { Nests self.now.room (F.pre self.now.nested) (F.post self.now.nested) }
        requires room { 0 < self.now.room }
        ensures value { Reads ((spec.else_if_any (nested self.now.room)).run tokens.old) result tokens.new }
    {
        if tokens.sees(&ELSE) {
            self.other_stmts(tokens)
        } else {
            Ok(Items::new(self.alloc))
        }
    }

    #[tactic(auto, unfolding(crate::specs::Statements::arm))]
    fn arm(&self, tokens: &mut Reader<'_>) -> Result<Arm, Stop>
        requires nests { Nests self.now.room (F.pre self.now.nested) (F.post self.now.nested) }
        requires room { 0 < self.now.room }
        ensures value { Reads ((spec.arm (nested self.now.room)).run tokens.old) result tokens.new }
    {
        let (test, _) = under_node(self.alloc, tokens, self.room, Level::Whole, false)?;
        tokens.take(&THEN)?;
        let body = self.stmts(tokens)?;
        Ok(Arm { test, body })
    }

    #[tactic(auto, unfolding(crate::specs::Statements::next_arm))]
    fn next_arm(&self, tokens: &mut Reader<'_>, mut list: Items<Arm>) -> Result<Items<Arm>, Stop>
        requires nests { Nests self.now.room (F.pre self.now.nested) (F.post self.now.nested) }
        requires room { 0 < self.now.room }
        ensures value { Reads ((spec.next_arm (nested self.now.room) list).run tokens.old) result tokens.new }
    {
        tokens.take(&ELSIF)?;
        let next = self.arm(tokens)?;
        list.push(next)?;
        Ok(list)
    }

    #[tactic(auto, using(phrase::proofs::Loops::going_starts, phrase::proofs::Loops::going_on, phrase::proofs::Loops::going_fails, phrase::proofs::Loops::going_stops, phrase::proofs::Loops::going_ends))]
    fn more_arms(&self, tokens: &mut Reader<'_>, mut list: Items<Arm>) -> Result<Items<Arm>, Stop>
        requires nests { Nests self.now.room (F.pre self.now.nested) (F.post self.now.nested) }
        requires room { 0 < self.now.room }
        ensures value { Reads ((many ELSIF (spec.next_arm (nested self.now.room)) list).run tokens.old) result tokens.new }
    {
        for _turn in 0..tokens.left() {
            if !tokens.sees(&ELSIF) {
                return Ok(list);
            }
            list = self.next_arm(tokens, list)?;
        }
        Ok(list)
    }

    #[tactic(auto, unfolding(crate::specs::Statements::if_rest))]
    fn if_rest(&self, tokens: &mut Reader<'_>, word: &Token) -> Result<Stmt, Stop>
        requires nests { Nests self.now.room (F.pre self.now.nested) (F.post self.now.nested) }
        requires room { 0 < self.now.room }
        ensures value { Reads ((spec.if_rest (nested self.now.room) word.now).run tokens.old) result tokens.new }
    {
        let first = self.arm(tokens)?;
        let mut arms = Items::new(self.alloc);
        arms.push(first)?;
        let arms = self.more_arms(tokens, arms)?;
        let other = self.else_if_any(tokens)?;
        tokens.take(&END_IF)?;
        tokens.take(&SEMI)?;
        Ok(Stmt::If { arms, other })
    }

    #[tactic(auto, unfolding(crate::specs::Statements::stmt_item))]
    fn stmt_item(&self, tokens: &mut Reader<'_>, group: Group) -> Result<Group, Stop>
        requires nests { Nests self.now.room (F.pre self.now.nested) (F.post self.now.nested) }
        requires room { 0 < self.now.room }
        ensures value { Reads ((spec.stmt_item (nested self.now.room) group).run tokens.old) result tokens.new }
    {
        let stmt = self.nested(tokens)?;
        longer(group, stmt)
    }

    #[tactic(auto, unfolding(crate::specs::Statements::item))]
    fn item(&self, tokens: &mut Reader<'_>, group: Group) -> Result<Group, Stop>
        requires nests { Nests self.now.room (F.pre self.now.nested) (F.post self.now.nested) }
        requires room { 0 < self.now.room }
        ensures value { Reads ((spec.item (nested self.now.room) group).run tokens.old) result tokens.new }
    {
        if tokens.sees(&SIGNED) {
            return number_item(self.alloc, tokens, group);
        }
        if tokens.sees_two(&NAME, &LABELLED) {
            return named_item(self.alloc, tokens, group);
        }
        self.stmt_item(tokens, group)
    }

    #[tactic(auto, using(phrase::proofs::Loops::going_starts, phrase::proofs::Loops::going_on, phrase::proofs::Loops::going_fails, phrase::proofs::Loops::going_stops, phrase::proofs::Loops::going_ends))]
    fn more_items(&self, tokens: &mut Reader<'_>, mut group: Group) -> Result<Group, Stop>
        requires nests { Nests self.now.room (F.pre self.now.nested) (F.post self.now.nested) }
        requires room { 0 < self.now.room }
        ensures value { Reads ((many FIRST_ITEM (spec.item (nested self.now.room)) group).run tokens.old) result tokens.new }
    {
        for _turn in 0..tokens.left() {
            if !tokens.sees(&FIRST_ITEM) {
                return Ok(group);
            }
            group = self.item(tokens, group)?;
        }
        Ok(group)
    }

    #[tactic(auto, unfolding(crate::specs::Statements::items))]
    fn items(&self, tokens: &mut Reader<'_>) -> Result<Items<Choice>, Stop>
        requires nests { Nests self.now.room (F.pre self.now.nested) (F.post self.now.nested) }
        requires room { 0 < self.now.room }
        ensures value { Reads ((spec.items (nested self.now.room)).run tokens.old) result tokens.new }
    {
        let labels = labels(self.alloc, tokens)?;
        let group = self.more_items(tokens, begun(self.alloc, labels))?;
        group_end(group)
    }

    #[tactic(auto, unfolding(crate::specs::Statements::case_rest))]
    fn case_rest(&self, tokens: &mut Reader<'_>, word: &Token) -> Result<Stmt, Stop>
        requires nests { Nests self.now.room (F.pre self.now.nested) (F.post self.now.nested) }
        requires room { 0 < self.now.room }
        ensures value { Reads ((spec.case_rest (nested self.now.room) word.now).run tokens.old) result tokens.new }
    {
        let (pick, _) = under_node(self.alloc, tokens, self.room, Level::Whole, false)?;
        tokens.take(&OF)?;
        let arms = self.items(tokens)?;
        let other = self.else_if_any(tokens)?;
        tokens.take(&END_CASE)?;
        tokens.take(&SEMI)?;
        Ok(Stmt::Case { pick, arms, other })
    }

    #[tactic(auto, unfolding(crate::specs::Statements::loop_body))]
    fn loop_body(&self, tokens: &mut Reader<'_>, end: &[Seen]) -> Result<Items<Stmt>, Stop>
        requires nests { Nests self.now.room (F.pre self.now.nested) (F.post self.now.nested) }
        requires room { 0 < self.now.room }
        ensures value { Reads ((spec.loop_body end.now (nested self.now.room)).run tokens.old) result tokens.new }
    {
        tokens.take(&DO)?;
        let body = self.stmts(tokens)?;
        tokens.take(end)?;
        tokens.take(&SEMI)?;
        Ok(body)
    }

    #[tactic(auto, unfolding(crate::specs::Statements::for_rest))]
    fn for_rest(&self, tokens: &mut Reader<'_>, word: &Token) -> Result<Stmt, Stop>
        requires nests { Nests self.now.room (F.pre self.now.nested) (F.post self.now.nested) }
        requires room { 0 < self.now.room }
        ensures value { Reads ((spec.for_rest (nested self.now.room) word.now).run tokens.old) result tokens.new }
    {
        let name = tokens.take(&NAME)?;
        tokens.take(&ASSIGN)?;
        let range = for_list(self.alloc, tokens, self.room)?;
        let body = self.loop_body(tokens, &END_FOR)?;
        for_stmt(self.alloc, name, range, body)
    }

    #[tactic(auto, unfolding(crate::specs::Statements::while_rest))]
    fn while_rest(&self, tokens: &mut Reader<'_>, word: &Token) -> Result<Stmt, Stop>
        requires nests { Nests self.now.room (F.pre self.now.nested) (F.post self.now.nested) }
        requires room { 0 < self.now.room }
        ensures value { Reads ((spec.while_rest (nested self.now.room) word.now).run tokens.old) result tokens.new }
    {
        let (test, _) = under_node(self.alloc, tokens, self.room, Level::Whole, false)?;
        let body = self.loop_body(tokens, &END_WHILE)?;
        Ok(Stmt::While { test, body })
    }

    #[tactic(auto, unfolding(crate::specs::Statements::repeat_rest))]
    fn repeat_rest(&self, tokens: &mut Reader<'_>, word: &Token) -> Result<Stmt, Stop>
        requires nests { Nests self.now.room (F.pre self.now.nested) (F.post self.now.nested) }
        requires room { 0 < self.now.room }
        ensures value { Reads ((spec.repeat_rest (nested self.now.room) word.now).run tokens.old) result tokens.new }
    {
        let body = self.stmts(tokens)?;
        tokens.take(&UNTIL)?;
        let (test, _) = under_node(self.alloc, tokens, self.room, Level::Whole, false)?;
        tokens.take(&END_REPEAT)?;
        tokens.take(&SEMI)?;
        Ok(Stmt::Repeat { body, test })
    }

    #[tactic(auto, unfolding(crate::specs::Statements::one_stmt))]
    fn one_stmt(&self, tokens: &mut Reader<'_>) -> Result<Stmt, Stop>
        requires nests { Nests self.now.room (F.pre self.now.nested) (F.post self.now.nested) }
        ensures value { Reads ((spec.one_stmt self.now.room (nested self.now.room)).run tokens.old) result tokens.new }
    {
        if tokens.sees(&SEMI) {
            return empty_stmt(tokens);
        }
        if tokens.sees(&IF) {
            let word = tokens.enter(self.room, 0, &IF)?;
            return self.if_rest(tokens, word);
        }
        if tokens.sees(&CASE) {
            let word = tokens.enter(self.room, 0, &CASE)?;
            return self.case_rest(tokens, word);
        }
        if tokens.sees(&FOR) {
            let word = tokens.enter(self.room, 0, &FOR)?;
            return self.for_rest(tokens, word);
        }
        if tokens.sees(&WHILE) {
            let word = tokens.enter(self.room, 0, &WHILE)?;
            return self.while_rest(tokens, word);
        }
        if tokens.sees(&REPEAT) {
            let word = tokens.enter(self.room, 0, &REPEAT)?;
            return self.repeat_rest(tokens, word);
        }
        if tokens.sees(&EXIT) {
            return exit_stmt(tokens);
        }
        if tokens.sees(&RETURN) {
            return return_stmt(tokens);
        }
        called_or_set(self.alloc, tokens, self.room)
    }
}

/// The statement at the front, where `room` more nodes may open.
pub fn read_stmt(alloc: Global, tokens: &mut Reader<'_>, room: u32) -> Result<Stmt, Stop>
    ensures { Reads ((spec.one_stmt room (nested room)).run tokens.old) result tokens.new }
{
    Statements {
        alloc,
        room,
        nested: read_stmt,
    }
    .one_stmt(tokens)
}

/// The statements at the front, where `room` more nodes may open, one around them included.
pub fn stmts(alloc: Global, tokens: &mut Reader<'_>, room: u32) -> Result<Items<Stmt>, Stop>
    requires { 0 < room }
    ensures { Reads ((spec.stmts (nested room)).run tokens.old) result tokens.new }
{
    Statements {
        alloc,
        room,
        nested: read_stmt,
    }
    .stmts(tokens)
}
