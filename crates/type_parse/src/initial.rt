//! Initial values.
ghost use Rattle.std.specs.Prelude.{◌<◌, ◌≤◌};
ghost use Rattle.phrase.specs.Piece.{many};
ghost use Rattle.phrase.specs.Reads.{OnlyMemory, Reads};
ghost use Rattle.plc_tokens.specs.Sets.{COMMA};
ghost use Rattle.type_parse.specs.Depth as depth;
ghost use Rattle.type_parse.specs.Depth.{inner};
ghost use Rattle.type_parse.specs.Initials as spec;
ghost use Rattle.type_parse.specs.Nests.{Nests};

use crate::name::id_of;
use phrase::Stop;
use plc_tokens::Token;
use plc_tokens::reader::Reader;
use plc_tokens::sets::{
    ASSIGN, COMMA, FIRST_INIT, HASH, INTEGER, LBRACKET, LPAREN, MINUS, NAME, NUMBER, RBRACKET,
    RPAREN, SPAN, TRUTH,
};
use plc_tokens::token::{number_of, span_of, truth_of};
use plc_tree::tree::{Init, InitPart, Item, Whole};
use sqlite_items::Items;
use st_expr::literal::{negated, want_of};
use st_expr::token_name::token_name;
use std::alloc::Global;

#[tactic(auto, unfolding(crate::specs::Initials::number))]
fn number(tokens: &mut Reader<'_>) -> Result<Init, Stop>
    ensures { Reads (spec.number.run tokens.old) result tokens.new }
{
    let token = tokens.take(&NUMBER)?;
    Ok(Init::Number {
        value: number_of(&token.kind),
        want: want_of(&token.kind),
        at: token.place,
    })
}

#[tactic(auto, unfolding(crate::specs::Initials::negative))]
fn negative(tokens: &mut Reader<'_>) -> Result<Init, Stop>
    ensures { Reads (spec.negative.run tokens.old) result tokens.new }
{
    let sign = tokens.take(&MINUS)?;
    let token = tokens.take(&INTEGER)?;
    Ok(Init::Number {
        value: negated(number_of(&token.kind)),
        want: None,
        at: sign.place,
    })
}

#[tactic(auto, unfolding(crate::specs::Initials::truth))]
fn truth(tokens: &mut Reader<'_>) -> Result<Init, Stop>
    ensures { Reads (spec.truth.run tokens.old) result tokens.new }
{
    let token = tokens.take(&TRUTH)?;
    Ok(Init::Truth {
        value: truth_of(&token.kind),
        at: token.place,
    })
}

#[tactic(auto, unfolding(crate::specs::Initials::span))]
fn span(tokens: &mut Reader<'_>) -> Result<Init, Stop>
    ensures { Reads (spec.span.run tokens.old) result tokens.new }
{
    let token = tokens.take(&SPAN)?;
    Ok(Init::Span {
        ns: span_of(&token.kind),
        at: token.place,
    })
}

#[tactic(auto, unfolding(crate::specs::Initials::literal))]
fn literal(tokens: &mut Reader<'_>) -> Result<Init, Stop>
    ensures { Reads (spec.literal.run tokens.old) result tokens.new }
{
    if tokens.sees(&MINUS) {
        return negative(tokens);
    }
    if tokens.sees(&NUMBER) {
        return number(tokens);
    }
    if tokens.sees(&TRUTH) {
        return truth(tokens);
    }
    span(tokens)
}

fn owned_of(alloc: Global, owner: &Token, name: &Token) -> Result<Init, Stop>
    ensures { OnlyMemory result (spec.owned_of owner.now name.now) }
{
    Ok(Init::Value {
        owner: token_name(alloc, owner)?,
        name: token_name(alloc, name)?,
        at: owner.place,
        name_at: name.place,
    })
}

#[tactic(auto, unfolding(crate::specs::Initials::owned))]
fn owned(alloc: Global, tokens: &mut Reader<'_>, owner: &Token) -> Result<Init, Stop>
    ensures { Reads ((spec.owned owner.now).run tokens.old) result tokens.new }
{
    tokens.take(&HASH)?;
    let name = tokens.take(&NAME)?;
    owned_of(alloc, owner, name)
}

#[tactic(auto, unfolding(crate::specs::Initials::owned_or_alone))]
fn owned_or_alone(alloc: Global, tokens: &mut Reader<'_>, name: &Token) -> Result<Init, Stop>
    ensures { Reads ((spec.owned_or_alone name.now).run tokens.old) result tokens.new }
{
    if tokens.sees(&HASH) {
        owned(alloc, tokens, name)
    } else {
        Ok(Init::Named(id_of(alloc, name)?))
    }
}

#[tactic(auto, unfolding(crate::specs::Initials::value))]
fn value(alloc: Global, tokens: &mut Reader<'_>) -> Result<Init, Stop>
    ensures { Reads (spec.value.run tokens.old) result tokens.new }
{
    let name = tokens.take(&NAME)?;
    owned_or_alone(alloc, tokens, name)
}

fn part_of(alloc: Global, name: &Token, init: Init) -> Result<InitPart, Stop>
    ensures { OnlyMemory result (spec.part_of name.now init) }
{
    Ok(InitPart {
        name: token_name(alloc, name)?,
        at: name.place,
        init,
    })
}

/// The initial values at a place.
#[derive(Clone, Copy)]
pub struct Initials<F> {
    pub alloc: Global,
    /// How many more nodes may open here.
    pub room: u32,
    /// What reads an initial value where fewer may open.
    pub nested: F,
}

impl<F: Fn(Global, &mut Reader<'_>, u32) -> Result<Init, Stop>> Initials<F> {
    fn nested(&self, tokens: &mut Reader<'_>, room: u32) -> Result<Init, Stop>
        requires nests { Nests self.now.room (F.pre self.now.nested) (F.post self.now.nested) }
        requires room { room < self.now.room }
        ensures value { Reads ((spec.init room (inner room)).run tokens.old) result tokens.new }
    {
        (self.nested)(self.alloc, tokens, room)
    }

    /// An initial value under one more node, where `room` may open, that one included.
    #[tactic(auto, using(crate::proofs::Stands::init_stands))]
    fn under(&self, tokens: &mut Reader<'_>, room: u32) -> Result<Init, Stop>
        requires nests { Nests self.now.room (F.pre self.now.nested) (F.post self.now.nested) }
        requires opened { 0 < room }
        requires room { room ≤ self.now.room }
        ensures value { Reads ((inner room).init.run tokens.old) result tokens.new }
    {
        self.nested(tokens, room - 1)
    }

    #[tactic(auto, unfolding(crate::specs::Initials::some_init))]
    fn some_init(&self, tokens: &mut Reader<'_>, room: u32) -> Result<Option<Init>, Stop>
        requires nests { Nests self.now.room (F.pre self.now.nested) (F.post self.now.nested) }
        requires opened { 0 < room }
        requires room { room ≤ self.now.room }
        ensures value { Reads ((spec.some_init (inner room)).run tokens.old) result tokens.new }
    {
        let init = self.under(tokens, room)?;
        Ok(Some(init))
    }

    #[tactic(auto, unfolding(crate::specs::Initials::none_or_init))]
    fn none_or_init(&self, tokens: &mut Reader<'_>, room: u32) -> Result<Option<Init>, Stop>
        requires nests { Nests self.now.room (F.pre self.now.nested) (F.post self.now.nested) }
        requires opened { 0 < room }
        requires room { room ≤ self.now.room }
        ensures value { Reads ((spec.none_or_init (inner room)).run tokens.old) result tokens.new }
    {
        if tokens.sees(&FIRST_INIT) {
            self.some_init(tokens, room)
        } else {
            Ok(None)
        }
    }

    #[tactic(auto, unfolding(crate::specs::Initials::many_rest))]
    fn many_rest(
        &self,
        tokens: &mut Reader<'_>,
        room: u32,
        count: &Token,
        bracket: &Token,
    ) -> Result<Item, Stop>
        requires nests { Nests self.now.room (F.pre self.now.nested) (F.post self.now.nested) }
        requires opened { 0 < room }
        requires room { room ≤ self.now.room }
        ensures value { Reads ((spec.many_rest (inner room) count.now bracket.now).run tokens.old) result tokens.new }
    {
        let init = self.none_or_init(tokens, room)?;
        tokens.take(&RPAREN)?;
        Ok(Item::Many {
            count: Whole {
                value: number_of(&count.kind),
                at: count.place,
            },
            init,
        })
    }

    #[tactic(auto, unfolding(crate::specs::Initials::counted))]
    fn counted(&self, tokens: &mut Reader<'_>, room: u32, count: &Token) -> Result<Item, Stop>
        requires nests { Nests self.now.room (F.pre self.now.nested) (F.post self.now.nested) }
        requires room { room < self.now.room }
        ensures value { Reads ((spec.counted room (inner room) count.now).run tokens.old) result tokens.new }
    {
        let bracket = tokens.enter(room, 0, &LPAREN)?;
        self.many_rest(tokens, room, count, bracket)
    }

    #[tactic(auto, unfolding(crate::specs::Initials::one_init))]
    fn one_init(&self, tokens: &mut Reader<'_>, room: u32) -> Result<Item, Stop>
        requires nests { Nests self.now.room (F.pre self.now.nested) (F.post self.now.nested) }
        requires room { room < self.now.room }
        ensures value { Reads ((spec.one_init room (inner room)).run tokens.old) result tokens.new }
    {
        let init = self.nested(tokens, room)?;
        Ok(Item::One(init))
    }

    #[tactic(auto, unfolding(crate::specs::Initials::item))]
    fn item_at(&self, tokens: &mut Reader<'_>, room: u32) -> Result<Item, Stop>
        requires nests { Nests self.now.room (F.pre self.now.nested) (F.post self.now.nested) }
        requires room { room < self.now.room }
        ensures value { Reads ((spec.item room (inner room)).run tokens.old) result tokens.new }
    {
        if tokens.sees_two(&INTEGER, &LPAREN) {
            let count = tokens.take(&INTEGER)?;
            return self.counted(tokens, room, count);
        }
        self.one_init(tokens, room)
    }

    /// An element of a list.
    #[tactic(auto, using(crate::proofs::Stands::item_stands))]
    fn item(&self, tokens: &mut Reader<'_>) -> Result<Item, Stop>
        requires nests { Nests self.now.room (F.pre self.now.nested) (F.post self.now.nested) }
        requires opened { 0 < self.now.room }
        ensures value { Reads ((inner self.now.room).item.run tokens.old) result tokens.new }
    {
        self.item_at(tokens, self.room - 1)
    }

    #[tactic(auto, unfolding(crate::specs::Initials::next_item))]
    fn next_item(&self, tokens: &mut Reader<'_>, mut list: Items<Item>) -> Result<Items<Item>, Stop>
        requires nests { Nests self.now.room (F.pre self.now.nested) (F.post self.now.nested) }
        requires opened { 0 < self.now.room }
        ensures value { Reads ((spec.next_item (inner self.now.room) list).run tokens.old) result tokens.new }
    {
        tokens.take(&COMMA)?;
        let next = self.item(tokens)?;
        list.push(next)?;
        Ok(list)
    }

    #[tactic(auto, using(phrase::proofs::Loops::going_starts, phrase::proofs::Loops::going_on, phrase::proofs::Loops::going_fails, phrase::proofs::Loops::going_stops, phrase::proofs::Loops::going_ends))]
    fn more_items(
        &self,
        tokens: &mut Reader<'_>,
        mut list: Items<Item>,
    ) -> Result<Items<Item>, Stop>
        requires nests { Nests self.now.room (F.pre self.now.nested) (F.post self.now.nested) }
        requires opened { 0 < self.now.room }
        ensures value { Reads ((many COMMA (spec.next_item (inner self.now.room)) list).run tokens.old) result tokens.new }
    {
        for _turn in 0..tokens.left() {
            if !tokens.sees(&COMMA) {
                return Ok(list);
            }
            list = self.next_item(tokens, list)?;
        }
        Ok(list)
    }

    #[tactic(auto, unfolding(crate::specs::Initials::list_rest))]
    fn list_rest(&self, tokens: &mut Reader<'_>, bracket: &Token) -> Result<Init, Stop>
        requires nests { Nests self.now.room (F.pre self.now.nested) (F.post self.now.nested) }
        requires opened { 0 < self.now.room }
        ensures value { Reads ((spec.list_rest (inner self.now.room) bracket.now).run tokens.old) result tokens.new }
    {
        let first = self.item(tokens)?;
        let mut items = Items::new(self.alloc);
        items.push(first)?;
        let items = self.more_items(tokens, items)?;
        tokens.take(&RBRACKET)?;
        Ok(Init::List {
            items,
            at: bracket.place,
        })
    }

    #[tactic(auto, unfolding(crate::specs::Initials::part))]
    fn part(&self, tokens: &mut Reader<'_>) -> Result<InitPart, Stop>
        requires nests { Nests self.now.room (F.pre self.now.nested) (F.post self.now.nested) }
        requires opened { 0 < self.now.room }
        ensures value { Reads ((spec.part (inner self.now.room)).run tokens.old) result tokens.new }
    {
        let name = tokens.take(&NAME)?;
        tokens.take(&ASSIGN)?;
        let init = self.under(tokens, self.room)?;
        part_of(self.alloc, name, init)
    }

    #[tactic(auto, unfolding(crate::specs::Initials::next_part))]
    fn next_part(
        &self,
        tokens: &mut Reader<'_>,
        mut list: Items<InitPart>,
    ) -> Result<Items<InitPart>, Stop>
        requires nests { Nests self.now.room (F.pre self.now.nested) (F.post self.now.nested) }
        requires opened { 0 < self.now.room }
        ensures value { Reads ((spec.next_part (inner self.now.room) list).run tokens.old) result tokens.new }
    {
        tokens.take(&COMMA)?;
        let next = self.part(tokens)?;
        list.push(next)?;
        Ok(list)
    }

    #[tactic(auto, using(phrase::proofs::Loops::going_starts, phrase::proofs::Loops::going_on, phrase::proofs::Loops::going_fails, phrase::proofs::Loops::going_stops, phrase::proofs::Loops::going_ends))]
    fn more_parts(
        &self,
        tokens: &mut Reader<'_>,
        mut list: Items<InitPart>,
    ) -> Result<Items<InitPart>, Stop>
        requires nests { Nests self.now.room (F.pre self.now.nested) (F.post self.now.nested) }
        requires opened { 0 < self.now.room }
        ensures value { Reads ((many COMMA (spec.next_part (inner self.now.room)) list).run tokens.old) result tokens.new }
    {
        for _turn in 0..tokens.left() {
            if !tokens.sees(&COMMA) {
                return Ok(list);
            }
            list = self.next_part(tokens, list)?;
        }
        Ok(list)
    }

    #[tactic(auto, unfolding(crate::specs::Initials::struct_rest))]
    fn struct_rest(&self, tokens: &mut Reader<'_>, bracket: &Token) -> Result<Init, Stop>
        requires nests { Nests self.now.room (F.pre self.now.nested) (F.post self.now.nested) }
        requires opened { 0 < self.now.room }
        ensures value { Reads ((spec.struct_rest (inner self.now.room) bracket.now).run tokens.old) result tokens.new }
    {
        let first = self.part(tokens)?;
        let mut parts = Items::new(self.alloc);
        parts.push(first)?;
        let parts = self.more_parts(tokens, parts)?;
        tokens.take(&RPAREN)?;
        Ok(Init::Struct {
            parts,
            at: bracket.place,
        })
    }

    #[tactic(auto, unfolding(crate::specs::Initials::init))]
    fn init(&self, tokens: &mut Reader<'_>) -> Result<Init, Stop>
        requires nests { Nests self.now.room (F.pre self.now.nested) (F.post self.now.nested) }
        ensures value { Reads ((spec.init self.now.room (inner self.now.room)).run tokens.old) result tokens.new }
    {
        if tokens.sees(&LBRACKET) {
            let bracket = tokens.enter(self.room, 0, &LBRACKET)?;
            return self.list_rest(tokens, bracket);
        }
        if tokens.sees(&LPAREN) {
            let bracket = tokens.enter(self.room, 0, &LPAREN)?;
            return self.struct_rest(tokens, bracket);
        }
        if tokens.sees(&NAME) {
            return value(self.alloc, tokens);
        }
        literal(tokens)
    }
}

/// The initial value at the front, where `room` more nodes may open.
pub fn read_init(alloc: Global, tokens: &mut Reader<'_>, room: u32) -> Result<Init, Stop>
    ensures { Reads ((spec.init room (inner room)).run tokens.old) result tokens.new }
{
    Initials {
        alloc,
        room,
        nested: read_init,
    }
    .init(tokens)
}

#[tactic(auto, unfolding(crate::specs::Depth::assigned))]
fn assigned(alloc: Global, tokens: &mut Reader<'_>, room: u32) -> Result<Option<Init>, Stop>
    ensures { Reads ((depth.assigned room).run tokens.old) result tokens.new }
{
    tokens.take(&ASSIGN)?;
    let init = read_init(alloc, tokens, room)?;
    Ok(Some(init))
}

/// The initial value behind `:=`, where that stands and `room` more nodes may open.
#[tactic(auto, unfolding(crate::specs::Depth::init_if_any))]
pub fn init_if_any(alloc: Global, tokens: &mut Reader<'_>, room: u32) -> Result<Option<Init>, Stop>
    ensures { Reads ((depth.init_if_any room).run tokens.old) result tokens.new }
{
    if tokens.sees(&ASSIGN) {
        assigned(alloc, tokens, room)
    } else {
        Ok(None)
    }
}
