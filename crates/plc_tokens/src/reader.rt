//! A cursor over tokens.
ghost use Rattle.std.specs.Prelude.{◌≡◌, ◌<◌, ◌+◌, nat_le, length, Some, OnOk};
ghost use Rattle.std.specs.Result.{result_map_both};
ghost use Rattle.phrase.specs.Piece.{has, heads, two_heads, three_heads, tok_run, enter};
ghost use Rattle.phrase.specs.Reads.{Reads};
ghost use Rattle.plc_tokens.specs.Sorts as spec;
ghost use Rattle.plc_tokens.specs.Sorts.{first_of};

use crate::Token;
use crate::sort::{Seen, rank, seen_in};
use phrase::{Fault, Stop};
use std::marker::Model;

/// The tokens that are left to read.
#[derive(Drop)]
pub struct Reader<'a> {
    rest: &'a [Token],
}

impl<'a> Model for Reader<'a> {
    ghost use Rattle.std.specs.Prelude.{List};
    ghost use Rattle.plc_tokens.specs.declared.token.Token.{Token};

    ghost Value = { List Token };

    ghost view = { λ r. r.rest.now };
}

/// Whether what is seen is one of these.
pub fn is_one_of(seen: Seen, mut sorts: &[Seen]) -> bool
    ensures { result ≡ has spec.rank seen sorts.entry.now }
{
    while let [first, rest @ ..] = sorts {
        if rank(seen) == rank(*first) {
            return true;
        }
        sorts = rest;
    }
    false
}

impl<'a> Reader<'a> {
    /// A reader of these tokens.
    pub fn new(rest: &'a [Token]) -> Reader<'a>
        ensures { result ≡ rest.now }
    {
        Reader { rest }
    }

    /// How many tokens are left.
    pub fn left(&self) -> usize
        ensures { result ≡ length self.now }
    {
        self.rest.len()
    }

    /// Whether the next token is of these sorts, where line breaks have a meaning (`line`) or none.
    pub fn sees_in(&self, line: bool, sorts: &[Seen]) -> bool
        ensures { result ≡ heads (spec.sort_in line) sorts.now self.now }
    {
        match self.rest {
            [] => false,
            [next, ..] => is_one_of(seen_in(next, line), sorts),
        }
    }

    /// Whether the next two tokens are of these sorts.
    pub fn sees_two_in(&self, line: bool, sorts: &[Seen], then: &[Seen]) -> bool
        ensures { result ≡ two_heads (spec.sort_in line) sorts.now then.now self.now }
    {
        match self.rest {
            [first, second, ..] => {
                is_one_of(seen_in(first, line), sorts) && is_one_of(seen_in(second, line), then)
            }
            _ => false,
        }
    }

    /// The next token, which is to be of these sorts.
    pub fn take_in(&mut self, line: bool, sorts: &[Seen]) -> Result<&'a Token, Stop>
        ensures { Reads (tok_run (spec.sort_in line) sorts.now self.old) (result_map_both (λ t. t.now) (λ e. e) result) self.new }
    {
        match self.rest {
            [next, rest @ ..] if is_one_of(seen_in(next, line), sorts) => {
                self.rest = rest;
                Ok(next)
            }
            _ => Err(Stop::At(Fault::Wrong)),
        }
    }

    /// The next token, which is to be of these sorts and opens a node above a first operand of this height, where `room`
    /// more nodes may open.
    pub fn enter_in(
        &mut self,
        line: bool,
        room: u32,
        height: u32,
        sorts: &[Seen],
    ) -> Result<&'a Token, Stop>
        ensures value { Reads (enter (spec.sort_in line) (nat_le (height + 1) room) sorts.now self.old) (result_map_both (λ t. t.now) (λ e. e) result) self.new }
        ensures low { OnOk result (height < room) }
    {
        match self.rest {
            [next, rest @ ..] if is_one_of(seen_in(next, line), sorts) => {
                if height >= room {
                    return Err(Stop::At(Fault::Deep));
                }
                self.rest = rest;
                Ok(next)
            }
            _ => Err(Stop::At(Fault::Wrong)),
        }
    }

    /// Whether the next token is of these sorts, where line breaks have no meaning.
    pub fn sees(&self, sorts: &[Seen]) -> bool
        ensures { result ≡ heads spec.sort sorts.now self.now }
    {
        self.sees_in(false, sorts)
    }

    /// Whether the next two tokens are of these sorts, where line breaks have no meaning.
    pub fn sees_two(&self, sorts: &[Seen], then: &[Seen]) -> bool
        ensures { result ≡ two_heads spec.sort sorts.now then.now self.now }
    {
        self.sees_two_in(false, sorts, then)
    }

    /// Whether the next three tokens are of these sorts, where line breaks have no meaning.
    pub fn sees_three(&self, sorts: &[Seen], then: &[Seen], last: &[Seen]) -> bool
        ensures { result ≡ three_heads spec.sort sorts.now then.now last.now self.now }
    {
        match self.rest {
            [first, second, third, ..] => {
                is_one_of(seen_in(first, false), sorts)
                    && is_one_of(seen_in(second, false), then)
                    && is_one_of(seen_in(third, false), last)
            }
            _ => false,
        }
    }

    /// The next token, which is to be of these sorts, where line breaks have no meaning.
    pub fn take(&mut self, sorts: &[Seen]) -> Result<&'a Token, Stop>
        ensures { Reads (tok_run spec.sort sorts.now self.old) (result_map_both (λ t. t.now) (λ e. e) result) self.new }
    {
        self.take_in(false, sorts)
    }

    /// The same of a token that opens a node.
    pub fn enter(&mut self, room: u32, height: u32, sorts: &[Seen]) -> Result<&'a Token, Stop>
        ensures value { Reads (enter spec.sort (nat_le (height + 1) room) sorts.now self.old) (result_map_both (λ t. t.now) (λ e. e) result) self.new }
        ensures low { OnOk result (height < room) }
    {
        self.enter_in(false, room, height, sorts)
    }

    /// The next token, where one is left.
    pub fn here(&self) -> &'a Token
        requires { 0 < length self.now }
        ensures { first_of self.now ≡ Some result.now }
    {
        &self.rest[0]
    }
}
