//! The list of a source's tokens.
ghost use Rattle.std.specs.Prelude.{◌≡◌, ◌==◌, ◌<◌, IfOk, drop, length, slice_get, unwrap_or, false};
ghost use Rattle.std.specs.Option.{option_map};
ghost use Rattle.plc_tokens.specs.Tokens as spec;

use crate::Token;
use crate::sort::{Form, Sort};
use plc_base::{Kind, OutOfMemory, Place, Rule};
use std::alloc::Global;
use std::marker::Model;

/// Where a file begins.
pub fn start(file: u32) -> Place
    ensures { result ≡ spec.start file }
{
    Place {
        file,
        line: 1,
        col: 1,
        token: 0,
    }
}

/// A token that is none.
fn bad(rule: Rule, place: Place, fresh: bool) -> Token
    ensures { result ≡ spec.bad rule place fresh }
{
    Token {
        kind: Kind::Bad(rule),
        sort: Sort::Form(Form::Bad),
        place,
        last: (place.line, place.col),
        fresh,
    }
}

/// The tokens of a source, to its end or to the first that is none.
#[derive(Debug, Drop)]
pub struct Tokens {
    tokens: Vec<Token>,
}

impl Model for Tokens {
    ghost use Rattle.std.specs.Prelude.{List};
    ghost use Rattle.plc_tokens.specs.declared.token.Token.{Token};

    ghost Value = { List Token };

    ghost view = { λ t. t.tokens.items };
}

impl Tokens {
    /// A list of these tokens, without memory.
    pub fn from_vec(tokens: Vec<Token>) -> Tokens
        ensures { result ≡ tokens.items }
    {
        Tokens { tokens }
    }

    /// The one token of a file of which no byte is looked at.
    pub fn of_bad(alloc: Global, file: u32, rule: Rule) -> Result<Tokens, OutOfMemory>
        ensures { IfOk result (λ tokens. tokens ≡ spec.bad_only file rule) }
    {
        let mut tokens = Vec::new(alloc);
        tokens.push(bad(rule, start(file), false))?;
        Ok(Tokens { tokens })
    }

    /// How many there are.
    pub fn len(&self) -> usize
        ensures { result ≡ length self.now }
    {
        self.tokens.len()
    }

    /// Whether there is none.
    pub fn is_empty(&self) -> bool
        ensures { result ≡ (length self.now == 0) }
    {
        self.tokens.is_empty()
    }

    /// What the token of a number is.
    pub fn kind(&self, i: usize) -> Option<&Kind>
        ensures { option_map (λ kind. kind.now) result ≡ option_map (λ token. token.kind) (slice_get self.now i) }
    {
        Some(&self.tokens.get(i)?.kind)
    }

    /// Where the token of a number begins.
    pub fn place(&self, i: usize) -> Option<Place>
        ensures { result ≡ option_map (λ token. token.place) (slice_get self.now i) }
    {
        Some(self.tokens.get(i)?.place)
    }

    /// Line and column of the last byte of the token of a number; of the end and of a bad token, of its place.
    pub fn last(&self, i: usize) -> Option<(u32, u32)>
        ensures { result ≡ option_map (λ token. token.last) (slice_get self.now i) }
    {
        Some(self.tokens.get(i)?.last)
    }

    /// Whether a line break stands before the token of a number; there is none before a token that isn't there.
    pub fn fresh(&self, i: usize) -> bool
        ensures { result ≡ unwrap_or (option_map (λ token. token.fresh) (slice_get self.now i)) false }
    {
        match self.tokens.get(i) {
            Some(token) => token.fresh,
            None => false,
        }
    }

    /// Ends the list at the token of a number, which breaks a rule and is none from then on. It takes no memory.
    pub fn cut(&mut self, i: usize, rule: Rule)
        requires { i < length self.old }
        ensures { self.new ≡ spec.cut self.old i rule }
    {
        self.tokens.truncate(i + 1);
        let token = &mut self.tokens[i];
        token.kind = Kind::Bad(rule);
        token.sort = Sort::Form(Form::Bad);
        token.last = (token.place.line, token.place.col);
    }

    /// Those from a number on; none where there are no more.
    pub fn behind(&self, from: usize) -> &[Token]
        ensures { result.now ≡ drop from self.now }
    {
        &self.tokens[from.min(self.tokens.len())..]
    }

    /// All of them.
    pub fn as_slice(&self) -> &[Token]
        ensures { result.now ≡ self.now }
    {
        &self.tokens
    }
}
