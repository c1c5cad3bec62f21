//! Sorts of tokens: what a grammar sees of a token.
ghost use Rattle.std.specs.Prelude.{◌≡◌, ◌<◌};
ghost use Rattle.plc_tokens.specs.Sorts as spec;

use crate::Token;
use crate::reserved::{Reserved, left_word, reserved_word};
use plc_base::Kind;

/// What a token is where its spelling doesn't matter to a grammar.
#[derive(Clone, Copy, Debug)]
pub enum Form {
    /// The end of the source.
    End,
    /// No token: a rule is broken there.
    Bad,
    /// A token of what the profile leaves out.
    Left,
    /// A word that isn't reserved.
    Name,
    /// An integer without a type before it.
    Integer,
    /// An integer with a type before it.
    Typed,
    /// TRUE or FALSE, also as a literal of BOOL.
    Truth,
    /// A duration.
    Span,
    /// An address.
    Address,
    /// An inclusion.
    Include,
}

/// A symbol.
#[derive(Clone, Copy, Debug)]
pub enum Symbol {
    /// `:=`
    Assign,
    /// `=>`
    Arrow,
    /// `<>`
    Unequal,
    /// `<=`
    AtMost,
    /// `>=`
    AtLeast,
    /// `..`
    Range,
    /// `(`
    LeftParenthesis,
    /// `)`
    RightParenthesis,
    /// `[`
    LeftBracket,
    /// `]`
    RightBracket,
    /// `,`
    Comma,
    /// `;`
    Semicolon,
    /// `:`
    Colon,
    /// `.`
    Dot,
    /// `+`
    Plus,
    /// `-`
    Minus,
    /// `*`
    Times,
    /// `/`
    Divided,
    /// `&`
    Ampersand,
    /// `=`
    Equal,
    /// `<`
    Below,
    /// `>`
    Above,
    /// `#`
    Hash,
}

/// A sort of token.
#[derive(Clone, Copy, Debug)]
pub enum Sort {
    Form(Form),
    Symbol(Symbol),
    Word(Reserved),
}

/// What a grammar sees of a token: its sort, and whether a line break that has a meaning stands before it.
#[derive(Clone, Copy)]
pub struct Seen {
    pub sort: Sort,
    pub fresh: bool,
}

/// The symbols by their places.
const SYMBOLS: [Symbol; 23] = [
    Symbol::Assign,
    Symbol::Arrow,
    Symbol::Unequal,
    Symbol::AtMost,
    Symbol::AtLeast,
    Symbol::Range,
    Symbol::LeftParenthesis,
    Symbol::RightParenthesis,
    Symbol::LeftBracket,
    Symbol::RightBracket,
    Symbol::Comma,
    Symbol::Semicolon,
    Symbol::Colon,
    Symbol::Dot,
    Symbol::Plus,
    Symbol::Minus,
    Symbol::Times,
    Symbol::Divided,
    Symbol::Ampersand,
    Symbol::Equal,
    Symbol::Below,
    Symbol::Above,
    Symbol::Hash,
];

fn symbol_at(place: u8) -> Sort
    ensures { result ≡ spec.symbol_at place }
{
    match SYMBOLS.get(usize::from(place)) {
        Some(symbol) => Sort::Symbol(*symbol),
        None => Sort::Form(Form::Bad),
    }
}

/// A reserved word, or else a form.
fn word_or(word: Option<Reserved>, form: Form) -> Sort
    ensures { result ≡ spec.word_or word form }
{
    match word {
        Some(word) => Sort::Word(word),
        None => Sort::Form(form),
    }
}

/// The sort of a kind.
pub fn sort_of(kind: &Kind) -> Sort
    ensures { result ≡ spec.sort_of kind.now }
{
    match kind {
        Kind::End => Sort::Form(Form::End),
        Kind::Bad(_) => Sort::Form(Form::Bad),
        Kind::Left(word) => word_or(left_word(word.bytes()), Form::Left),
        Kind::Word(word) => word_or(reserved_word(word.bytes()), Form::Name),
        Kind::Number { want: None, .. } => Sort::Form(Form::Integer),
        Kind::Number { want: Some(_), .. } => Sort::Form(Form::Typed),
        Kind::Truth(_) => Sort::Form(Form::Truth),
        Kind::Span(_) => Sort::Form(Form::Span),
        Kind::Symbol(place) => symbol_at(*place),
        Kind::Address { .. } => Sort::Form(Form::Address),
        Kind::Include(_) => Sort::Form(Form::Include),
    }
}

/// A number that tells what is seen: two sorts are one where they have one rank.
pub fn rank(seen: Seen) -> u16
    ensures { result ≡ spec.rank seen }
{
    let sort = match seen.sort {
        Sort::Form(form) => u16::from(form as u8),
        Sort::Symbol(symbol) => u16::from(symbol as u8) + 64,
        Sort::Word(word) => u16::from(word as u8) + 128,
    };
    if seen.fresh { sort + 512 } else { sort }
}

/// What a grammar sees of a token, where line breaks have a meaning (`line`) or none.
pub fn seen_in(token: &Token, line: bool) -> Seen
    ensures { result ≡ spec.seen_in line token.now }
{
    Seen {
        sort: token.sort,
        fresh: line && token.fresh,
    }
}
