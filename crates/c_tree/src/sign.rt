//! The signs of the language.
ghost use Rattle.std.specs.Prelude.{◌≡◌};
ghost use Rattle.c_tree.specs.CTokens as spec;

/// A token that is no word and no number, named by what it looks like.
#[derive(Clone, Copy, Debug, PartialEq, Eq)]
pub enum Sign {
    Arrow,
    ShiftLeft,
    ShiftRight,
    Equal,
    NotEqual,
    LessEqual,
    GreaterEqual,
    OpenBrace,
    CloseBrace,
    OpenParen,
    CloseParen,
    OpenBracket,
    CloseBracket,
    Semicolon,
    Colon,
    Comma,
    Dot,
    Assign,
    Plus,
    Minus,
    Star,
    Slash,
    Percent,
    Ampersand,
    Bar,
    Caret,
    Less,
    Greater,
    Bang,
    Tilde,
}

impl Sign {
    /// How it is spelled.
    pub fn text(self) -> &'static [u8]
        ensures { result.now ≡ spec.sign_text self }
    {
        match self {
            Sign::Arrow => b"->",
            Sign::ShiftLeft => b"<<",
            Sign::ShiftRight => b">>",
            Sign::Equal => b"==",
            Sign::NotEqual => b"!=",
            Sign::LessEqual => b"<=",
            Sign::GreaterEqual => b">=",
            Sign::OpenBrace => b"{",
            Sign::CloseBrace => b"}",
            Sign::OpenParen => b"(",
            Sign::CloseParen => b")",
            Sign::OpenBracket => b"[",
            Sign::CloseBracket => b"]",
            Sign::Semicolon => b";",
            Sign::Colon => b":",
            Sign::Comma => b",",
            Sign::Dot => b".",
            Sign::Assign => b"=",
            Sign::Plus => b"+",
            Sign::Minus => b"-",
            Sign::Star => b"*",
            Sign::Slash => b"/",
            Sign::Percent => b"%",
            Sign::Ampersand => b"&",
            Sign::Bar => b"|",
            Sign::Caret => b"^",
            Sign::Less => b"<",
            Sign::Greater => b">",
            Sign::Bang => b"!",
            Sign::Tilde => b"~",
        }
    }
}
