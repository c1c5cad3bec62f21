//! The tokens of a source: its text cut into blanks, comments and tokens.
//!
//! The layers above use `lex` and the definition `lexed` of what a text's tokens are, with the laws on it. It
//! stands on the spellings of tokens and on the list of them.
#![tactic(auto)]

mod comments;
mod lexer;
mod lexes;

pub use lexer::lex;
pub use lexes::{listed, longest};
pub use plc_tokens::Tokens;
