//! Tokens as parsers see them: the list of a source's tokens, the sort of each, and a cursor over a list.
//!
//! A token carries the sort of its kind, which is found once; grammars see sorts alone. The layers above use `Token`,
//! `Tokens`, the sets of sorts and the reader. It stands on the words of the base and on the words of grammars.
#![tactic(auto)]

pub mod reader;
pub mod reserved;
pub mod sets;
pub mod sort;
pub mod token;
pub mod tokens;

pub use token::Token;
pub use tokens::Tokens;
