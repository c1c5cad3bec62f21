//! The parsers of what Structured Text and other languages share: expressions, paths, operands, arguments.
//!
//! The layers above use the `parse_` functions, the laws of `laws`, the grammar in `specs/` with the laws of its
//! pieces, and the functions that stand for its pieces. It stands on plc_tokens, plc_tree and the words of grammars.
#![tactic(auto)]

mod argument;
pub mod expression;
pub mod integer;
pub mod laws;
pub mod level;
pub mod literal;
mod operator;
pub mod parse;
mod path;
pub mod token_name;
