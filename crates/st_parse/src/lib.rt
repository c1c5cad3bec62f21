//! The parser of statements of Structured Text; the parsers of what is in them are handed on from st_expr.
//!
//! The layers above use the `parse_` functions, the laws of `laws`, and the grammar in `specs/` with the laws of its
//! pieces. It stands on st_expr, plc_tokens, plc_tree and the words of grammars.
#![tactic(auto)]

pub mod for_list;
pub mod group;
mod label;
pub mod laws;
pub mod parse;
pub mod statement;
