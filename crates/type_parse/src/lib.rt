//! The parsers of types and of initial values, which declarations have.
//!
//! The layer above uses the functions that stand for pieces of the grammar in `specs/`, and the laws of these pieces in
//! `proofs/`. It stands on st_expr, plc_tokens, plc_tree and the words of grammars.
#![tactic(auto)]

pub mod definition;
pub mod initial;
pub mod name;
pub mod spec;
