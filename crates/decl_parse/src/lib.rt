//! The parser of sources: their declarations, program organisation units and configurations.
//!
//! The layers above use `parse_unit`, the laws of `laws`, and the grammar in `specs/`. It stands on type_parse,
//! st_parse, st_expr, plc_tokens, plc_tree and the words of grammars.
#![tactic(auto)]

mod configuration;
mod later;
pub mod laws;
pub mod parse;
mod place;
mod section;
mod source;
mod unit;
