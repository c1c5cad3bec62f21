//! The stated C: its trees, their spelling, and printing.
//!
//! The layers above use the tree types, `print`, and the definitions in `specs/`: the tokens of each tree, and that texts
//! spell a unit. It stands on plc_base.
#![tactic(auto)]

mod expression;
mod item;
mod printer;
pub mod printing;
pub mod sign;
mod statement;
pub mod text;
pub mod tree;
mod word;
