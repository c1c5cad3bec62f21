//! The trees of sources, untyped and typed, and what a typed source means: its store, its execution
//! with fuel, its scans and its runs, its listed rows and the names of its files.
//!
//! The layers above use the tree types, the laws of `laws`, and the definitions in `specs/`; the typed unit is what
//! all meanings are said of. It stands on plc_base.
#![tactic(auto)]

pub mod laws;
pub mod tree;
pub mod typed;
