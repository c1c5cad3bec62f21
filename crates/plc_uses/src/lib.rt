//! The names that the declarations of a source use in its scope: each is declared, of the kind that its place wants, and
//! declared before.
//!
//! The layer above uses `meet_uses`, which meets the rules that they break. It stands on what names of types stand for.
#![tactic(auto)]

mod used;
mod uses;

pub use uses::meet_uses;
