//! Ordered maps over the declarations of a source, made once, so that no look-up takes memory or searches a list.
//!
//! The layer above uses `Scopes`, which finds names by scope and by bytes and tells which are declared twice, and
//! `repeated_names`, which meets the names that a list repeats. It stands on the definitions of plc_names.
#![tactic(auto)]

mod firsts;
mod members;
mod owners;
mod repeats;
mod scopes;
mod spaces;
mod twice;
mod words;

pub use repeats::{repeated_fields, repeated_names};
pub use scopes::Scopes;
