//! What each type and program organisation unit of a source needs, as a graph by the numbers of declarations.
//!
//! The layer above asks `needs` for the graph. It stands on plc_names, which says what is needed, and on the crates of
//! declarations, scopes and circles.
#![tactic(auto)]

mod bodies;
mod declarations;
mod graph;
mod name;
mod own;
mod rows;

pub use graph::needs;
