//! What names mean: what the library and a source declare and in which scope, what a name stands for at a place, what a
//! type is made of, what needs what, and the rules on declarations, each by the places where it is broken.
//!
//! It has no code but the types of what is told of names. The layers above use these and the definitions in `specs/`. It
//! stands on plc_tree, the standard names and the circles of a graph.
#![tactic(auto)]

pub mod declarations;
pub mod names;
pub mod types;
pub mod wants;
