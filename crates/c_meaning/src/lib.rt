//! What the stated C means: the rules of a unit, its values, objects and cells, what its functions do, and its runs.
//!
//! The layers above use the definitions in `specs/`: that a unit is good, and the trace of its runs; and the laws in
//! `laws`, which say of fuel and loops what holds whatever is run. It stands on c_tree.
#![tactic(auto)]

pub mod laws;
