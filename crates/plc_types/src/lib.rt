//! What types are: what the names of types stand for, and what each type that is made is made of.
//!
//! The layers above make `standings` of the circles of what needs what, and ask `Known` for names and `shape_of` for types. It stands on the tables of
//! scopes and on circles.
#![tactic(auto)]

pub mod elementary;
pub mod known;
pub mod shapes;
pub mod standings;
