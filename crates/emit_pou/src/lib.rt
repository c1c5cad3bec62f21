//! From a typed source to the stated C: the items of each file, and that the unit of them does on every
//! scan what the source does.
//!
//! The layer above uses `emit_unit` and its clauses: which unit it is, and that its traces are those of the
//! source. It stands on the trees of both sides and knows nothing of texts.
#![tactic(auto)]

mod arm;
mod c_name;
pub mod conf;
mod counting;
pub mod debugger;
mod expression;
pub mod pou;
mod pous;
mod statement;
pub mod unit;
mod variable;

pub use unit::emit_unit;
