//! The words that every layer speaks: elementary types and their numbers, names, kinds of tokens, places, refusals and
//! the least of them.
//!
//! The layers above use `wrap` and the facts on it, `Kind`, and `Least` for what a pass answers. It stands on the standard
//! library alone.
#![tactic(auto)]

pub mod elem;
pub mod fault;
pub mod kind;
pub mod laws;
pub mod least;
pub mod name;
pub mod refusal;
pub mod which;

pub use elem::{Elem, fits, high, low, wrap};
pub use fault::OutOfMemory;
pub use kind::Kind;
pub use least::Least;
pub use name::Name;
pub use refusal::{Place, Refusal, Rule, Stop};
pub use which::Which;
