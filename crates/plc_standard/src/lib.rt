//! The names that a source can't declare anew: those of the standard functions and blocks, and of files that every
//! compile writes.
//!
//! The layers above use `is_function`, `is_block` and `is_file`, and the definitions of these names. It stands on the
//! words of the base alone.
#![tactic(auto)]

mod files;
mod listed;
mod standard;

pub use files::is_file;
pub use standard::{block_number, is_block, is_function};
