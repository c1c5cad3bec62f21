//! The top call: what the words of a command line ask for, done on files and a console.
//!
//! The layer above uses `iec2c`, whose clauses say which files are fetched and put, what is said and
//! complained, and how a fault or want of memory cuts that short, `compile` for the texts of a source, and the
//! laws on it: accepted or refused, never both, for one reason.
//! It stands on all passes, and knows them by their relations alone.
#![tactic(auto)]

mod command;
mod complaint;
mod laws;
mod pass;
mod status;
mod steps;
mod words;

pub use command::iec2c;
pub use laws::{accepted_not_refused, decided, one_refusal};
pub use pass::{Options, compile};
pub use status::Status;
