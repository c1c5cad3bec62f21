//! The outside: files and a console, with forms of both that are kept in memory, and what calls of them do and leave.
//!
//! The layers above use the traits `Files` and `Console` with their clauses on contents and counts, the definitions of
//! calls, and the forms in memory. It stands on the words of the base.
#![tactic(auto)]

pub mod fault;
mod kept;
pub mod memory_console;
pub mod memory_files;
pub mod outside;
mod span;

pub use fault::{ConsoleFault, FileFault};
pub use memory_console::MemoryConsole;
pub use memory_files::MemoryFiles;
pub use outside::{Console, Files};
