//! Which of many things lie on a circle of needs, and an order in which each that doesn't stands behind all it needs.
//!
//! The layers above begin each thing in `Needs`, tell what it needs, and ask `Circles`. It stands on plc_base.
#![tactic(auto)]

pub mod circles;
mod gathered;
pub mod laws;
pub mod needs;
mod reversed;
mod walk;

pub use circles::Circles;
pub use needs::Needs;
