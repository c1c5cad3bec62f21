//! The tests that make calls which no row of text can ask for: calls of the lower layers, each that takes memory once
//! with ample memory.
//!
//! Sources and what is expected of them stand as rows in `crates/plc_rows/data`. What is expected here is written down by
//! hand, from the description of the calls.
#![tactic(auto)]

#[cfg(test)]
mod calls;
#[cfg(test)]
mod graphs;
