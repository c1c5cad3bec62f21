//! The declarations of the library and of a source in a row: their names and the types that are made, in text order.
//!
//! The layers above use `declared`, which answers the row, and `items`, the order in which the declarations of a source
//! stand. It stands on the trees and on the definitions of plc_names.
#![tactic(auto)]

mod declaration;
mod made;
mod number;
mod order;
mod row;
mod unit;
mod walk;

pub use order::{Item, What, items, own_items};
pub use row::Declared;
pub use unit::declared;
