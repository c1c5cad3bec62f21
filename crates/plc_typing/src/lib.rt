//! The names, the types and the limits of a source: its least broken use, and its typed unit. What isn't built yet, an
//! expression that isn't plain for one, is a broken use at its place.
//!
//! The layer above uses `numbers_of`, which answers the numbers of the declared names or the least use that breaks a
//! rule, and `typed_unit`, which answers the typed unit of a source without such a use. Lemmas say that the bodies of
//! this unit are typed well. It stands on trees and the standard names, and knows nothing of tokens and of the stated C.
#![tactic(auto)]

mod bodies;
mod constants;
mod names;
mod numbers;
mod one_use;
mod plain;
mod scope;
mod standard;
mod typed_body;
mod typing;
mod uses;
mod word;

pub use numbers::Numbers;
pub use typing::typed_unit;
pub use uses::numbers_of;
