//! What spells a token: the longest spelling at the front of a text, and its kind.
//!
//! The layer above uses `first_token`, the definitions of the forms of tokens, and the laws of the greatest
//! front that passes a test. It stands on the words of the base alone.
#![tactic(auto)]

mod addresses;
mod durations;
mod integers;
mod literals;
mod marks;
mod spelling;
mod starts;
mod text;
mod words;

pub use spelling::first_token;
pub use starts::first_bytes;
pub use text::is_blank;
