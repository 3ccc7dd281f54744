//! Numbers and bytes as words of a text, written and read, and the words of a line.
#![tactic(auto)]

mod byte_word;
mod laws;
mod number;
mod parts;
mod word;
mod write;

pub use byte_word::read_byte_word;
pub use laws::bytes_have_one_word;
pub use number::read_number;
pub use parts::Parts;
pub use word::is_word;
pub use write::{push_byte_word, push_decimal, push_signed, push_text};
