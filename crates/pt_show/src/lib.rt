//! The texts of calls, events, their replies and answers: what a report prints of them. Calls and events are read
//! from theirs.
#![tactic(auto)]

mod act;
mod answer;
mod call;
mod edit;
mod host;
mod laws;
mod plain;
mod read;
mod read_call;
mod read_event;
mod read_values;
mod session;
mod text;

pub use laws::texts_tell_values;
pub use read::{Read, ReadError, Words, read_text};
pub use text::Text;
