//! The session's tables as they are kept, and the events that change them one at a time.
#![tactic(auto)]

mod classes;
mod clearing;
mod event;
mod events;
mod form;
mod giving;
mod handling;
mod objects;
mod reply;
mod row;
mod store;
mod tables;
mod taking;

pub use classes::{ByClass, one_limit};
pub use event::{Claim, Event, ForgetPairs, KeptClaim, KeptEvent, NewHandle, NewRoot, NewRow};
pub use form::{Negotiated, RowForm};
pub use reply::{EventRefusal, EventReply, GivenNumber, Resolved};
pub use row::{Closing, HandleRow, Row};
pub use store::RowStore;
pub use tables::SessionTables;
