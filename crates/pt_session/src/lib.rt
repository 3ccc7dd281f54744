//! The session: the tables behind one type, which agree after every event, and what holds of every event.
#![tactic(auto)]

mod laws;
mod session;

pub use laws::{
    clearings_clear, closings_are_paid, events_are_answered, events_are_determined,
    events_have_effects, events_keep_agreement, refusals_change_nothing,
};
pub use pt_tables::{
    ByClass, Claim, Closing, Event, EventRefusal, EventReply, ForgetPairs, GivenNumber, HandleRow,
    KeptClaim, KeptEvent, Negotiated, NewHandle, NewRoot, NewRow, Resolved, Row, RowForm,
    one_limit,
};
pub use session::Session;
