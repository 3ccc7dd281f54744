use crate::events::case::Case;
use crate::trouble::Trouble;
use pt_session::EventReply;
use pt_text::push_decimal;
use std::alloc::{AllocError, Global};

/// What some events were answered.
#[derive(Drop)]
pub struct Replies {
    pub first: EventReply,
    pub last: EventReply,
    /// How many were refused.
    pub refused: u64,
}

// The text with the number in the place of each `@`.
fn with_number(alloc: Global, text: &[u8], number: u64) -> Result<Vec<u8>, AllocError> {
    let mut out = Vec::new(alloc);
    for byte in text {
        if *byte == b'@' {
            push_decimal(&mut out, number)?;
        } else {
            out.push(*byte)?;
        }
    }
    Ok(out)
}

fn is_refused(reply: &EventReply) -> bool {
    matches!(reply, EventReply::Refused(_))
}

/// Makes the event of this text with each of the numbers, which is bad where there are none or it is no event.
pub fn answer_each(case: &mut Case, from: u64, to: u64, text: &[u8]) -> Result<Replies, Trouble> {
    if from >= to {
        return Err(Trouble::Bad);
    }
    let event = with_number(case.alloc, text, from)?;
    let first = case.answer(event.as_slice())?;
    let mut refused = u64::from(is_refused(&first));
    let mut last = first.copy();
    for number in from + 1..to {
        let event = with_number(case.alloc, text, number)?;
        last = case.answer(event.as_slice())?;
        refused = refused.saturating_add(u64::from(is_refused(&last)));
    }
    Ok(Replies {
        first,
        last,
        refused,
    })
}
