//! Events of a session read from their texts.
use crate::read::{Read, ReadError, Words};
use pt_session::{
    ForgetPairs, KeptClaim, KeptEvent, Negotiated, NewHandle, NewRoot, NewRow, RowForm,
};

impl Read for (u64, u64) {
    fn read(words: &mut Words<'_>) -> Result<Self, ReadError> {
        words.two()
    }
}

impl Read for ForgetPairs {
    fn read(words: &mut Words<'_>) -> Result<Self, ReadError> {
        Ok(ForgetPairs::from_vec(words.list()?))
    }
}

impl Read for RowForm {
    fn read(words: &mut Words<'_>) -> Result<Self, ReadError> {
        match words.name()? {
            "File" => Ok(RowForm::File(words.next()?)),
            _ => Err(ReadError::Bad),
        }
    }
}

impl Read for Negotiated {
    fn read(words: &mut Words<'_>) -> Result<Self, ReadError> {
        let (writeback, announce_submounts, posix_acl, sup_group) = words.four()?;
        Ok(Negotiated {
            writeback,
            announce_submounts,
            posix_acl,
            sup_group,
        })
    }
}

// The events of numbers, whose rows are pinned, given and taken back. None where the name is of another event.
fn next_of_numbers(name: &str, words: &mut Words<'_>) -> Result<Option<KeptEvent>, ReadError> {
    let event = match name {
        "Resolve" => KeptEvent::Resolve {
            number: words.next()?,
        },
        "Unpin" => KeptEvent::Unpin { row: words.next()? },
        "Claim" => {
            let (era, handle, ids) = words.three()?;
            KeptEvent::Claim(KeptClaim { era, handle, ids })
        }
        "Insert" => {
            let (era, number, form, ids, mode) = words.five()?;
            let class = words.class()?;
            KeptEvent::Insert(NewRow {
                era,
                number,
                form,
                ids,
                mode,
                class,
            })
        }
        "InsertRoot" => {
            let (era, form, ids, mode, negotiated) = words.five()?;
            KeptEvent::InsertRoot(NewRoot {
                era,
                form,
                ids,
                mode,
                negotiated,
            })
        }
        "Forget" => KeptEvent::Forget {
            list: words.next()?,
        },
        "GiveBack" => {
            let (era, number) = words.two()?;
            KeptEvent::GiveBack { era, number }
        }
        _ => return Ok(None),
    };
    Ok(Some(event))
}

// The events of slots.
fn next_of_slots(name: &str, words: &mut Words<'_>) -> Result<Option<KeptEvent>, ReadError> {
    let event = match name {
        "TakeFd" => KeptEvent::TakeFd {
            class: words.class()?,
        },
        "GiveFd" => KeptEvent::GiveFd {
            class: words.class()?,
        },
        _ => return Ok(None),
    };
    Ok(Some(event))
}

// The events of handles.
fn next_of_handles(name: &str, words: &mut Words<'_>) -> Result<Option<KeptEvent>, ReadError> {
    let event = match name {
        "InsertHandle" => {
            let (era, handle, number, fd) = words.four()?;
            let class = words.class()?;
            KeptEvent::InsertHandle(NewHandle {
                era,
                handle,
                number,
                fd,
                class,
            })
        }
        "PinHandle" => {
            let (handle, number) = words.two()?;
            KeptEvent::PinHandle { handle, number }
        }
        "UnpinHandle" => KeptEvent::UnpinHandle { row: words.next()? },
        "Release" => {
            let (handle, number) = words.two()?;
            KeptEvent::Release { handle, number }
        }
        _ => return Ok(None),
    };
    Ok(Some(event))
}

// The events without fields.
fn bare_event(name: &str) -> Option<KeptEvent> {
    match name {
        "Begin" => Some(KeptEvent::Begin),
        "DrawNode" => Some(KeptEvent::DrawNode),
        "DrawHandle" => Some(KeptEvent::DrawHandle),
        "Clear" => Some(KeptEvent::Clear),
        "TakeClosing" => Some(KeptEvent::TakeClosing),
        _ => None,
    }
}

impl Read for KeptEvent {
    fn read(words: &mut Words<'_>) -> Result<Self, ReadError> {
        let name = words.name()?;
        if let Some(event) = bare_event(name) {
            return Ok(event);
        }
        if let Some(event) = next_of_numbers(name, words)? {
            return Ok(event);
        }
        if let Some(event) = next_of_slots(name, words)? {
            return Ok(event);
        }
        next_of_handles(name, words)?.ok_or(ReadError::Bad)
    }
}
