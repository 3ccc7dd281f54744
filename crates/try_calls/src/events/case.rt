use crate::trouble::Trouble;
use pt_session::{ByClass, EventReply, KeptEvent, Session};
use pt_show::{Text, read_text};
use pt_text::push_text;
use std::alloc::{AllocError, Global};

/// A case, and the session that it began.
#[derive(Drop)]
pub struct Case {
    pub alloc: Global,
    session: Option<Session>,
}

fn push_pair(out: &mut Vec<u8>, name: &[u8], pair: (u64, u64)) -> Result<(), AllocError> {
    push_text(out, name)?;
    pair.write(out)?;
    push_text(out, b"\n")
}

fn push_count(out: &mut Vec<u8>, name: &[u8], count: u64) -> Result<(), AllocError> {
    push_text(out, name)?;
    count.write(out)?;
    push_text(out, b"\n")
}

// Each live number has a row, so that there are no more of them than rows; so with the handles.
fn push_lives(out: &mut Vec<u8>, session: &Session) -> Result<(), AllocError> {
    let mut above = None;
    for _ in 0..session.pending() {
        let Some(live) = session.live_after(above) else {
            break;
        };
        push_pair(out, b"live", live)?;
        above = Some(live.0);
    }
    Ok(())
}

fn push_handles(out: &mut Vec<u8>, session: &Session) -> Result<(), AllocError> {
    let mut above = None;
    for _ in 0..session.pending() {
        let Some(handle) = session.handle_after(above) else {
            break;
        };
        push_pair(out, b"handle", handle)?;
        above = Some(handle.0);
    }
    Ok(())
}

impl Case {
    /// A case without a session, in which no event may stand.
    pub fn none(alloc: Global) -> Self {
        Case {
            alloc,
            session: None,
        }
    }

    /// Begins the session, which is bad where one was begun.
    pub fn begin(&mut self, limits: ByClass) -> Result<(), Trouble> {
        if self.session.is_some() {
            return Err(Trouble::Bad);
        }
        self.session = Some(Session::new(self.alloc, limits));
        Ok(())
    }

    /// What the event of this text is answered, which is bad where there is no session.
    pub fn answer(&mut self, text: &[u8]) -> Result<EventReply, Trouble> {
        let event: KeptEvent = read_text(self.alloc, text)?;
        // as a trace keeps it
        let kept = event.lend().keep(self.alloc)?;
        match &mut self.session {
            Some(session) => Ok(session.event(&kept.lend())),
            None => Err(Trouble::Bad),
        }
    }

    /// Appends the tables as far as they are told, where there are any.
    pub fn push_tables(&self, out: &mut Vec<u8>) -> Result<(), AllocError> {
        let Some(session) = &self.session else {
            return Ok(());
        };
        push_lives(out, session)?;
        push_handles(out, session)?;
        push_count(out, b"slots", session.slots_left(0))?;
        for class in 1..session.classes() {
            push_pair(out, b"class", (u64::from(class), session.slots_left(class)))?;
        }
        push_count(out, b"pending", session.pending())?;
        push_text(out, b"adds_up")?;
        session.adds_up().write(out)?;
        push_text(out, b"\n")
    }
}
