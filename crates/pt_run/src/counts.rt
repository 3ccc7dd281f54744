//! What of a run is counted.

ghost use Rattle.std.specs.Prelude.{◌≡◌, ◌++◌, IfOk, OnOk, None, count_by};
ghost use Rattle.pt_tables.specs.LiveAfter.{IsLiveAfter, IsHandleAfter};
ghost use Rattle.pt_run.specs.Counts.{is_refused, lacks_memory, is_served, count_line, count_lines};
ghost use Rattle.pt_run.specs.TableLines.{LivesAbove, HandlesAbove};

use pt_frame::{Act, ActReply};
use pt_fs::{Record, WrittenAct};
use pt_iface::Answer;
use pt_session::Session;
use pt_show::Text;
use pt_text::push_text;
use std::alloc::{AllocError, Global};

/// How many steps a run made, of which nothing else is kept.
#[derive(Drop)]
pub(crate) struct StepCount {
    pub steps: u64,
}

impl Record for StepCount {
    ghost use Rattle.std.specs.Prelude.{◌≡◌, ◌+◌, ◌-◌, ◌^◌};

    ghost wrote = { λ count step more. more.steps ≡ count.steps + 1 };

    ghost wrote_act = { λ count job act more. more.steps ≡ count.steps + 1 };

    ghost unwritten = { λ count left. left.steps ≡ count.steps };

    ghost room = { λ count. 2 ^ 64 - 1 - count.steps };

    fn write_act(
        &mut self,
        _alloc: Global,
        _job: u32,
        _act: &Act<'_>,
    ) -> Result<WrittenAct, AllocError> {
        // No machine has the time to come to the end of the count.
        let Some(steps) = self.steps.checked_add(1) else {
            return Err(AllocError);
        };
        self.steps = steps;
        Ok(WrittenAct::Whole)
    }

    fn write_reply(&mut self, _alloc: Global, _reply: &mut ActReply) -> Result<(), AllocError> {
        Ok(())
    }
}

fn is_refused(answer: &Answer) -> bool
    ensures { result ≡ is_refused answer.now }
{
    matches!(answer, Answer::Refused(_))
}

fn lacks_memory(answer: &Answer) -> bool
    ensures { result ≡ lacks_memory answer.now }
{
    matches!(answer, Answer::NoMemory)
}

fn is_served(answer: &Answer) -> bool
    ensures { result ≡ is_served answer.now }
{
    !matches!(answer, Answer::Refused(_) | Answer::NoMemory)
}

/// How many of these were refused.
pub(crate) fn refused_in(answers: &[Answer]) -> usize
    ensures { result ≡ count_by is_refused answers.now }
{
    answers.iter().filter(|answer| is_refused(answer)).count()
}

/// How many of these are that memory ran out.
pub(crate) fn lacking_in(answers: &[Answer]) -> usize
    ensures { result ≡ count_by lacks_memory answers.now }
{
    answers.iter().filter(|answer| lacks_memory(answer)).count()
}

/// How many of these are neither.
pub(crate) fn served_in(answers: &[Answer]) -> usize
    ensures { result ≡ count_by is_served answers.now }
{
    answers.iter().filter(|answer| is_served(answer)).count()
}

/// The live numbers with their counts, ascending.
pub(crate) fn lives_of(alloc: Global, session: &Session) -> Result<Vec<(u64, u64)>, AllocError>
    ensures { IfOk result (λ lives. LivesAbove session.now.rows None lives.items) }
{
    let mut lives = Vec::new(alloc);
    let mut above = None;
    while let Some(live) = session.live_after(above) {
        lives.push(live)?;
        above = Some(live.0);
    }
    Ok(lives)
}

/// The live handles with the numbers that they were opened for, ascending.
pub(crate) fn handles_of(alloc: Global, session: &Session) -> Result<Vec<(u64, u64)>, AllocError>
    ensures { IfOk result (λ handles. HandlesAbove session.now.handles None handles.items) }
{
    let mut handles = Vec::new(alloc);
    let mut above = None;
    while let Some(pair) = session.handle_after(above) {
        handles.push(pair)?;
        above = Some(pair.0);
    }
    Ok(handles)
}

/// What a run comes to, in numbers.
#[derive(Clone, Copy)]
pub(crate) struct Counts {
    pub jobs: u64,
    pub steps: u64,
    /// The jobs that were answered neither of the next two.
    pub served: u64,
    pub refused: u64,
    pub no_memory: u64,
    pub live: u64,
    pub handles: u64,
    pub slots: u64,
}

fn push_count(out: &mut Vec<u8>, name: &[u8], count: u64) -> Result<(), AllocError>
    ensures { OnOk result (out.new.items ≡ out.old.items ++ count_line name.now count) }
{
    push_text(out, name)?;
    count.write(out)?;
    push_text(out, b"\n")
}

impl Counts {
    /// Appends a line for each.
    pub fn push_lines(&self, out: &mut Vec<u8>) -> Result<(), AllocError>
        ensures { OnOk result (out.new.items ≡ out.old.items ++ count_lines self.now) }
    {
        push_count(out, b"jobs", self.jobs)?;
        push_count(out, b"steps", self.steps)?;
        push_count(out, b"ok", self.served)?;
        push_count(out, b"refused", self.refused)?;
        push_count(out, b"nomem", self.no_memory)?;
        push_count(out, b"live", self.live)?;
        push_count(out, b"handles", self.handles)?;
        push_count(out, b"slots", self.slots)
    }
}
