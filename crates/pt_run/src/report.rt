ghost use Rattle.std.specs.Prelude.{◌≡◌, ◌++◌, OnOk};
ghost use Rattle.pt_frame.specs.Deed.{deed_of};
ghost use Rattle.pt_show.specs.ActTexts.{deed_text};
ghost use Rattle.pt_run.specs.Report.{step_begin, step_end, answer_line, answer_lines, lost_lines};

use pt_frame::{Act, ActReply};
use pt_fs::{Record, WrittenAct};
use pt_host::Errno;
use pt_iface::Answer;
use pt_show::Text;
use pt_text::push_text;
use std::alloc::{AllocError, Global};

/// The job whose seat was lost, and what its restoring step was answered.
#[derive(Clone, Copy)]
pub struct LostJob {
    pub job: u32,
    pub errno: Errno,
}

/// Appends the first part of a step's line, what the job is to do.
fn push_act(out: &mut Vec<u8>, job: u32, act: &Act<'_>) -> Result<(), AllocError>
    ensures { OnOk result (out.new.items ≡ out.old.items ++ step_begin job (deed_text (deed_of act.now))) }
{
    push_text(out, b"step")?;
    job.write(out)?;
    act.write(out)
}

/// Appends the rest of it, what that was answered.
fn push_reply(out: &mut Vec<u8>, reply: &ActReply) -> Result<(), AllocError>
    ensures { OnOk result (out.new.items ≡ out.old.items ++ step_end reply.now) }
{
    push_text(out, b" =")?;
    reply.write(out)?;
    push_text(out, b"\n")
}

/// The lines of a run's steps, each written where its step is made, without a copy of it. After an `Err` part of a
/// line may stand there.
#[derive(Drop)]
pub(crate) struct StepLines {
    pub text: Vec<u8>,
}

impl Record for StepLines {
    ghost use Rattle.std.specs.Prelude.{◌≡◌, ◌++◌};
    ghost use Rattle.pt_run.specs.Report.{step_begin, step_line};
    ghost use Rattle.pt_show.specs.ActTexts.{act_text};

    ghost wrote = { λ lines step longer.
        longer.text.items ≡ lines.text.items ++ step_line step.job step.act step.reply };

    ghost wrote_act = { λ lines job act longer.
        longer.text.items ≡ lines.text.items ++ step_begin job (act_text act) };

    ghost unwritten = { λ lines left. Unit {0} };

    ghost room = { λ lines. 0 };

    fn write_act(
        &mut self,
        _alloc: Global,
        job: u32,
        act: &Act<'_>,
    ) -> Result<WrittenAct, AllocError> {
        push_act(&mut self.text, job, act)?;
        Ok(WrittenAct::Whole)
    }

    fn write_reply(&mut self, _alloc: Global, reply: &mut ActReply) -> Result<(), AllocError> {
        push_reply(&mut self.text, reply)
    }
}

fn push_answer(out: &mut Vec<u8>, job: u64, answer: &Answer) -> Result<(), AllocError>
    ensures { OnOk result (out.new.items ≡ out.old.items ++ answer_line job answer.now) }
{
    push_text(out, b"answer")?;
    job.write(out)?;
    answer.write(out)?;
    push_text(out, b"\n")
}

/// Appends the lines of the answers, in the order of the jobs.
pub(crate) fn push_answers(out: &mut Vec<u8>, answers: &[Answer]) -> Result<(), AllocError>
    ensures { OnOk result (out.new.items ≡ out.old.items ++ answer_lines 0 answers.now) }
{
    for (job, answer) in answers.iter().enumerate() {
        push_answer(out, job as u64, answer)?;
    }
    Ok(())
}

/// Appends the line of the seat that was lost, if one was.
pub(crate) fn push_lost(out: &mut Vec<u8>, lost: Option<LostJob>) -> Result<(), AllocError>
    ensures { OnOk result (out.new.items ≡ out.old.items ++ lost_lines lost) }
{
    let Some(lost) = lost else {
        return Ok(());
    };
    push_text(out, b"lost")?;
    lost.job.write(out)?;
    lost.errno.write(out)?;
    push_text(out, b"\n")
}
