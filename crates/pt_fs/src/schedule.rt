ghost use Rattle.std.specs.Prelude.{◌≡◌, ◌+◌, ◌<◌, ◌^◌, ℕ, [], Some, suc, length, IfOk, OnErr};
ghost use Rattle.pt_fs.specs.GoesOn.{GoesOn};
ghost use Rattle.pt_fs.specs.Loses.{LostAt};
ghost use Rattle.pt_fs.specs.Order.{order, rest_of};
ghost use Rattle.pt_fs.specs.Recorded.{Wrote};
ghost use Rattle.pt_fs.specs.Shared.{RunIsFull, RunKeepsPace, RunStopped, Shares};
ghost use Rattle.pt_fs.specs.Took.{Took, IsFinishedAt, NoneLost, OnKept, OnLoss, TookOrStays};

use crate::job::JobId;
use crate::jobs::{Jobs, take_step};
use crate::record::Record;
use crate::shared::Run;
use pt_host::{Errno, Host};
use std::alloc::AllocError;

/// A job that lost its seat, and what its restoring step was answered.
#[derive(Drop)]
pub struct Loss {
    pub id: JobId,
    pub errno: Errno,
}

/// The job of this number takes its next step, if there is one that has not finished. Tells what that lost of its
/// seat.
fn take_if_unfinished<H: Host, R: Record>(
    run: &mut Run<'_, '_, H, R>,
    running: &mut Jobs,
    id: JobId,
) -> Result<Option<Errno>, AllocError>
    ensures shares { Shares run.old run.new }
    ensures goes { OnKept result (Wrote R.wrote run.old.writer.now run.new.writer.now (λ steps.
        TookOrStays H.does run.old.plan.now id.0 run.old.host.now running.old run.old.session.now []
        run.new.host.now running.new run.new.session.now steps)) }
    ensures lost { OnLoss result (λ errno. Wrote R.wrote run.old.writer.now run.new.writer.now (λ steps.
        Took H.does run.old.plan.now id.0 run.old.host.now running.old run.old.session.now [] run.new.host.now
        running.new run.new.session.now steps (Some errno))) }
    ensures room { IfOk result (λ told. RunKeepsPace R.room run.old running.old run.new running.new) }
    ensures stopped { OnErr result (RunStopped H.does R.wrote R.unwritten run.old running.old run.new) }
    ensures full { OnErr result (RunIsFull R.room run.old running.old) }
{
    if id.0 as usize >= running.len() {
        return Ok(None);
    }
    if running.is_finished(id) {
        return Ok(None);
    }
    take_step(run, running, id)
}

/// Each place of the schedule that names an unfinished job takes that job's next step, as long as no seat is lost.
pub fn run_schedule<H: Host, R: Record>(
    run: &mut Run<'_, '_, H, R>,
    running: &mut Jobs,
    schedule: &[u32],
) -> Result<Option<Loss>, AllocError>
    requires calm { NoneLost running.old }
    ensures shares { Shares run.old run.new }
    ensures goes { OnKept result (Wrote R.wrote run.old.writer.now run.new.writer.now (λ steps.
        GoesOn H.does run.old.plan.now (order schedule.now (length running.old)) run.old.host.now running.old
        run.old.session.now [] (rest_of (length running.old) 0) run.new.host.now running.new run.new.session.now
        steps)) }
    ensures calm { OnKept result (NoneLost running.new) }
    ensures lost { OnLoss result (λ loss. Wrote R.wrote run.old.writer.now run.new.writer.now (λ steps.
        LostAt H.does run.old.plan.now (order schedule.now (length running.old)) run.old.host.now running.old
        run.old.session.now [] run.new.host.now running.new run.new.session.now steps loss.id.0 loss.errno)) }
    ensures room { IfOk result (λ told. RunKeepsPace R.room run.old running.old run.new running.new) }
    ensures stopped { OnErr result (RunStopped H.does R.wrote R.unwritten run.old running.old run.new) }
    ensures full { OnErr result (RunIsFull R.room run.old running.old) }
{
    for &place in schedule {
        let id = JobId(place);
        if let Some(errno) = take_if_unfinished(run, running, id)? {
            return Ok(Some(Loss { id, errno }));
        }
    }
    Ok(None)
}

/// One job takes all its remaining steps, as long as it keeps its seat.
fn finish_one<H: Host, R: Record>(
    run: &mut Run<'_, '_, H, R>,
    running: &mut Jobs,
    id: JobId,
) -> Result<Option<Errno>, AllocError>
    requires named { id.0 < length running.old }
    requires calm { NoneLost running.old }
    ensures shares { Shares run.old run.new }
    ensures goes { OnKept result ((jobs : ℕ) → Wrote R.wrote run.old.writer.now run.new.writer.now (λ steps.
        GoesOn H.does run.old.plan.now (rest_of (suc jobs) id.0) run.old.host.now running.old run.old.session.now []
        (rest_of jobs (id.0 + 1)) run.new.host.now running.new run.new.session.now steps)) }
    ensures finished { OnKept result (IsFinishedAt running.new id.0) }
    ensures others { OnKept result ((j : ℕ) → IsFinishedAt running.old j → IsFinishedAt running.new j) }
    ensures calm { OnKept result (NoneLost running.new) }
    ensures lost { OnLoss result (λ errno. (jobs : ℕ) → Wrote R.wrote run.old.writer.now run.new.writer.now (λ steps.
        LostAt H.does run.old.plan.now (rest_of (suc jobs) id.0) run.old.host.now running.old run.old.session.now []
        run.new.host.now running.new run.new.session.now steps id.0 errno)) }
    ensures room { IfOk result (λ told. RunKeepsPace R.room run.old running.old run.new running.new) }
    ensures stopped { OnErr result (RunStopped H.does R.wrote R.unwritten run.old running.old run.new) }
    ensures full { OnErr result (RunIsFull R.room run.old running.old) }
{
    while !running.is_finished(id) {
        if let Some(errno) = take_step(run, running, id)? {
            return Ok(Some(errno));
        }
    }
    Ok(None)
}

/// The jobs in order take all their remaining steps, as long as no seat is lost.
pub fn finish_all<H: Host, R: Record>(
    run: &mut Run<'_, '_, H, R>,
    running: &mut Jobs,
) -> Result<Option<Loss>, AllocError>
    requires named { length running.old < 2 ^ 32 }
    requires calm { NoneLost running.old }
    ensures shares { Shares run.old run.new }
    ensures goes { OnKept result (Wrote R.wrote run.old.writer.now run.new.writer.now (λ steps.
        GoesOn H.does run.old.plan.now (rest_of (length running.old) 0) run.old.host.now running.old
        run.old.session.now [] (rest_of 0 (length running.old)) run.new.host.now running.new run.new.session.now
        steps)) }
    ensures finished { OnKept result ((j : ℕ) → IsFinishedAt running.new j) }
    ensures calm { OnKept result (NoneLost running.new) }
    ensures lost { OnLoss result (λ loss. Wrote R.wrote run.old.writer.now run.new.writer.now (λ steps.
        LostAt H.does run.old.plan.now (rest_of (length running.old) 0) run.old.host.now running.old
        run.old.session.now [] run.new.host.now running.new run.new.session.now steps loss.id.0 loss.errno)) }
    ensures room { IfOk result (λ told. RunKeepsPace R.room run.old running.old run.new running.new) }
    ensures stopped { OnErr result (RunStopped H.does R.wrote R.unwritten run.old running.old run.new) }
    ensures full { OnErr result (RunIsFull R.room run.old running.old) }
{
    for place in 0..running.len() {
        let id = JobId(place as u32);
        if let Some(errno) = finish_one(run, running, id)? {
            return Ok(Some(Loss { id, errno }));
        }
    }
    Ok(None)
}

/// The jobs take their steps in the order of the schedule, and then all that are left, job by job, as long as no seat
/// is lost.
pub fn run_jobs<H: Host, R: Record>(
    run: &mut Run<'_, '_, H, R>,
    running: &mut Jobs,
    schedule: &[u32],
) -> Result<Option<Loss>, AllocError>
    requires named { length running.old < 2 ^ 32 }
    requires calm { NoneLost running.old }
    ensures shares { Shares run.old run.new }
    ensures goes { OnKept result (Wrote R.wrote run.old.writer.now run.new.writer.now (λ steps.
        GoesOn H.does run.old.plan.now (order schedule.now (length running.old)) run.old.host.now running.old
        run.old.session.now [] (rest_of 0 (length running.old)) run.new.host.now running.new run.new.session.now
        steps)) }
    ensures finished { OnKept result ((j : ℕ) → IsFinishedAt running.new j) }
    ensures calm { OnKept result (NoneLost running.new) }
    ensures lost { OnLoss result (λ loss. Wrote R.wrote run.old.writer.now run.new.writer.now (λ steps.
        LostAt H.does run.old.plan.now (order schedule.now (length running.old)) run.old.host.now running.old
        run.old.session.now [] run.new.host.now running.new run.new.session.now steps loss.id.0 loss.errno)) }
    ensures room { IfOk result (λ told. RunKeepsPace R.room run.old running.old run.new running.new) }
    ensures stopped { OnErr result (RunStopped H.does R.wrote R.unwritten run.old running.old run.new) }
    ensures full { OnErr result (RunIsFull R.room run.old running.old) }
{
    if let Some(loss) = run_schedule(run, running, schedule)? {
        return Ok(Some(loss));
    }
    finish_all(run, running)
}
