//! What follows a lost seat.

ghost use Rattle.std.specs.Prelude.{◌≡◌, ◌+◌, ◌<◌, ◌≤◌, ◌^◌, ℕ, [], Some, suc, length, slice_get, slice_set};
ghost use Rattle.std.specs.Prelude.{OnErr, OnOk};
ghost use Rattle.pt_fs.specs.Running.{Running, steps_bound, inserts_left};
ghost use Rattle.pt_fs.specs.GoesOn.{GoesOn};
ghost use Rattle.pt_fs.specs.Loses.{Restored, IsOver, IsCutFrom, CutAll, WindsUp};
ghost use Rattle.pt_fs.specs.Order.{rest_of};
ghost use Rattle.pt_fs.specs.Recorded.{Wrote};
ghost use Rattle.pt_fs.specs.Shared.{RunIsFull, RunKeepsPace, RunStopped, Shares};
ghost use Rattle.pt_fs.specs.Took.{IsFinishedAt};
ghost use Rattle.pt_fs.specs.Work.{bounds_in};

use crate::job::JobId;
use crate::jobs::{Jobs, take_step};
use crate::record::Record;
use crate::shared::Run;
use pt_host::Host;
use std::alloc::AllocError;

/// The other restoring steps of the job that lost its seat, each once.
fn restore_rest<H: Host, R: Record>(
    run: &mut Run<'_, '_, H, R>,
    running: &mut Jobs,
    id: JobId,
) -> Result<(), AllocError>
    requires named { id.0 < length running.old }
    ensures shares { Shares run.old run.new }
    ensures restored { OnOk result (Wrote R.wrote run.old.writer.now run.new.writer.now (λ steps.
        Restored H.does run.old.plan.now id.0 run.old.host.now running.old run.old.session.now [] run.new.host.now
        running.new run.new.session.now steps)) }
    ensures over { OnOk result (IsOver run.old.plan.now id.0 running.new) }
    ensures room { OnOk result (RunKeepsPace R.room run.old running.old run.new running.new) }
    ensures stopped { OnErr result (RunStopped H.does R.wrote R.unwritten run.old running.old run.new) }
    ensures full { OnErr result (RunIsFull R.room run.old running.old) }
{
    while running.restoring(id) {
        let _lost = take_step(run, running, id)?;
    }
    Ok(())
}

/// Cuts the job of this number, unless it has finished or is the one that lost its seat.
fn cut_one(running: &mut Jobs, id: JobId, lost: JobId)
    requires named { id.0 < length running.old }
    ensures cut { (run : Running) → slice_get running.old id.0 ≡ Some run →
        (run' : Running) × (running.new ≡ slice_set running.old id.0 run') × IsCutFrom lost.0 id.0 run run'
        × (steps_bound run'.state ≤ steps_bound run.state) × (inserts_left run'.state ≤ inserts_left run.state) }
{
    if id.0 == lost.0 {
        return;
    }
    if running.is_finished(id) {
        return;
    }
    running.cut(id);
}

/// Cuts each unfinished job but the one that lost its seat, which gives all back by itself.
fn cut_all(running: &mut Jobs, lost: JobId)
    requires few { length running.old < 2 ^ 32 }
    ensures cut { CutAll lost.0 running.old running.new }
    ensures same { length running.new ≡ length running.old }
    ensures bounds { bounds_in running.new ≤ bounds_in running.old }
{
    for place in 0..running.len() {
        cut_one(running, JobId(place as u32), lost);
    }
}

/// One job gives back all that it holds, whatever that is answered.
fn end_one<H: Host, R: Record>(
    run: &mut Run<'_, '_, H, R>,
    running: &mut Jobs,
    id: JobId,
) -> Result<(), AllocError>
    requires named { id.0 < length running.old }
    ensures shares { Shares run.old run.new }
    ensures goes { OnOk result ((jobs : ℕ) → Wrote R.wrote run.old.writer.now run.new.writer.now (λ steps.
        GoesOn H.does run.old.plan.now (rest_of (suc jobs) id.0) run.old.host.now running.old run.old.session.now []
        (rest_of jobs (id.0 + 1)) run.new.host.now running.new run.new.session.now steps)) }
    ensures finished { OnOk result (IsFinishedAt running.new id.0) }
    ensures others { OnOk result ((j : ℕ) → IsFinishedAt running.old j → IsFinishedAt running.new j) }
    ensures room { OnOk result (RunKeepsPace R.room run.old running.old run.new running.new) }
    ensures stopped { OnErr result (RunStopped H.does R.wrote R.unwritten run.old running.old run.new) }
    ensures full { OnErr result (RunIsFull R.room run.old running.old) }
{
    while !running.is_finished(id) {
        let _lost = take_step(run, running, id)?;
    }
    Ok(())
}

/// The jobs in order give back all that they hold.
fn end_all<H: Host, R: Record>(
    run: &mut Run<'_, '_, H, R>,
    running: &mut Jobs,
) -> Result<(), AllocError>
    requires named { length running.old < 2 ^ 32 }
    ensures shares { Shares run.old run.new }
    ensures goes { OnOk result (Wrote R.wrote run.old.writer.now run.new.writer.now (λ steps.
        GoesOn H.does run.old.plan.now (rest_of (length running.old) 0) run.old.host.now running.old
        run.old.session.now [] (rest_of 0 (length running.old)) run.new.host.now running.new run.new.session.now
        steps)) }
    ensures finished { OnOk result ((j : ℕ) → IsFinishedAt running.new j) }
    ensures room { OnOk result (RunKeepsPace R.room run.old running.old run.new running.new) }
    ensures stopped { OnErr result (RunStopped H.does R.wrote R.unwritten run.old running.old run.new) }
    ensures full { OnErr result (RunIsFull R.room run.old running.old) }
{
    for place in 0..running.len() {
        end_one(run, running, JobId(place as u32))?;
    }
    Ok(())
}

/// The job's other restoring steps, then the cut, and then all is given back.
pub fn wind_up<H: Host, R: Record>(
    run: &mut Run<'_, '_, H, R>,
    running: &mut Jobs,
    id: JobId,
) -> Result<(), AllocError>
    requires few { length running.old < 2 ^ 32 }
    requires named { id.0 < length running.old }
    ensures shares { Shares run.old run.new }
    ensures winds_up { OnOk result (Wrote R.wrote run.old.writer.now run.new.writer.now (λ steps.
        WindsUp H.does run.old.plan.now id.0 run.old.host.now running.old run.old.session.now [] run.new.host.now
        running.new run.new.session.now steps)) }
    ensures finished { OnOk result ((j : ℕ) → IsFinishedAt running.new j) }
    ensures same { OnOk result (length running.new ≡ length running.old) }
    ensures room { OnOk result (RunKeepsPace R.room run.old running.old run.new running.new) }
    ensures stopped { OnErr result (RunStopped H.does R.wrote R.unwritten run.old running.old run.new) }
    ensures full { OnErr result (RunIsFull R.room run.old running.old) }
{
    restore_rest(run, running, id)?;
    cut_all(running, id);
    end_all(run, running)
}
