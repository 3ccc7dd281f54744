//! A run whose steps are written down as they are made.

ghost use Rattle.std.specs.Prelude.{◌≡◌, ◌<◌, ◌^◌, ℕ, List, length, map};
ghost use Rattle.pt_tables.specs.Tables.{empty_tables};
ghost use Rattle.pt_fs.specs.Each.{EachAnswered};
ghost use Rattle.pt_fs.specs.Ends.{RunEndsSo};
ghost use Rattle.pt_fs.specs.Jobs.{StartAll, job_seat};
ghost use Rattle.pt_fs.specs.Recorded.{OnEnd, OnNoRoom, OnUnwritten, Wrote, fs_back};
ghost use Rattle.pt_fs.specs.Run.{IsRun};
ghost use Rattle.pt_fs.specs.Stopped.{Stopped};
ghost use Rattle.pt_fs.specs.Took.{IsFinishedAt};
ghost use Rattle.pt_fs.specs.Trace.{seated, room_of as room};
ghost use Rattle.pt_fs.specs.Went.{run_seat};

use crate::fs::SteppedFs;
use crate::job::Job;
use crate::jobs::Jobs;
use crate::lost::wind_up;
use crate::record::Record;
use crate::schedule::run_jobs;
use crate::shared::Run;
use pt_host::{Errno, Host, HostSeat};
use pt_iface::Answer;
use pt_session::{Session, one_limit};
use std::alloc::Global;

/// What a run leaves, its steps aside: the file system, the answer of each job, and its seat, which an edit has not.
#[derive(Drop)]
pub struct Left<F> {
    pub fs: F,
    pub answers: Vec<Answer>,
    pub seats: Vec<Option<HostSeat>>,
}

/// Why a run did not begin, or did not come to its end.
#[derive(Drop)]
pub enum DriveIntoError<F> {
    /// The jobs find no memory; the file system is handed back.
    Memory(F),
    /// A step that was made could not be written down, and the run stopped there. What its jobs hold is not given
    /// back.
    Record(F),
    /// The seat of this job could not be restored, and this is why. All jobs gave back what they held, and this is
    /// what is left.
    CredentialsLost(u32, Errno, Left<F>),
}

/// Takes the jobs' steps in the order of the schedule, and then all that are left, job by job, and writes each down
/// where it was made. A place of the schedule that names no unfinished job does nothing. Where a seat is lost, its
/// job makes its other restoring steps, the unfinished jobs are cut, and all is given back.
pub fn drive_into<H: Host, F: SteppedFs, R: Record>(
    alloc: Global,
    mut fs: F,
    host: &mut H,
    jobs: Vec<Job>,
    schedule: &[u32],
    writer: &mut R,
) -> Result<Left<F>, DriveIntoError<F>>
    requires few { length jobs.items < 2 ^ 32 }
    requires new { (limits : List ℕ) × (F.tables fs ≡ empty_tables limits) }
    requires seats { StartAll jobs.items }

    // However the run ended, the steps that were written down are its trace, of which each clause of a run holds:
    // where it leads, each job's answer, and what tables and tree keep after every step and at the end. Where no seat
    // was lost they are in the schedule's order, each job is answered by its pattern, and none is cut. A seat is lost
    // exactly where a restoring step failed; exactly the jobs that were unfinished there are cut.
    ensures run { OnEnd result (λ left lost. Wrote R.wrote writer.old writer.new (λ trace.
        IsRun H.does (F.plan_of fs) jobs.items host.old (H.tree host.old) (F.tables fs)
        trace left.answers.items host.new (H.tree host.new) (seated left.seats.items) (F.tables left.fs)
        × RunEndsSo H.does H.faults (F.plan_of fs) jobs.items schedule.now host.old (F.tables fs) trace
        left.answers.items lost)) }

    // Each job has its seat's place, also an edit, which has none.
    ensures one_each { OnEnd result (λ left lost. length left.seats.items ≡ length jobs.items) }

    // However the run ended, the configuration and the descriptor of the host's root stay.
    ensures plan { F.plan_of (fs_back result) ≡ F.plan_of fs }
    ensures root { F.root (fs_back result) ≡ F.root fs }

    // Want of memory for the jobs comes before the first step, and the file system comes back as it was.
    ensures nothing_done { OnNoRoom result (λ back. (host.new ≡ host.old) × (writer.new ≡ writer.old)) }
    ensures handed_back { OnNoRoom result (λ back. back ≡ fs) }

    // Where a step could not be written down, those that were lead to where it was made, and nothing is made after it.
    ensures stopped { OnUnwritten result (λ back.
        Stopped H.does R.wrote R.unwritten host.old (map job_seat jobs.items) (F.tables fs) writer.old
        host.new (F.tables back) writer.new) }

    // A record with room for all steps is not full.
    ensures full { OnUnwritten result (λ stopped. R.room writer.old < room jobs.items) }
{
    let mut running = match Jobs::new(alloc, jobs) {
        Ok(running) => running,
        Err(_) => return Err(DriveIntoError::Memory(fs)),
    };
    // The run has the tables for itself, and the configuration lies still beside them.
    let mut session = fs.replace_session(Session::new(alloc, one_limit(0)));
    let mut run = Run {
        alloc,
        plan: fs.plan(),
        host,
        session: &mut session,
        writer,
    };
    match run_jobs(&mut run, &mut running, schedule) {
        Ok(None) => Ok(finish_run(with_tables(fs, session), running)),
        Ok(Some(loss)) => match wind_up(&mut run, &mut running, loss.id) {
            Ok(()) => {
                let left = finish_run(with_tables(fs, session), running);
                Err(DriveIntoError::CredentialsLost(loss.id.0, loss.errno, left))
            }
            Err(_) => Err(DriveIntoError::Record(with_tables(fs, session))),
        },
        Err(_) => Err(DriveIntoError::Record(with_tables(fs, session))),
    }
}

/// The file system with these tables.
fn with_tables<F: SteppedFs>(mut fs: F, session: Session) -> F
    ensures tables { F.tables result ≡ session }
    ensures plan { F.plan_of result ≡ F.plan_of fs }
    ensures root { F.root result ≡ F.root fs }
{
    let _stood = fs.replace_session(session);
    fs
}

/// What is left where each job has finished.
fn finish_run<F>(fs: F, running: Jobs) -> Left<F>
    requires finished { (j : ℕ) → IsFinishedAt running j }
    ensures fs { result.fs ≡ fs }
    ensures answers { EachAnswered running result.answers.items }
    ensures seats { result.seats.items ≡ map run_seat running }
{
    let (answers, seats) = running.finish();
    Left { fs, answers, seats }
}
