ghost use Rattle.std.specs.Prelude.{◌≤◌, vec_capacity, ◌≡◌, ◌<◌, ◌^◌, ℕ, List, [], length, IfOk};
ghost use Rattle.pt_tables.specs.Tables.{empty_tables};
ghost use Rattle.pt_fs.specs.Ends.{EndsWhole, LosesSeat, OnDriven, OnLost, OnMemory};
ghost use Rattle.pt_fs.specs.Jobs.{StartAll};
ghost use Rattle.pt_fs.specs.Run.{IsRun};
ghost use Rattle.pt_fs.specs.Trace.{room_of as room, seated};

use crate::ends::push_seat;
use crate::fs::SteppedFs;
use crate::job::Job;
use crate::recorded::{DriveIntoError, Left, drive_into};
use crate::room::{room_of, with_room};
use crate::trace::TraceStep;
use pt_host::{Errno, Host, HostSeat};
use pt_iface::Answer;
use std::alloc::Global;

/// What a run leaves: the file system, the answers and the steps of its jobs, and the seats of those that are no
/// edit.
#[derive(Drop)]
pub struct Driven<F> {
    pub fs: F,
    pub answers: Vec<Answer>,
    pub trace: Vec<TraceStep>,
    pub seats: Vec<HostSeat>,
}

/// Why a run did not begin, or did not come to its end.
#[derive(Drop)]
pub enum DriveError<F> {
    /// The run finds no memory; the file system is handed back.
    Memory(F),
    /// The seat of this job could not be restored, and this is why. All jobs gave back what they held, and this is
    /// what is left.
    CredentialsLost(u32, Errno, Driven<F>),
}

/// Takes the jobs' steps in the order of the schedule, and then all that are left, job by job. A place of the
/// schedule that names no unfinished job does nothing. Where a seat is lost, its job makes its other restoring steps,
/// the unfinished jobs are cut, and all is given back.
pub fn drive<H: Host, F: SteppedFs>(
    alloc: Global,
    fs: F,
    host: &mut H,
    jobs: Vec<Job>,
    schedule: &[u32],
) -> Result<Driven<F>, DriveError<F>>
    requires few { length jobs.items < 2 ^ 32 }
    requires new { (limits : List ℕ) × (F.tables fs ≡ empty_tables limits) }
    requires seats { StartAll jobs.items }

    // However the run ended, each clause of a run holds of what is returned: where the trace leads, each job's
    // answer, and what tables and tree keep after every step and at the end.
    ensures run { OnDriven result (λ driven.
        IsRun H.does (F.plan_of fs) jobs.items host.old (H.tree host.old) (F.tables fs)
        driven.trace.items driven.answers.items host.new (H.tree host.new) driven.seats.items (F.tables driven.fs)) }

    // Where no seat was lost the steps are in the schedule's order, each job is answered by its pattern, none is cut.
    ensures whole { IfOk result (λ driven.
        EndsWhole (F.plan_of fs) jobs.items schedule.now driven.trace.items driven.answers.items) }

    // A seat is lost exactly where a restoring step failed; exactly the jobs that were unfinished there are cut.
    ensures lost_seat { OnLost result (λ lost errno driven.
        LosesSeat H.does H.faults (F.plan_of fs) jobs.items schedule.now host.old (F.tables fs)
        driven.trace.items driven.answers.items lost errno) }

    // The room for the trace is had before the first step, as want of memory comes before it.
    ensures room { OnDriven result (λ driven. room jobs.items ≤ vec_capacity driven.trace) }

    // The configuration and the descriptor of the host's root stay.
    ensures plan { OnDriven result (λ driven. F.plan_of driven.fs ≡ F.plan_of fs) }
    ensures root { OnDriven result (λ driven. F.root driven.fs ≡ F.root fs) }

    // Want of memory comes before the first step, and the file system comes back as it was.
    ensures nothing_done { OnMemory result (λ back. host.new ≡ host.old) }
    ensures handed_back { OnMemory result (λ back. back ≡ fs) }
{
    let mut trace = match with_room(alloc, room_of(&jobs)) {
        Ok(trace) => trace,
        Err(_) => return Err(DriveError::Memory(fs)),
    };
    let seats = match with_room(alloc, jobs.len()) {
        Ok(seats) => seats,
        Err(_) => return Err(DriveError::Memory(fs)),
    };
    match drive_into(alloc, fs, host, jobs, schedule, &mut trace) {
        Ok(left) => Ok(with_trace(left, trace, seats)),
        Err(DriveIntoError::CredentialsLost(job, errno, left)) => {
            Err(DriveError::CredentialsLost(job, errno, with_trace(left, trace, seats)))
        }
        // The trace has room, so that it is the jobs that find no memory.
        Err(DriveIntoError::Memory(fs)) | Err(DriveIntoError::Record(fs)) => {
            Err(DriveError::Memory(fs))
        }
    }
}

/// What a run left, and its steps, and the seats of those that are no edit, for which there is room.
fn with_trace<F>(left: Left<F>, trace: Vec<TraceStep>, mut seats: Vec<HostSeat>) -> Driven<F>
    requires no_seats { seats.items ≡ [] }
    requires room { length left.seats.items ≤ vec_capacity seats }
    ensures fs { result.fs ≡ left.fs }
    ensures answers { result.answers ≡ left.answers }
    ensures trace { result.trace ≡ trace }
    ensures seats { result.seats.items ≡ seated left.seats.items }
{
    for seat in left.seats {
        push_seat(&mut seats, seat);
    }
    Driven {
        fs: left.fs,
        answers: left.answers,
        trace,
        seats,
    }
}
