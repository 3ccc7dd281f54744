//! Where the jobs of a run are. Each part of a place lies among its like, so that none takes room for another's.

ghost use Rattle.std.specs.Prelude.{◌≡◌, ◌<◌, ◌^◌, ℕ, length, map, replicate, slice_get, slice_set, IfOk, Some};
ghost use Rattle.std.specs.Prelude.{Option};
ghost use Rattle.pt_host.specs.Words.{Each};
ghost use Rattle.pt_host.specs.declared.seat.HostSeat.{HostSeat};
ghost use Rattle.pt_iface.specs.declared.answer.Answer.{Answer};
ghost use Rattle.pt_fs.specs.Jobs.{job_seat, job_start};
ghost use Rattle.pt_fs.specs.Placed.{Ended, Goes, JobPlace, Waits, AllEnded, answer_at, lost_in, stage_of};
ghost use Rattle.pt_fs.specs.declared.job.Job.{Job};

use crate::ends::answered;
use crate::job::{Job, JobId};
use crate::machine::{Over, no_seat};
use crate::room::{push_within, with_room};
use pt_frame::Finish;
use pt_host::{Errno, HostSeat};
use pt_iface::Answer;
use std::alloc::{AllocError, Global};
use std::marker::Model;
use std::mem;

/// How far a job is.
#[derive(Clone, Copy)]
pub enum Stage {
    /// It has made no step.
    Waits,
    /// It is on its way, and its machine is this one of them.
    Goes(usize),
    /// It has ended: by the loss of its seat, or with an answer; and then what was lost of its seat.
    Ended(Option<Errno>, Option<Errno>),
}

/// Where each job is, in order, and the seat with which it began.
#[derive(Drop)]
pub struct Places {
    /// The seat with which the job begins. An edit has no one's.
    starts: Vec<HostSeat>,
    /// What the job asks, where it waits.
    asked: Vec<Job>,
    stages: Vec<Stage>,
    /// The answer of a job that has ended.
    answers: Vec<Answer>,
}

impl Model for Places {
    ghost use Rattle.pt_fs.specs.Placed.{InParts, Placed, placed_in};

    ghost Value = { Placed };

    ghost view = { λ places.
        placed_in places.starts.items places.asked.items places.stages.items places.answers.items };

    ghost invariant = { λ places.
        InParts places.starts.items places.asked.items places.stages.items places.answers.items };
}

/// Puts one item in another's place.
fn put<T: Drop>(items: &mut Vec<T>, place: usize, it: T)
    requires { place < length items.old.items }
    ensures { items.new.items ≡ slice_set items.old.items place it }
{
    items[place] = it;
}

/// The effective capabilities of a seat, which are 32 bits.
fn caps_in(seat: &HostSeat) -> u32
    ensures caps { result ≡ seat.now.eff_caps.0 }
    ensures fits { seat.now.eff_caps.0 < 2 ^ 32 }
{
    seat.eff_caps.0
}

/// The seat with which a job begins.
fn start_of(job: &Job) -> HostSeat
    ensures { result ≡ job_start job.now }
{
    match job {
        Job::Request(_, seat, _) | Job::OpenRoot(seat) => seat.copy(),
        Job::Edit(_) => no_seat(),
    }
}

/// The same where it has one, which an edit has not.
fn seat_of(job: &Job) -> Option<HostSeat>
    ensures { result ≡ job_seat job.now }
{
    match job {
        Job::Request(_, seat, _) | Job::OpenRoot(seat) => Some(seat.copy()),
        Job::Edit(_) => None,
    }
}

/// The seats with which jobs begin, an edit's too.
fn starts_of(alloc: Global, jobs: &[Job]) -> Result<Vec<HostSeat>, AllocError>
    ensures starts { IfOk result (λ starts. starts.items ≡ map job_start jobs.now) }
    ensures fits { IfOk result (λ starts.
        Each (λ (job : Job). (job_start job).eff_caps.0 < 2 ^ 32) jobs.now) }
{
    let mut starts = with_room(alloc, jobs.len())?;
    for job in jobs {
        let start = start_of(job);
        // That they are 32 bits is known of what is read alone.
        let _fits = caps_in(&start);
        push_within(&mut starts, start);
    }
    Ok(starts)
}

/// The stages of so many jobs that have made no step, and what stands for their answers.
fn waiting(alloc: Global, count: usize) -> Result<(Vec<Stage>, Vec<Answer>), AllocError>
    ensures stages { IfOk result (λ made. made.0.items ≡ replicate count Stage.Waits) }
    ensures answers { IfOk result (λ made. made.1.items ≡ replicate count Answer.Cut) }
{
    let mut stages = with_room(alloc, count)?;
    let mut answers = with_room(alloc, count)?;
    for _place in 0..count {
        push_within(&mut stages, Stage::Waits);
        push_within(&mut answers, Answer::Cut);
    }
    Ok((stages, answers))
}

/// The seats of jobs that have made no step.
pub fn seats_of(alloc: Global, jobs: &[Job]) -> Result<Vec<Option<HostSeat>>, AllocError>
    ensures { IfOk result (λ seats. seats.items ≡ map job_seat jobs.now) }
{
    let mut seats = with_room(alloc, jobs.len())?;
    for job in jobs {
        push_within(&mut seats, seat_of(job));
    }
    Ok(seats)
}

/// The error by which a job ended, if it lost its seat.
fn loss_of(last: &Finish) -> Option<Errno>
    ensures { result ≡ lost_in last.now }
{
    match last {
        Finish::Lost(errno) => Some(*errno),
        Finish::Answer(_) => None,
    }
}

impl Places {
    /// The places of jobs that have made no step.
    pub fn new(alloc: Global, jobs: Vec<Job>) -> Result<Places, AllocError>
        ensures starts { IfOk result (λ places. places.starts ≡ map job_start jobs.items) }
        ensures waiting { IfOk result (λ places. places.at ≡ map Waits jobs.items) }
        ensures fits { IfOk result (λ places.
            Each (λ (job : Job). (job_start job).eff_caps.0 < 2 ^ 32) jobs.items) }
    {
        let starts = starts_of(alloc, jobs.as_slice())?;
        let (stages, answers) = waiting(alloc, jobs.len())?;
        Ok(Places {
            asked: jobs,
            starts,
            stages,
            answers,
        })
    }

    pub fn len(&self) -> usize
        ensures { result ≡ length self.now.at }
    {
        self.stages.len()
    }

    /// How far the job of this number is.
    pub fn stage(&self, id: JobId) -> Stage
        requires named { id.0 < length self.now.at }
        ensures { (it : JobPlace) → slice_get self.now.at id.0 ≡ Some it → result ≡ stage_of it }
    {
        self.stages[id.0 as usize]
    }

    /// The seat with which the job of this number begins.
    pub fn start(&self, id: JobId) -> &HostSeat
        requires named { id.0 < length self.now.at }
        ensures { slice_get self.now.starts id.0 ≡ Some result.now }
    {
        &self.starts[id.0 as usize]
    }

    /// Hands out the job of this number, which waits, and has it on its way with this machine.
    pub fn begin(&mut self, id: JobId, index: usize) -> Job
        requires waits { (job : Job) × (slice_get self.old.at id.0 ≡ Some (Waits job)) }
        ensures job { slice_get self.old.at id.0 ≡ Some (Waits result) }
        ensures starts { self.new.starts ≡ self.old.starts }
        ensures goes { self.new.at ≡ slice_set self.old.at id.0 (Goes index) }
    {
        self.stages[id.0 as usize] = Stage::Goes(index);
        mem::replace(&mut self.asked[id.0 as usize], Job::OpenRoot(no_seat()))
    }

    /// Has the job of this number go on with this machine.
    pub fn go(&mut self, id: JobId, index: usize)
        requires named { id.0 < length self.old.at }
        ensures starts { self.new.starts ≡ self.old.starts }
        ensures goes { self.new.at ≡ slice_set self.old.at id.0 (Goes index) }
    {
        self.stages[id.0 as usize] = Stage::Goes(index);
    }

    /// Has the job of this number ended.
    pub fn end(&mut self, id: JobId, over: Over)
        requires named { id.0 < length self.old.at }
        ensures starts { self.new.starts ≡ self.old.starts }
        ensures ended { self.new.at ≡ slice_set self.old.at id.0 (Ended over) }
    {
        self.stages[id.0 as usize] = Stage::Ended(loss_of(&over.last), over.lost);
        put(&mut self.answers, id.0 as usize, answered(over.last));
    }

    /// Each job's answer.
    pub fn finish(self) -> Vec<Answer>
        requires ended { AllEnded self.at }
        ensures { result.items ≡ map answer_at self.at }
    {
        let Places {
            asked: _asked,
            starts: _starts,
            stages: _stages,
            answers,
        } = self;
        answers
    }
}
