//! The jobs of a run, each in its place. One that has made no step is what it asks, and one that has ended is its
//! answer; the machines of those on their way lie side by side, so that they take room only while they are needed.
//! The seats lie apart, as few steps look at one.

ghost use Rattle.std.specs.Prelude.{◌≡◌, ◌+◌, ◌<◌, ◌≤◌, ◌^◌, ℕ, [], true, false, Some, length, map};
ghost use Rattle.std.specs.Prelude.{IfOk, OnErr};
ghost use Rattle.std.specs.Prelude.{slice_get, slice_set, vec_capacity};
ghost use Rattle.pt_host.specs.Words.{Each};
ghost use Rattle.pt_host.specs.declared.seat.HostSeat.{HostSeat};
ghost use Rattle.pt_frame.specs.Grammar.{is_end, restores, IsSettled};
ghost use Rattle.pt_job.specs.Machine.Job.{is_finished as is_job_over};
ghost use Rattle.pt_req.specs.declared.plan.Plan.{Plan};
ghost use Rattle.pt_fs.specs.Each.{EachAnswered};
ghost use Rattle.pt_fs.specs.Jobs.{job_start};
ghost use Rattle.pt_fs.specs.Laid.{GoElsewhere, Kept, Laid, Settles, Wakes, states_in, still, waiting};
ghost use Rattle.pt_fs.specs.Loses.{CutRun};
ghost use Rattle.pt_fs.specs.Placed.{Goes, Waits};
ghost use Rattle.pt_fs.specs.Recorded.{Wrote};
ghost use Rattle.pt_fs.specs.Shared.{RunIsFull, RunKeepsPace, RunStopped, Shares};
ghost use Rattle.pt_fs.specs.Running.{Running, State, is_finished, inserts_left, owes};
ghost use Rattle.pt_fs.specs.Took.{Took, IsFinishedAt, IsUnfinished};
ghost use Rattle.pt_fs.specs.Went.{run_seat};
ghost use Rattle.pt_fs.specs.declared.job.Job.{Job};
ghost use Rattle.pt_fs.specs.declared.machine.Machine.{Machine};

use crate::job::{Job, JobId};
use crate::machine::{Machine, begun, ended};
use crate::places::{Places, Stage, seats_of};
use crate::record::Record;
use crate::room::{push_within, with_room};
use crate::shared::Run;
use crate::step::advance;
use pt_host::{Errno, Host, HostSeat};
use pt_iface::Answer;
use std::alloc::{AllocError, Global};
use std::marker::Model;

/// The jobs of a run, in order.
#[derive(Drop)]
pub struct Jobs {
    places: Places,
    /// The seat of each job as its steps left it. An edit has none.
    seats: Vec<Option<HostSeat>>,
    going: Vec<Machine>,
}

impl Model for Jobs {
    ghost use Rattle.std.specs.Prelude.{List, vec_capacity};
    ghost use Rattle.pt_fs.specs.Laid.{Lies, runs_in};
    ghost use Rattle.pt_fs.specs.Running.{Running};

    ghost Value = { List Running };

    ghost view = { λ jobs. runs_in jobs.places jobs.seats.items jobs.going.items };

    ghost invariant = { λ jobs. Lies jobs.places jobs.seats.items jobs.going.items (vec_capacity jobs.going) };
}

/// Begins a job that waits: tells the index of its machine, for which there is room.
fn begin(places: &mut Places, going: &mut Vec<Machine>, id: JobId) -> usize
    requires waits { (job : Job) × (slice_get places.old.at id.0 ≡ Some (Waits job)) }
    requires kept { Kept places.old.at going.old.items (vec_capacity going.old) }
    ensures kept { Kept places.new.at going.new.items (vec_capacity going.new) }
    ensures same { length places.new.at ≡ length places.old.at }
    ensures starts { places.new.starts ≡ places.old.starts }
    ensures index { slice_get places.new.at id.0 ≡ Some (Goes result) }
    ensures wakes { Wakes places.old.at going.old.items id.0 places.new.at going.new.items result }
{
    let index = going.len();
    push_within(going, begun(id, places.begin(id, index)));
    index
}

/// Tells the index of the machine of a job that has not finished, which it is given where it waits.
fn wake(places: &mut Places, going: &mut Vec<Machine>, id: JobId) -> usize
    requires named { id.0 < length places.old.at }
    requires kept { Kept places.old.at going.old.items (vec_capacity going.old) }
    requires unfinished { (state : State) → slice_get (states_in places.old.at going.old.items) id.0 ≡ Some state →
        is_finished state ≡ false }
    ensures kept { Kept places.new.at going.new.items (vec_capacity going.new) }
    ensures same { length places.new.at ≡ length places.old.at }
    ensures starts { places.new.starts ≡ places.old.starts }
    ensures index { slice_get places.new.at id.0 ≡ Some (Goes result) }
    ensures wakes { Wakes places.old.at going.old.items id.0 places.new.at going.new.items result }
{
    match places.stage(id) {
        Stage::Waits => begin(places, going, id),
        Stage::Goes(index) => index,
        Stage::Ended(_, _) => 0,
    }
}

/// Puts a job that has finished where it needs no machine, and the last machine where its own was.
fn put_away(places: &mut Places, going: &mut Vec<Machine>, id: JobId, index: usize)
    requires laid { Laid places.old.at going.old.items }
    requires ended { (it : Machine) → slice_get going.old.items index ≡ Some it →
        is_job_over it.state ≡ true }
    requires others_go { GoElsewhere index going.old.items }
    requires room { still places.old.at + length going.old.items ≤ vec_capacity going.old }
    requires index { slice_get places.old.at id.0 ≡ Some (Goes index) }
    ensures kept { Kept places.new.at going.new.items (vec_capacity going.new) }
    ensures same { length places.new.at ≡ length places.old.at }
    ensures starts { places.new.starts ≡ places.old.starts }
    ensures settles { Settles places.old.at going.old.items id.0 index places.new.at going.new.items }
{
    let it = going.swap_remove(index);
    places.end(id, ended(it));
    if index < going.len() {
        places.go(going[index].id, index);
    }
}

/// Puts a job away, if it has finished. That is apart, as each step comes here and few put a job away.
fn settle(places: &mut Places, going: &mut Vec<Machine>, id: JobId, index: usize)
    requires laid { Laid places.old.at going.old.items }
    requires others_go { GoElsewhere index going.old.items }
    requires room { still places.old.at + length going.old.items ≤ vec_capacity going.old }
    requires index { slice_get places.old.at id.0 ≡ Some (Goes index) }
    ensures kept { Kept places.new.at going.new.items (vec_capacity going.new) }
    ensures same { length places.new.at ≡ length places.old.at }
    ensures starts { places.new.starts ≡ places.old.starts }
    ensures settles { Settles places.old.at going.old.items id.0 index places.new.at going.new.items }
{
    if going[index].state.is_finished() {
        put_away(places, going, id, index);
    }
}

impl Jobs {
    /// Jobs that have made no step, and room for the machine of each.
    pub fn new(alloc: Global, jobs: Vec<Job>) -> Result<Jobs, AllocError>
        ensures waiting { IfOk result (λ running. running ≡ map waiting jobs.items) }
        ensures fits { IfOk result (λ running.
            Each (λ (job : Job). (job_start job).eff_caps.0 < 2 ^ 32) jobs.items) }
    {
        let going = with_room(alloc, jobs.len())?;
        let seats = seats_of(alloc, jobs.as_slice())?;
        let places = Places::new(alloc, jobs)?;
        Ok(Jobs {
            places,
            seats,
            going,
        })
    }

    pub fn len(&self) -> usize
        ensures { result ≡ length self.now }
    {
        self.places.len()
    }

    /// Whether the job of this number has finished.
    pub fn is_finished(&self, id: JobId) -> bool
        requires named { id.0 < length self.now }
        ensures result { (run : Running) → slice_get self.now id.0 ≡ Some run → is_finished run.state ≡ result }
        ensures end { (run : Running) → slice_get self.now id.0 ≡ Some run →
            (plan : Plan) (seat : HostSeat) → is_end (owes plan seat run.state) ≡ result }
    {
        match self.places.stage(id) {
            Stage::Waits => false,
            Stage::Goes(index) => self.going[index].state.is_finished(),
            Stage::Ended(_, _) => true,
        }
    }

    /// Whether the wanted step of the job of this number is to restore its seat.
    pub fn restoring(&self, id: JobId) -> bool
        requires named { id.0 < length self.now }
        ensures restores { (run : Running) → slice_get self.now id.0 ≡ Some run →
            (plan : Plan) (seat : HostSeat) → result ≡ restores (owes plan seat run.state) }
        ensures unfinished { (run : Running) → slice_get self.now id.0 ≡ Some run →
            result ≡ true → is_finished run.state ≡ false }
        ensures settled { (run : Running) → slice_get self.now id.0 ≡ Some run →
            (plan : Plan) (seat : HostSeat) → IsSettled (owes plan seat run.state) }
    {
        match self.places.stage(id) {
            Stage::Goes(index) => self.going[index].state.restoring(),
            Stage::Waits | Stage::Ended(_, _) => false,
        }
    }

    /// Cuts the job of this number, which has not finished.
    pub fn cut(&mut self, id: JobId)
        requires named { id.0 < length self.old }
        requires unfinished { (run : Running) → slice_get self.old id.0 ≡ Some run →
            is_finished run.state ≡ false }
        ensures cut { (run : Running) → slice_get self.old id.0 ≡ Some run →
            (run' : Running) × (self.new ≡ slice_set self.old id.0 run') × CutRun run run'
            × (inserts_left run'.state ≤ inserts_left run.state) }
    {
        let index = wake(&mut self.places, &mut self.going, id);
        self.going[index].state.cut();
        settle(&mut self.places, &mut self.going, id, index);
    }

    /// Each job's answer, and its seat if it has one.
    pub fn finish(self) -> (Vec<Answer>, Vec<Option<HostSeat>>)
        requires finished { (j : ℕ) → IsFinishedAt self j }
        ensures answers { EachAnswered self result.0.items }
        ensures seats { result.1.items ≡ map run_seat self }
    {
        let Jobs {
            places,
            seats,
            going: _going,
        } = self;
        (places.finish(), seats)
    }
}

/// Takes the next step of the job of this number, writes it down, and tells what it lost of the job's seat.
pub fn take_step<H: Host, R: Record>(
    run: &mut Run<'_, '_, H, R>,
    running: &mut Jobs,
    id: JobId,
) -> Result<Option<Errno>, AllocError>
    requires named { id.0 < length running.old }
    requires unfinished { IsUnfinished run.old.plan.now running.old id.0 }
    ensures shares { Shares run.old run.new }
    ensures took { IfOk result (λ lost. Wrote R.wrote run.old.writer.now run.new.writer.now (λ steps.
        Took H.does run.old.plan.now id.0 run.old.host.now running.old run.old.session.now [] run.new.host.now
        running.new run.new.session.now steps lost)) }
    ensures room { IfOk result (λ lost. RunKeepsPace R.room run.old running.old run.new running.new) }
    ensures stopped { OnErr result (RunStopped H.does R.wrote R.unwritten run.old running.old run.new) }
    ensures full { OnErr result (RunIsFull R.room run.old running.old) }
{
    let index = wake(&mut running.places, &mut running.going, id);
    let start = running.places.start(id);
    let seat = &mut running.seats[id.0 as usize];
    let machine = &mut running.going[index];
    let lost = advance(run, id, machine, start, seat);
    settle(&mut running.places, &mut running.going, id, index);
    lost
}
