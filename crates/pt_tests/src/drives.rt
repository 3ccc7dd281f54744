ghost use Rattle.std.specs.Prelude.{◌≡◌, ℕ, List, IfOk, IfSome, length};
ghost use Rattle.pt_tables.specs.Tables.{empty_tables};
ghost use Rattle.pt_fs.specs.Jobs.{StartAll, job_start};
ghost use Rattle.pt_host.specs.Seat.{IsStartingSeat};

use crate::one_directory::{a_host, a_seat};
use pt_frame::Finish;
use pt_fs::{DriveError, Driven, Job, PassthroughFs, SteppedFs, TraceStep, drive};
use pt_host::{Bytes, Edit, Errno, Fd};
use pt_iface::{Answer, Context, Refusal, Request};
use pt_job::AnyJob;
use pt_req::Config;
use pt_session::{Event, EventReply, Session, one_limit};
use std::alloc::{AllocError, Global};
use std::mem::forget;
use std::process::Abort;
use std::test::Fail;

pub fn made(alloc: Global, refuses: bool) -> Result<PassthroughFs, Refusal>
    ensures { IfOk result (λ fs. (limits : List ℕ) × (fs.tables ≡ empty_tables limits)) }
{
    let cfg = Config::new(alloc)?;
    PassthroughFs::new(alloc, cfg, &mut a_host(refuses), &mut a_seat())
}

fn keeps_its_root_and_its_limit(fs: &PassthroughFs) -> bool {
    fs.keep_fds() == [Fd(4)]
        && fs.plan().config.guest_fd_limit == u64::MAX
        && fs.session().slots_left(0) == u64::MAX
}

/// Whether the file system hands its session out, and takes another.
fn takes_a_session(alloc: Global, fs: &mut PassthroughFs) -> bool {
    let old = fs.replace_session(Session::new(alloc, one_limit(5)));
    old.slots_left(0) == u64::MAX && fs.session().slots_left(0) == 5
}

/// Whether an event is one of the tables that it lends.
fn takes_one_of_five_slots(fs: &mut PassthroughFs) -> bool {
    matches!(fs.event(&Event::TakeFd { class: 0 }), EventReply::Taken)
        && fs.session().slots_left(0) == 4
}

/// Whether a request begins. Its job is cut, and ends so: to let a job go is to let each kind of job go, which takes
/// its proof minutes.
fn begins_a_request<R: Abort>(rt: &R, alloc: Global, fs: &PassthroughFs) -> bool {
    let who = Context { uid: 0, gid: 0 };
    match fs.start(alloc, who, Request::Root) {
        Ok(job) => ends_cut(rt, job),
        Err(request) => {
            forget(request);
            false
        }
    }
}

fn ends_cut<R: Abort>(rt: &R, mut job: AnyJob) -> bool {
    assert!(rt; !job.is_finished(), "it has ended");
    job.cut();
    assert!(rt; job.is_finished(), "it goes on");
    let ended = job.finish();
    let is_cut = matches!(&ended, Finish::Answer(Answer::Cut));
    forget(ended);
    is_cut
}

#[test]
fn a_new_file_system_keeps_its_root_and_its_limit(rt: HostRuntime) -> Result<(), Fail> {
    let mut fs = made(rt.alloc(), false)?;
    assert!(rt; keeps_its_root_and_its_limit(&fs));
    assert!(rt; takes_a_session(rt.alloc(), &mut fs));
    assert!(rt; takes_one_of_five_slots(&mut fs));
    assert!(rt; begins_a_request(&rt, rt.alloc(), &fs));
    Ok(())
}

#[test]
fn a_host_that_refuses_its_root_has_no_file_system(rt: HostRuntime) -> Result<(), Fail> {
    match made(rt.alloc(), true) {
        Err(Refusal::Errno(Errno::EACCES)) => Ok(()),
        _ => Err(Fail::from("made, or refused otherwise")),
    }
}

/// Puts a job behind the others. One that finds no memory is forgotten: to let it go here is to let each kind of job
/// go.
#[tactic(auto, using(crate::proofs::Starting::one_more))]
fn push(jobs: &mut Vec<Job>, job: Job) -> bool
    requires { IsStartingSeat (job_start job) }
    ensures { StartAll jobs.old.items → StartAll jobs.new.items }
{
    let pushed = jobs.push(job);
    let is_there = pushed.is_ok();
    forget(pushed);
    is_there
}

fn push_lookup(alloc: Global, jobs: &mut Vec<Job>) -> bool
    ensures { StartAll jobs.old.items → StartAll jobs.new.items }
{
    match Bytes::from_slice(alloc, b"a") {
        Ok(name) => {
            let who = Context { uid: 0, gid: 0 };
            let request = Request::Lookup { parent: 1, name };
            push(jobs, Job::Request(who, a_seat(), request))
        }
        Err(_) => false,
    }
}

fn a_file(alloc: Global) -> Result<Edit, AllocError> {
    let path = Bytes::from_slice(alloc, b"/a")?;
    let bytes = Bytes::from_slice(alloc, b"hi")?;
    Ok(Edit::File {
        path,
        mode: 0o644,
        uid: 0,
        gid: 0,
        bytes,
    })
}

#[tactic(auto, using(crate::proofs::Starting::an_edit))]
fn push_edit(alloc: Global, jobs: &mut Vec<Job>) -> bool
    ensures { StartAll jobs.old.items → StartAll jobs.new.items }
{
    match a_file(alloc) {
        Ok(edit) => push(jobs, Job::Edit(edit)),
        Err(_) => false,
    }
}

/// Puts the root, a lookup, and twice the edit that makes what it looks up.
fn push_four(alloc: Global, jobs: &mut Vec<Job>) -> bool
    ensures { StartAll jobs.old.items → StartAll jobs.new.items }
{
    push(jobs, Job::OpenRoot(a_seat()))
        && push_lookup(alloc, jobs)
        && push_edit(alloc, jobs)
        && push_edit(alloc, jobs)
}

/// Whether the lookup and one edit succeeded, and the other found what the first had made.
fn answers_as_wanted(answers: &[Answer]) -> bool {
    match answers {
        [
            Answer::Done,
            Answer::Entry(entry),
            Answer::Edited,
            Answer::EditRefused(errno),
        ] => entry.inode == 2 && *errno == Errno::EEXIST,
        _ => false,
    }
}

/// Whether the steps belong to these jobs.
pub fn belong_to(trace: &[TraceStep], owners: &[u32]) -> bool {
    let mut of_trace = trace.iter().map(|step| &step.job);
    of_trace.eq(owners.iter())
}

/// The four jobs, where there is memory for them.
pub fn four_jobs(alloc: Global) -> Option<Vec<Job>>
    ensures start { IfSome result (λ jobs. StartAll jobs.items) }
    ensures four { IfSome result (λ jobs. length jobs.items ≡ 4) }
{
    let mut jobs = Vec::new(alloc);
    if push_four(alloc, &mut jobs) && jobs.len() == 4 {
        Some(jobs)
    } else {
        None
    }
}

/// Whether a run left what it should, with steps of these jobs.
fn left_as_wanted(driven: &Driven<PassthroughFs>, owners: &[u32]) -> bool {
    answers_as_wanted(driven.answers.as_slice())
        && driven.seats.len() == 2
        && belong_to(driven.trace.as_slice(), owners)
}

/// Whether a run of the four jobs by this schedule ends as it should, with steps of these jobs.
fn runs_as_wanted(
    alloc: Global,
    fs: PassthroughFs,
    schedule: &[u32],
    owners: &[u32],
) -> Option<bool>
    requires { (limits : List ℕ) × (fs.tables ≡ empty_tables limits) }
{
    let jobs = four_jobs(alloc)?;
    let driven = drive(alloc, fs, &mut a_host(false), jobs, schedule);
    let wanted = match &driven {
        Ok(driven) => Some(left_as_wanted(driven, owners)),
        Err(DriveError::Memory(_)) => None,
        Err(DriveError::CredentialsLost(..)) => Some(false),
    };
    forget(driven);
    wanted
}

#[test]
fn a_file_is_made_between_the_steps_of_its_lookup(rt: HostRuntime) -> Result<(), Fail> {
    let fs = made(rt.alloc(), false)?;
    // The first edit has finished at the second place of job 2, which so does nothing.
    let schedule = [0, 0, 0, 0, 0, 1, 1, 2, 2, 3];
    let owners = [0, 0, 0, 0, 0, 1, 1, 2, 3, 1, 1, 1, 1, 1, 1, 1];
    assert!(rt; runs_as_wanted(rt.alloc(), fs, &schedule, &owners) == Some(true));
    Ok(())
}
