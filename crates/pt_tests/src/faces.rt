use crate::one_directory::{a_host, a_seat};
use crate::plays::{Told, a_plan, has_text};
use pt_frame::{Finish, Want};
use pt_host::{Bytes, Errno, HostSeat};
use pt_iface::{Context, Extensions, Request};
use pt_job::{AnyJob, JobState, SessionAccess, serve};
use pt_req::Plan;
use pt_script::{Script, parse};
use pt_session::{Session, one_limit};
use std::alloc::Global;
use std::mem::forget;
use std::process::Abort;

const WHO: Context = Context { uid: 0, gid: 0 };

/// The calls fail that put back first the user, and then the group, of who made a directory.
const LOST: &[u8] = b"mount 1 1 / 1\nfault 7 5\nfault 8 6\nend\n";

/// Whether a step is wanted, the act of this text.
fn is_act(alloc: Global, want: &Want<'_>, wanted: &[u8]) -> bool {
    match want {
        Want::Step(act) => has_text(alloc, act, wanted),
        Want::Finished => false,
    }
}

/// Whether a job ends with the answer of this text.
fn is_answer(alloc: Global, end: Finish, wanted: &[u8]) -> bool {
    let is_so = matches!(&end, Finish::Answer(answer) if has_text(alloc, answer, wanted));
    forget(end);
    is_so
}

/// A job that forgets number 2 once.
fn a_forget(alloc: Global, plan: &Plan) -> Option<JobState> {
    let request = Request::Forget { inode: 2, count: 1 };
    match JobState::start(alloc, plan, WHO, request) {
        Ok(job) => Some(job),
        Err(request) => {
            forget(request);
            None
        }
    }
}

/// It wants the act of this text, and is told this.
fn state_takes<R: Abort>(
    rt: &R,
    alloc: Global,
    job: &mut JobState,
    plan: &Plan,
    seat: &HostSeat,
    wanted: &[u8],
    told: Told,
) {
    let is_wanted = is_act(alloc, &job.want(plan, seat), wanted);
    assert!(rt; is_wanted, "it wants another act");
    assert!(rt; !job.restoring(), "it restores its seat");
    assert!(rt; !job.is_finished(), "it has ended");
    job.take(plan, told.reply(alloc), seat);
}

fn forgets<R: Abort>(rt: &R, alloc: Global) -> Option<bool> {
    let plan = a_plan(alloc)?;
    let seat = a_seat();
    let mut job = a_forget(alloc, &plan)?;
    state_takes(rt, alloc, &mut job, &plan, &seat, b" Begin", Told::Began);
    state_takes(
        rt,
        alloc,
        &mut job,
        &plan,
        &seat,
        b" Forget 1 2 1",
        Told::Done(0),
    );
    assert!(rt; job.lost().is_none(), "its seat is lost");
    assert!(rt; job.is_finished(), "it goes on");
    Some(is_answer(alloc, job.finish(), b" NoReply"))
}

fn is_cut<R: Abort>(rt: &R, alloc: Global) -> Option<bool> {
    let plan = a_plan(alloc)?;
    let seat = a_seat();
    let mut job = a_forget(alloc, &plan)?;
    state_takes(rt, alloc, &mut job, &plan, &seat, b" Begin", Told::Began);
    assert!(rt; !job.is_finished(), "it has ended");
    job.cut();
    assert!(rt; job.is_finished(), "it goes on");
    Some(is_answer(alloc, job.finish(), b" Cut"))
}

/// A job that takes the name `a` away.
fn an_unlink(alloc: Global, plan: &Plan) -> Option<AnyJob> {
    let request = Request::Unlink {
        parent: 1,
        name: Bytes::from_slice(alloc, b"a").ok()?,
    };
    match AnyJob::start(alloc, plan, WHO, request) {
        Ok(job) => Some(job),
        Err(request) => {
            forget(request);
            None
        }
    }
}

fn any_takes<R: Abort>(
    rt: &R,
    alloc: Global,
    job: &mut AnyJob,
    plan: &Plan,
    seat: &HostSeat,
    wanted: &[u8],
    told: Told,
) {
    let is_wanted = is_act(alloc, &job.want(plan, seat), wanted);
    assert!(rt; is_wanted, "it wants another act");
    assert!(rt; !job.is_finished(), "it has ended");
    job.take(plan, told.reply(alloc), seat);
}

fn unlinks<R: Abort>(rt: &R, alloc: Global) -> Option<bool> {
    let plan = a_plan(alloc)?;
    let seat = a_seat();
    let mut job = an_unlink(alloc, &plan)?;
    any_takes(rt, alloc, &mut job, &plan, &seat, b" Begin", Told::Began);
    any_takes(
        rt,
        alloc,
        &mut job,
        &plan,
        &seat,
        b" Resolve 1",
        Told::Resolved,
    );
    any_takes(
        rt,
        alloc,
        &mut job,
        &plan,
        &seat,
        b" Unlink 4 a",
        Told::Refused(Errno::EACCES),
    );
    any_takes(
        rt,
        alloc,
        &mut job,
        &plan,
        &seat,
        b" Unpin 0",
        Told::Done(0),
    );
    assert!(rt; job.is_finished(), "it goes on");
    Some(is_answer(alloc, job.finish(), b" Refused 13"))
}

/// The root is opened by one job, which is taken whole, and then named by one that takes the name `a` away.
fn is_served<R: Abort>(rt: &R, alloc: Global) -> Option<bool> {
    let plan = a_plan(alloc)?;
    let mut session = Session::new(alloc, one_limit(5));
    let mut host = a_host(false);
    let mut seat = a_seat();
    assert!(rt; session.spare().is_none(), "its room is bounded");
    let root = AnyJob::begin(WHO, Request::Root);
    let end = serve(&plan, &mut session, &mut host, &mut seat, root);
    assert!(rt; is_answer(alloc, end, b" Done"), "the root is not opened");
    assert_eq!(rt; session.live_after(None), Some((1, 2)), "it has no number");
    let unlink = an_unlink(alloc, &plan)?;
    let end = serve(&plan, &mut session, &mut host, &mut seat, unlink);
    Some(is_answer(alloc, end, b" Refused 13"))
}

/// A job of another user that makes the directory `a`.
fn a_making(alloc: Global) -> Option<AnyJob> {
    let who = Context {
        uid: 1000,
        gid: 1000,
    };
    let request = Request::Mkdir {
        parent: 1,
        name: Bytes::from_slice(alloc, b"a").ok()?,
        mode: 0o755,
        umask: 0,
        ext: Extensions {
            secctx: None,
            sup_gid: None,
        },
    };
    Some(AnyJob::begin(who, request))
}

/// A job that is taken whole, and twice fails to put its seat back, tells the first time.
fn is_lost(alloc: Global) -> Option<bool> {
    let plan = a_plan(alloc)?;
    let Ok(Script { mut host, jobs, .. }) = parse(alloc, LOST) else {
        return None;
    };
    forget(jobs);
    let mut session = Session::new(alloc, one_limit(5));
    let mut seat = a_seat();
    let root = AnyJob::begin(WHO, Request::Root);
    forget(serve(&plan, &mut session, &mut host, &mut seat, root));
    let making = a_making(alloc)?;
    let end = serve(&plan, &mut session, &mut host, &mut seat, making);
    let is_first = matches!(&end, Finish::Lost(Errno::EIO));
    forget(end);
    Some(is_first)
}

#[test]
fn a_job_of_numbers_is_played_or_cut(rt: HostRuntime) {
    assert_eq!(rt; forgets(&rt, rt.alloc()), Some(true), "it forgets");
    assert_eq!(rt; is_cut(&rt, rt.alloc()), Some(true), "it is cut");
}

#[test]
fn any_job_is_played(rt: HostRuntime) {
    assert_eq!(rt; unlinks(&rt, rt.alloc()), Some(true), "its call is refused");
}

#[test]
fn a_job_is_taken_whole(rt: HostRuntime) {
    assert_eq!(rt;
        is_served(&rt, rt.alloc()),
        Some(true),
        "its call is refused"
    );
}

#[test]
fn a_job_that_is_taken_whole_tells_its_first_loss(rt: HostRuntime) {
    assert_eq!(rt; is_lost(rt.alloc()), Some(true), "it tells another");
}
