ghost use Rattle.std.specs.Prelude.{◌≡◌, ◌+◌, ◌<◌, ◌≤◌, ◌^◌, [], ◌∷◌, ◌++◌, length, IfOk, vec_capacity};
ghost use Rattle.pt_job.specs.Pattern.{bound_of, bound_for};
ghost use Rattle.pt_fs.specs.Jobs.{asked_of};
ghost use Rattle.pt_fs.specs.Trace.{room_of as room};

use crate::job::Job;
use pt_iface::Request;
use std::alloc::{AllocError, Global};

/// An empty vector with room for so many.
pub fn with_room<T: Drop>(alloc: Global, count: usize) -> Result<Vec<T>, AllocError>
    ensures empty { IfOk result (λ v. v.items ≡ []) }
    ensures room { IfOk result (λ v. count ≤ vec_capacity v) }
{
    let mut v = Vec::new(alloc);
    v.reserve(count)?;
    Ok(v)
}

/// Appends an item where there is room.
pub fn push_within<T: Drop>(v: &mut Vec<T>, item: T)
    requires { length v.old.items < vec_capacity v.old }
    ensures items { v.new.items ≡ v.old.items ++ item ∷ [] }
    ensures capacity { vec_capacity v.old ≤ vec_capacity v.new }
{
    v.push_reserved(item);
}

/// How many steps a request takes at most, three for each closing aside.
fn bound_of(request: &Request) -> usize
    ensures bound { result ≡ bound_of request.now }
    ensures small { result ≤ 96 }
{
    match request {
        Request::Create { .. } => 96,
        Request::Destroy
        | Request::Forget { .. }
        | Request::BatchForget { .. }
        | Request::Release { .. }
        | Request::ReleaseDir { .. }
        | Request::Read { .. }
        | Request::Write { .. }
        | Request::ReadDir { .. }
        | Request::Flush { .. }
        | Request::Fsync { .. }
        | Request::FsyncDir { .. }
        | Request::Fallocate { .. }
        | Request::Lseek { .. }
        | Request::CopyFileRange { .. } => 8,
        _ => 48,
    }
}

/// The same of a job.
fn bound_of_job(job: &Job) -> usize
    ensures bound { result ≡ bound_for (asked_of job.now) }
    ensures small { result ≤ 96 }
{
    match job {
        Job::Request(_, _, request) => bound_of(request),
        Job::OpenRoot(_) => bound_of(&Request::Root),
        Job::Edit(_) => 1,
    }
}

/// The room that these jobs' trace needs at most: each job inserts four rows at most, and the closing of a row takes
/// three steps.
pub fn room_of(jobs: &[Job]) -> usize
    requires { length jobs.now < 2 ^ 32 }
    ensures room { result ≡ room jobs.now }
    ensures small { result < 2 ^ 63 }
{
    let mut room = 0;
    for job in jobs {
        room += bound_of_job(job) + 12;
    }
    room
}
