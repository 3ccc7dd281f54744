//! The tree, the jobs and the order that a seed gives.

ghost use Rattle.std.specs.Prelude.{◌≡◌, ◌<◌, ◌%◌, ◌++◌, IfOk, OnOk, length, map};
ghost use Rattle.pt_fs.specs.Jobs.{StartAll};
ghost use Rattle.pt_script.specs.Settings.{no_settings};
ghost use Rattle.pt_tree.specs.Start.{StartsAs};
ghost use Rattle.pt_gen.specs.Draws.{draws_from, state_behind};
ghost use Rattle.pt_gen.specs.Generated.{
  file_name,
  file_line,
  request_drawn,
  generated_job,
  generated_tree,
  generated_jobs,
  generated_order,
};

use crate::draws::Draws;
use pt_fs::Job;
use pt_host::Bytes;
use pt_iface::{Context, FsOptions, Request};
use pt_script::{Script, Settings, seat_of};
use pt_text::{push_decimal, push_text};
use pt_tree::{TreeHost, TreeLine, TreeSpec};
use pt_words::Places;
use std::alloc::{AllocError, Global};

/// How many jobs are generated at most.
pub const MAX_GENERATED: u32 = 10_000;

/// How many files there are.
const FILES: u32 = 16;

/// The permissions of each file.
const FILE_MODE: u32 = 0o644;

/// `f0`, `f1` and so on, behind this.
fn name_behind(alloc: Global, front: &[u8], file: u32) -> Result<Bytes, AllocError>
    ensures { IfOk result (λ name. name ≡ front.now ++ file_name file) }
{
    let mut name = Vec::new(alloc);
    push_text(&mut name, front)?;
    push_text(&mut name, b"f")?;
    push_decimal(&mut name, u64::from(file))?;
    Ok(Bytes::from_vec(name))
}

fn file_line(alloc: Global, file: u32) -> Result<TreeLine, AllocError>
    ensures { IfOk result (λ line. line ≡ file_line file) }
{
    let path = name_behind(alloc, b"/", file)?;
    let bytes = Bytes::from_slice(alloc, b"x")?;
    Ok(TreeLine::File {
        path,
        mode: FILE_MODE,
        uid: 0,
        gid: 0,
        bytes,
    })
}

fn tree(alloc: Global) -> Result<TreeSpec, AllocError>
    ensures { IfOk result (λ tree. tree ≡ generated_tree) }
{
    let mut lines = Vec::new(alloc);
    lines.push(TreeLine::Mount {
        id: 1,
        dev: 1,
        path: Bytes::from_slice(alloc, b"/")?,
        handles: true,
    })?;
    for file in 0..FILES {
        lines.push(file_line(alloc, file)?)?;
    }
    Ok(TreeSpec::from_vec(lines))
}

/// The host that holds the tree. Its lines describe one, so that only memory may be wanting.
fn host(alloc: Global) -> Result<TreeHost, AllocError>
    ensures { IfOk result (λ host. StartsAs generated_tree host) }
{
    let tree = tree(alloc)?;
    match TreeHost::from_spec(alloc, &tree) {
        Ok(host) => Ok(host),
        Err(_) => Err(AllocError),
    }
}

/// What a draw asks.
fn request(alloc: Global, draw: u32) -> Result<Request, AllocError>
    ensures { IfOk result (λ asked. asked ≡ request_drawn draw) }
{
    let file = draw / 4 % FILES;
    let inode = u64::from(file) + 2;
    match draw % 4 {
        0 => Ok(Request::Lookup {
            parent: 1,
            name: name_behind(alloc, b"", file)?,
        }),
        1 => Ok(Request::Forget { inode, count: 1 }),
        2 => Ok(Request::GetAttr { inode }),
        _ => Ok(Request::Open {
            inode,
            kill: false,
            flags: 0,
        }),
    }
}

/// A job of this request, which the superuser asks.
fn job(settings: &Settings, request: Request) -> Job
    requires plain { settings.now ≡ no_settings }
    ensures { result ≡ generated_job request }
{
    let who = Context { uid: 0, gid: 0 };
    Job::Request(who, seat_of(settings.identity()), request)
}

/// So many jobs more, a draw each.
fn push_jobs(
    alloc: Global,
    settings: &Settings,
    draws: &mut Draws,
    jobs: &mut Vec<Job>,
    more: u32,
) -> Result<(), AllocError>
    requires plain { settings.now ≡ no_settings }
    ensures jobs { OnOk result (jobs.new.items ≡ jobs.old.items
        ++ map (λ draw. generated_job (request_drawn draw)) (draws_from more draws.old)) }
    ensures state { OnOk result (draws.new ≡ state_behind more draws.old) }
{
    for _job in 0..more {
        let request = request(alloc, draws.draw())?;
        jobs.push(job(settings, request))?;
    }
    Ok(())
}

/// So many places, a draw each, of so many jobs.
fn order(alloc: Global, draws: &mut Draws, count: u32) -> Result<Places, AllocError>
    requires some { 0 < count }
    ensures { IfOk result (λ order. order ≡ map (λ draw. draw % count) (draws_from count draws.old)) }
{
    let mut order = Places::new(alloc);
    for _place in 0..count {
        order.push(draws.draw() % count)?;
    }
    Ok(order)
}

/// The script of so many jobs that a seed gives, the first of which begins the session.
pub fn generate(alloc: Global, count: u32, seed: u64) -> Result<Script, AllocError>
    requires some { 0 < count }
    ensures settings { IfOk result (λ script. script.settings ≡ no_settings) }
    ensures host { IfOk result (λ script. StartsAs generated_tree script.host) }
    ensures jobs { IfOk result (λ script. script.jobs.items ≡ generated_jobs count seed) }
    ensures order { IfOk result (λ script. script.schedule ≡ generated_order count seed) }
    ensures few { IfOk result (λ script. length script.jobs.items ≡ count) }
    ensures seats { IfOk result (λ script. StartAll script.jobs.items) }
{
    let settings = Settings::none(alloc);
    let mut draws = Draws::new(seed);
    let mut jobs = Vec::new(alloc);
    let init = Request::Init {
        capable: FsOptions(0),
    };
    jobs.push(job(&settings, init))?;
    push_jobs(alloc, &settings, &mut draws, &mut jobs, count - 1)?;
    let schedule = order(alloc, &mut draws, count)?;
    let host = host(alloc)?;
    Ok(Script {
        settings,
        host,
        jobs,
        schedule,
    })
}
