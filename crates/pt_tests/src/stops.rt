//! A run that stops since its record is full.

ghost use Rattle.std.specs.Prelude.{◌≡◌, ℕ, List};
ghost use Rattle.pt_tables.specs.Tables.{empty_tables};

use crate::drives::{belong_to, four_jobs, made};
use crate::one_directory::a_host;
use pt_frame::{Act, ActReply};
use pt_fs::{DriveIntoError, PassthroughFs, Record, TraceStep, WrittenAct, drive_into};
use std::alloc::{AllocError, Global};
use std::mem::forget;
use std::test::Fail;

/// A list that takes so many steps more.
#[derive(Drop)]
struct Few {
    steps: Vec<TraceStep>,
    left: usize,
}

impl Record for Few {
    ghost use Rattle.std.specs.Prelude.{◌≡◌, ◌≤◌, ◌++◌, ◌∷◌, [], vec_capacity};
    ghost use Rattle.pt_frame.specs.declared.act.ActReply.TheVariants as told;

    ghost wrote = { λ few step more.
        (more.steps.items ≡ few.steps.items ++ step ∷ []) × (vec_capacity few.steps ≤ vec_capacity more.steps) };

    ghost wrote_act = { λ few job act more.
        (more.steps.items ≡ few.steps.items ++ record { job = job; act = act; reply = told.NoCopy } ∷ [])
        × (vec_capacity few.steps ≤ vec_capacity more.steps) };

    ghost unwritten = { λ few same. same.steps.items ≡ few.steps.items };

    ghost room = { λ few. 0 };

    fn write_act(
        &mut self,
        alloc: Global,
        job: u32,
        act: &Act<'_>,
    ) -> Result<WrittenAct, AllocError> {
        if self.left == 0 {
            return Err(AllocError);
        }
        self.left -= 1;
        self.steps.write_act(alloc, job, act)
    }

    fn write_reply(&mut self, alloc: Global, reply: &mut ActReply) -> Result<(), AllocError> {
        self.steps.write_reply(alloc, reply)
    }
}

/// Whether a run whose record takes so many steps stops with steps of these jobs, and with the file there or not.
fn stops_as_wanted(
    alloc: Global,
    fs: PassthroughFs,
    left: usize,
    owners: &[u32],
    has_file: bool,
) -> Option<bool>
    requires { (limits : List ℕ) × (fs.tables ≡ empty_tables limits) }
{
    let jobs = four_jobs(alloc)?;
    let mut host = a_host(false);
    let mut few = Few {
        steps: Vec::new(alloc),
        left,
    };
    let schedule = [0, 0, 0, 0, 0, 1, 1, 2, 2, 3];
    let ended = drive_into(alloc, fs, &mut host, jobs, &schedule, &mut few);
    let is_stopped = matches!(&ended, Err(DriveIntoError::Record(_)));
    forget(ended);
    let told = belong_to(few.steps.as_slice(), owners);
    forget(few);
    Some(is_stopped && told && host.has_file() == has_file)
}

// The step behind those that are written down is made: with seven it is the edit that makes the file.
#[test]
fn a_full_record_stops_a_run_one_step_later(rt: HostRuntime) -> Result<(), Fail> {
    let fs = made(rt.alloc(), false)?;
    let owners = [0, 0, 0, 0, 0, 1, 1];
    assert!(rt; stops_as_wanted(rt.alloc(), fs, 7, &owners, true) == Some(true));
    let fs = made(rt.alloc(), false)?;
    assert!(rt; stops_as_wanted(rt.alloc(), fs, 6, &owners[..6], false) == Some(true));
    Ok(())
}
