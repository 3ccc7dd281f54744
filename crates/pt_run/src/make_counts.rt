//! The counts of a run of jobs that a seed gives.

ghost use Rattle.std.specs.Prelude.{◌≡◌, ◌<◌, ◌+◌, ◌^◌, ℕ, List, IfOk, None, length};
ghost use Rattle.pt_fs.specs.Jobs.{StartAll};
ghost use Rattle.pt_fs.specs.declared.trace.TraceStep.{TraceStep};
ghost use Rattle.pt_gen.specs.Generated.{generated_tree};
ghost use Rattle.pt_rules.specs.State.{State};
ghost use Rattle.pt_script.specs.Settings.{no_settings};
ghost use Rattle.pt_tree.specs.Start.{StartsAs};
ghost use Rattle.pt_run.specs.Counted.{IsCountOf};
ghost use Rattle.pt_run.specs.Counts.{counts_of, count_lines};
ghost use Rattle.pt_run.specs.Run.{AreLive, IsRunFrom};
ghost use Rattle.pt_tables.specs.Happens.{slots_left};
ghost use Rattle.pt_run.specs.Sized.{AreFilled};

use crate::counts::{Counts, StepCount, handles_of, lacking_in, lives_of, refused_in, served_in};
use crate::make_report::{Ran, run_jobs};
use crate::status::Status;
use pt_fs::{Left, PassthroughFs, SteppedFs};
use pt_gen::generate;
use pt_script::Script;
use std::alloc::{AllocError, Global};

/// Runs the script that a seed gives. No call of its host is planned to fail, so that a root is opened and no seat is
/// lost.
fn run_generated(
    alloc: Global,
    script: Script,
    made: &mut StepCount,
) -> Result<Left<PassthroughFs>, AllocError>
    requires few { length script.jobs.items < 2 ^ 32 }
    requires seats { StartAll script.jobs.items }
    requires sizes { AreFilled script.jobs.items }
    requires settings { script.settings ≡ no_settings }
    requires tree { StartsAs generated_tree script.host }
    ensures { IfOk result (λ left. (trace : List TraceStep) × (host : State)
        × (made.new.steps ≡ made.old.steps + length trace)
        × IsRunFrom no_settings script.host script.jobs.items script.schedule trace left.answers.items left.fs.tables
        host None) }
{
    let Script {
        settings,
        mut host,
        jobs,
        schedule,
    } = script;
    let places = schedule.as_slice();
    match run_jobs(alloc, settings, &mut host, jobs, places, made) {
        Ok(Ran { left, lost }) => match lost {
            None => Ok(left),
            Some(_) => unreachable!(),
        },
        Err(Status::BadConfig(_)) => unreachable!(),
        Err(_) => Err(AllocError),
    }
}

// The counts of so many jobs, which made so many steps and left this.
fn counts_of(
    alloc: Global,
    jobs: u32,
    steps: u64,
    left: &Left<PassthroughFs>,
) -> Result<Counts, AllocError>
    ensures { IfOk result (λ counts. (lives : List (ℕ × ℕ)) × (handles : List (ℕ × ℕ))
        × AreLive left.now.fs.tables lives handles
        × (counts ≡ counts_of jobs steps left.now.answers.items lives handles
        (slots_left left.now.fs.tables 0))) }
{
    let answers = left.answers.as_slice();
    let session = left.fs.session();
    let lives = lives_of(alloc, session)?;
    let handles = handles_of(alloc, session)?;
    Ok(Counts {
        jobs: u64::from(jobs),
        steps,
        served: served_in(answers) as u64,
        refused: refused_in(answers) as u64,
        no_memory: lacking_in(answers) as u64,
        live: lives.len() as u64,
        handles: handles.len() as u64,
        slots: session.slots_left(0),
    })
}

fn lines_of(alloc: Global, counts: Counts) -> Result<Vec<u8>, AllocError>
    ensures { IfOk result (λ lines. lines.items ≡ count_lines counts) }
{
    let mut lines = Vec::new(alloc);
    counts.push_lines(&mut lines)?;
    Ok(lines)
}

/// The lines that count a run of so many jobs, which this seed gives.
pub(crate) fn counts_of_generated(
    alloc: Global,
    jobs: u32,
    seed: u64,
) -> Result<Vec<u8>, AllocError>
    requires some { 0 < jobs }
    ensures { IfOk result (λ lines. IsCountOf jobs seed lines.items) }
{
    let script = generate(alloc, jobs, seed)?;
    let mut made = StepCount { steps: 0 };
    let left = run_generated(alloc, script, &mut made)?;
    let counts = counts_of(alloc, jobs, made.steps, &left)?;
    lines_of(alloc, counts)
}
