ghost use Rattle.std.specs.Prelude.{◌≡◌, ◌≤◌, ◌<◌, ◌+◌, ◌^◌, IfOk, IfErr, OnOk, length};
ghost use Rattle.pt_fs.specs.Jobs.{StartAll};
ghost use Rattle.pt_tree.specs.Start.{StartsAs};
ghost use Rattle.pt_script.specs.Begins.{planned_all};
ghost use Rattle.pt_script.specs.Parse.{IsScriptOf, IsBadLine};
ghost use Rattle.pt_script.specs.Scan.{IsBadTree, place_of, error_behind};

use crate::line::PlannedFault;
use crate::scan::scan_lines;
use crate::settings::Settings;
use pt_fs::Job;
use pt_tree::{SpecError, TreeHost, TreeSpec};
use pt_words::Places;
use std::alloc::{AllocError, Global};

/// A script: what it sets, the host that holds its tree, with the faults that are planned, its jobs in order, and the
/// order of their steps.
#[derive(Drop)]
pub struct Script {
    pub settings: Settings,
    pub host: TreeHost,
    pub jobs: Vec<Job>,
    pub schedule: Places,
}

/// Why bytes were not read as a script.
#[derive(Clone, Copy)]
pub enum ParseError {
    /// The first line, from 1, up to which the lines begin no script.
    BadScript(u32),
    Memory,
}

/// Reads a script.
pub fn parse(alloc: Global, bytes: &[u8]) -> Result<Script, ParseError>
    requires { length bytes.now ≤ 16777216 }
    ensures ok { IfOk result (λ script.
        IsScriptOf bytes.now script.settings script.host script.jobs.items script.schedule) }
    ensures bad { IfErr result (λ error. IsBadLine bytes.now error) }
    ensures seats { IfOk result (λ script. StartAll script.jobs.items) }
    ensures few { IfOk result (λ script. length script.jobs.items ≤ length bytes.now + 1) }
{
    let Ok(scan) = scan_lines(alloc, bytes) else {
        return Err(ParseError::Memory);
    };
    let (settings, tree, faults, jobs, schedule) = scan.lines.into_parts();
    let mut host = match host_of(alloc, settings.lines(), &tree) {
        Ok(host) => host,
        Err(error) => return Err(error),
    };
    match scan.bad {
        Some(line) => Err(ParseError::BadScript(line)),
        None => match plan_faults(&mut host, faults.as_slice()) {
            Ok(()) => Ok(Script {
                settings,
                host,
                jobs,
                schedule,
            }),
            Err(_) => Err(ParseError::Memory),
        },
    }
}

// Plans these faults.
fn plan_faults(host: &mut TreeHost, faults: &[PlannedFault]) -> Result<(), AllocError>
    ensures { OnOk result (host.new ≡ planned_all faults.now host.old) }
{
    for fault in faults {
        match host.plan_fault(fault.call, fault.errno) {
            Ok(()) => {}
            Err(_) => return Err(AllocError),
        }
    }
    Ok(())
}

// The host that holds the tree, whose lines stand behind so many others.
fn host_of(alloc: Global, above: u32, tree: &TreeSpec) -> Result<TreeHost, ParseError>
    requires { above + length tree.now + 1 < 2 ^ 32 }
    ensures ok { IfOk result (λ host. StartsAs tree.now host) }
    ensures bad { IfErr result (λ error. IsBadTree above tree.now error) }
{
    match TreeHost::from_spec(alloc, tree) {
        Ok(host) => Ok(host),
        Err(error) => Err(error_behind(above, &error)),
    }
}

fn error_behind(above: u32, error: &SpecError) -> ParseError
    requires { above + place_of error.now < 2 ^ 32 }
    ensures { result ≡ error_behind above error.now }
{
    match error {
        SpecError::NotATree(place) => ParseError::BadScript(above + *place),
        SpecError::Memory => ParseError::Memory,
    }
}
