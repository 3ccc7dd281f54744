ghost use Rattle.std.specs.Prelude.{◌≡◌, ◌≤◌, ◌+◌, ◌<◌, ◌^◌, ◌++◌, [], List, ℕ, IfOk, IfErr, OnOk, length};
ghost use Rattle.pt_tree.specs.Listing.{listing_of};
ghost use Rattle.pt_fs.specs.Jobs.{StartAll};
ghost use Rattle.pt_fs.specs.Recorded.{Wrote};
ghost use Rattle.pt_run.specs.TableLines.{live_lines, handle_lines, slots_line};
ghost use Rattle.pt_run.specs.Configured.{configured, if_some};
ghost use Rattle.pt_run.specs.Run.{
  report_behind,
  status_for,
  AreLive,
  IsFsOpened,
  IsNotOpened,
  IsRunFrom,
  IsReportWith,
  IsNoReport,
};
ghost use Rattle.pt_run.specs.Reported.{IsReported};
ghost use Rattle.pt_run.specs.Sized.{AreFilled};
ghost use Rattle.pt_run.specs.declared.status.Status.TheVariants as ended;
ghost use Rattle.pt_tables.specs.Happens.{slots_left};

use crate::report::{LostJob, StepLines, push_answers, push_lost};
use crate::status::Status;
use crate::table_lines::{push_handles, push_lives, push_slots};
use pt_fs::{DriveIntoError, Job, Left, PassthroughFs, Record, SteppedFs, drive_into};
use pt_iface::Refusal;
use pt_maps::XattrMap;
use pt_req::Config;
use pt_script::{ParseError, Script, Settings, parse, seat_of};
use pt_text::push_text;
use pt_tree::TreeHost;
use std::alloc::{AllocError, Global};

// These rules, if there are any.
fn if_some(rules: XattrMap) -> Option<XattrMap>
    ensures { result ≡ if_some rules }
{
    if rules.len() == 0 { None } else { Some(rules) }
}

// The configuration with what is set in place of the defaults.
fn configured(settings: Settings, default: Config) -> Config
    ensures { result ≡ configured settings default }
{
    let switches = settings.switches;
    Config {
        entry_timeout: settings.entry_timeout.unwrap_or(default.entry_timeout),
        attr_timeout: settings.attr_timeout.unwrap_or(default.attr_timeout),
        root_dir: settings.root_dir.unwrap_or(default.root_dir),
        guest_fd_limit: settings.guest_fd_limit.unwrap_or(default.guest_fd_limit),
        cache_policy: settings.cache_policy.unwrap_or(default.cache_policy),
        writeback: switches.writeback.unwrap_or(default.writeback),
        announce_submounts: switches
            .announce_submounts
            .unwrap_or(default.announce_submounts),
        readdirplus: switches.readdirplus.unwrap_or(default.readdirplus),
        allow_direct_io: switches.allow_direct_io.unwrap_or(default.allow_direct_io),
        killpriv_v2: switches.killpriv_v2.unwrap_or(default.killpriv_v2),
        clean_noatime: switches.clean_noatime.unwrap_or(default.clean_noatime),
        allow_mmap: switches.allow_mmap.unwrap_or(default.allow_mmap),
        posix_acl: switches.posix_acl.unwrap_or(default.posix_acl),
        security_label: switches.security_label.unwrap_or(default.security_label),
        xattr: switches.xattr.unwrap_or(default.xattr),
        xattrmap: if_some(settings.xattrmap),
        uid_map: settings.uid_map,
        gid_map: settings.gid_map,
    }
}

// The file system over a host, with the default configuration but for what is set.
fn open_fs(alloc: Global, settings: Settings, host: &mut TreeHost) -> Result<PassthroughFs, Status>
    ensures ok { IfOk result (λ fs. IsFsOpened settings host.old fs host.new) }
    ensures err { IfErr result (λ status. IsNotOpened settings host.old status) }
{
    let mut seat = seat_of(settings.identity());
    let Ok(config) = Config::new(alloc) else {
        return Err(Status::NoMemory);
    };
    let config = configured(settings, config);
    match PassthroughFs::new(alloc, config, host, &mut seat) {
        Ok(fs) => Ok(fs),
        Err(Refusal::Errno(errno)) => Err(Status::BadConfig(errno)),
        Err(Refusal::Memory) => Err(Status::NoMemory),
        // It never comes, since no seat was changed.
        Err(Refusal::Lost(errno)) => Err(Status::BadConfig(errno)),
    }
}

// Appends what the report says of the tables.
fn push_tables(out: &mut Vec<u8>, fs: &PassthroughFs) -> Result<(), AllocError>
    ensures { OnOk result ((lives : List (ℕ × ℕ)) × (handles : List (ℕ × ℕ)) × AreLive fs.now.tables lives handles
        × (out.new.items ≡ out.old.items ++ live_lines lives ++ handle_lines handles
        ++ slots_line (slots_left fs.now.tables 0))) }
{
    let session = fs.session();
    push_lives(out, session)?;
    push_handles(out, session)?;
    push_slots(out, session.slots_left(0))
}

// Appends what the report says of the host.
fn push_objects(alloc: Global, out: &mut Vec<u8>, host: &TreeHost) -> Result<(), AllocError>
    ensures { OnOk result (out.new.items ≡ out.old.items ++ listing_of host.now) }
{
    match host.listing(alloc) {
        Ok(listing) => push_text(out, listing.as_slice()),
        Err(_) => Err(AllocError),
    }
}

// Appends what the report says behind the lines of the steps, of a run that left this host.
fn push_rest(
    alloc: Global,
    out: &mut Vec<u8>,
    left: &Left<PassthroughFs>,
    host: &TreeHost,
    lost: Option<LostJob>,
) -> Result<(), AllocError>
    ensures { OnOk result ((lives : List (ℕ × ℕ)) × (handles : List (ℕ × ℕ))
        × AreLive left.now.fs.tables lives handles × (out.new.items ≡ report_behind out.old.items
        left.now.answers.items lives handles left.now.fs.tables host.now lost)) }
{
    push_answers(out, left.answers.as_slice())?;
    push_tables(out, &left.fs)?;
    push_objects(alloc, out, host)?;
    push_lost(out, lost)?;
    push_text(out, b"end\n")
}

/// What a run left, and whether it lost a seat.
#[derive(Drop)]
pub(crate) struct Ran {
    pub left: Left<PassthroughFs>,
    pub lost: Option<LostJob>,
}

/// Runs the jobs over a host that holds their tree, and has each of their steps written down.
pub(crate) fn run_jobs<R: Record>(
    alloc: Global,
    settings: Settings,
    host: &mut TreeHost,
    jobs: Vec<Job>,
    schedule: &[u32],
    writer: &mut R,
) -> Result<Ran, Status>
    requires few { length jobs.items < 2 ^ 32 }
    requires seats { StartAll jobs.items }
    requires sizes { AreFilled jobs.items }
    ensures ok { IfOk result (λ ran. Wrote R.wrote writer.old writer.new (λ trace. IsRunFrom settings host.old
        jobs.items schedule.now trace ran.left.answers.items ran.left.fs.tables host.new ran.lost)) }
    ensures err { IfErr result (λ status. IsNotOpened settings host.old status) }
{
    let fs = open_fs(alloc, settings, host)?;
    match drive_into(alloc, fs, host, jobs, schedule, writer) {
        Ok(left) => Ok(Ran { left, lost: None }),
        Err(DriveIntoError::CredentialsLost(job, errno, left)) => {
            let lost = Some(LostJob { job, errno });
            Ok(Ran { left, lost })
        }
        Err(DriveIntoError::Memory(_)) | Err(DriveIntoError::Record(_)) => Err(Status::NoMemory),
    }
}

// How the program ends with the report of a run.
fn status_for(lost: Option<LostJob>) -> Status
    ensures { result ≡ status_for lost }
{
    match lost {
        None => Status::Done,
        Some(_) => Status::CredentialsLost,
    }
}

/// A report, and how the program ends with it.
#[derive(Drop)]
pub(crate) struct Report {
    pub text: Vec<u8>,
    pub ends: Status,
}

// The report of jobs that were run, behind the lines of their steps, and left this host.
fn report_of_run(
    alloc: Global,
    lines: StepLines,
    ran: Ran,
    host: &TreeHost,
) -> Result<Report, Status>
    ensures ok { IfOk result (λ report. (lives : List (ℕ × ℕ)) × (handles : List (ℕ × ℕ))
        × AreLive ran.left.fs.tables lives handles × (report.text.items ≡ report_behind lines.text.items
        ran.left.answers.items lives handles ran.left.fs.tables host.now ran.lost)) }
    ensures ends { IfOk result (λ report. report.ends ≡ status_for ran.lost) }
    ensures err { IfErr result (λ status. status ≡ ended.NoMemory) }
{
    let Ran { left, lost } = ran;
    let mut text = lines.text;
    match push_rest(alloc, &mut text, &left, host, lost) {
        Ok(()) => Ok(Report {
            text,
            ends: status_for(lost),
        }),
        Err(_) => Err(Status::NoMemory),
    }
}

// No lines yet, with room for those that so many jobs have, about so many bytes each. Where there is no room for all,
// it is had as they come.
fn no_lines(alloc: Global, jobs: usize) -> StepLines
    ensures { result.text.items ≡ [] }
{
    let mut text = Vec::new(alloc);
    let _room = text.reserve(jobs.saturating_mul(768));
    StepLines { text }
}

// The report of the script's jobs, run over its host.
fn report_of_jobs(alloc: Global, script: Script) -> Result<Report, Status>
    requires few { length script.jobs.items < 2 ^ 32 }
    requires seats { StartAll script.jobs.items }
    requires sizes { AreFilled script.jobs.items }
    ensures ok { IfOk result (λ report. IsReported script.settings script.host script.jobs.items script.schedule
        report.ends report.text.items) }
    ensures err { IfErr result (λ status. IsNotOpened script.settings script.host status) }
{
    let Script {
        settings,
        mut host,
        jobs,
        schedule,
    } = script;
    let places = schedule.as_slice();
    let mut lines = no_lines(alloc, jobs.len());
    match run_jobs(alloc, settings, &mut host, jobs, places, &mut lines) {
        Ok(ran) => report_of_run(alloc, lines, ran, &host),
        Err(status) => Err(status),
    }
}

/// The report of the script that these bytes are, run over its tree.
pub(crate) fn report_of_script(alloc: Global, bytes: &[u8]) -> Result<Report, Status>
    requires { length bytes.now ≤ 16777216 }
    ensures ok { IfOk result (λ report. IsReportWith bytes.now report.ends report.text.items) }
    ensures err { IfErr result (λ status. IsNoReport bytes.now status) }
{
    match parse(alloc, bytes) {
        Ok(script) => report_of_jobs(alloc, script),
        Err(ParseError::BadScript(line)) => Err(Status::BadScript(line)),
        Err(ParseError::Memory) => Err(Status::NoMemory),
    }
}
