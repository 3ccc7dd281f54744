//! The attributes of a file are set, each where it is asked for.

ghost use Rattle.std.specs.Prelude.{◌≡◌, ◌||◌, ℕ, List, Some};
ghost use Rattle.pt_frame.specs.Machine.Walk.{Reads};
ghost use Rattle.pt_frame.specs.Tree.{RequestTree};
ghost use Rattle.pt_frame.specs.declared.told.Heard.{Heard};
ghost use Rattle.pt_host.specs.Call.{call_of};
ghost use Rattle.pt_host.specs.declared.ids.Fd.{Fd};
ghost use Rattle.pt_maps.specs.Translated.{to_host};
ghost use Rattle.pt_attr.specs.Setting.{atime_set, cut_if, cut_to, do_if, file_set, give_to, id_set, is_missized};
ghost use Rattle.pt_attr.specs.Setting.{kills_suidgid, mtime_set, opens_anew, own_as, own_if, set_mode};
ghost use Rattle.pt_attr.specs.Setting.{set_owner, set_size, set_times, sets_atime, sets_gid, sets_mode, sets_mtime};
ghost use Rattle.pt_attr.specs.Setting.{sets_size, sets_uid, sized, target_of, time_set};
ghost use Rattle.pt_attr.specs.declared.parts.setting.Target.{Target};

use crate::steps::do_call;
use pt_frame::{Asked, Heard, Stop, bares};
use pt_host::{Bytes, Errno, Fd, HostOp, HostSeat, Time, TimeSet};
use pt_iface::{Answer, SetattrIn, SetattrValid};
use pt_maps::IdMap;
use pt_req::{
    Plan, clear_capability, drops_fsetid, file_of, is_bad_offset, open_row, pin_handle,
    without_fsetid,
};
use pt_session::Resolved;

/// The id that leaves an owner as it is.
const NO_ID: u32 = 4294967295;

/// What a file is opened with for its size, `O_NONBLOCK | O_RDWR`.
const SETTING_FLAGS: u32 = 2050;

/// What a call goes to: the handle's descriptor, or the file, whose link in `/proc` it has to go through.
#[derive(Clone, Copy)]
pub struct Target {
    pub fd: Fd,
    pub through: bool,
}

fn sets_mode(valid: SetattrValid) -> bool
    ensures { result ≡ sets_mode valid }
{
    valid.includes(SetattrValid::MODE)
}

fn sets_uid(valid: SetattrValid) -> bool
    ensures { result ≡ sets_uid valid }
{
    valid.includes(SetattrValid::UID)
}

fn sets_gid(valid: SetattrValid) -> bool
    ensures { result ≡ sets_gid valid }
{
    valid.includes(SetattrValid::GID)
}

fn sets_size(valid: SetattrValid) -> bool
    ensures { result ≡ sets_size valid }
{
    valid.includes(SetattrValid::SIZE)
}

fn kills_suidgid(valid: SetattrValid) -> bool
    ensures { result ≡ kills_suidgid valid }
{
    valid.includes(SetattrValid::KILL_SUIDGID)
}

/// Whether a size is to be set that no file can have.
fn is_missized(valid: SetattrValid, attr: &SetattrIn) -> bool
    ensures { result ≡ is_missized valid attr.now }
{
    sets_size(valid) && is_bad_offset(attr.size)
}

/// Such a size is refused.
#[tactic(auto, using(pt_frame::proofs::Reading::gives, pt_frame::proofs::Reading::rest), unfolding(crate::specs::Setting::sized))]
pub fn sized<'a>(valid: SetattrValid, attr: &SetattrIn) -> Asked<'a, ()>
    ensures { (told : List Heard) (at : ℕ) (next : RequestTree) →
        Reads told at at result (sized valid attr.now next) (λ done. next) }
{
    if is_missized(valid, attr) {
        return Err(Stop::Gives(Answer::Refused(Errno::EINVAL)));
    }
    Ok(())
}

/// Whether a file is to be opened for its size.
fn opens_anew(handle: Option<u64>, valid: SetattrValid) -> bool
    ensures { result ≡ opens_anew handle valid }
{
    match handle {
        Some(_) => false,
        None => sets_size(valid),
    }
}

/// The file that is set: what is opened for its size, or what stands for its object.
#[tactic(auto, unfolding(crate::specs::Setting::file_set))]
pub fn file_set<'a>(
    told: &'a [Heard],
    at: &mut usize,
    handle: Option<u64>,
    valid: SetattrValid,
    row: &Resolved,
) -> Asked<'a, Fd>
    ensures { (next : Fd → RequestTree) →
        Reads told.now at.old at.new result (file_set handle valid row.now next) next }
{
    if opens_anew(handle, valid) {
        open_row(told, at, row, SETTING_FLAGS)
    } else {
        file_of(&row.form)
    }
}

/// A handle's descriptor is what calls go to.
fn pinned_target<'a>(
    told: &'a [Heard],
    at: &mut usize,
    inode: u64,
    handle: u64,
) -> Asked<'a, Target>
    ensures { (file : Fd) (next : Target → RequestTree) →
        Reads told.now at.old at.new result (target_of inode (Some handle) file next) next }
{
    let fd = pin_handle(told, at, handle, inode)?;
    Ok(Target { fd, through: false })
}

/// What calls go to: the handle's descriptor, where one is given, and else the file.
#[tactic(auto, using(pt_frame::proofs::Reading::here), unfolding(crate::specs::Setting::target_of))]
pub fn target_of<'a>(
    told: &'a [Heard],
    at: &mut usize,
    inode: u64,
    handle: Option<u64>,
    file: Fd,
) -> Asked<'a, Target>
    ensures { (next : Target → RequestTree) →
        Reads told.now at.old at.new result (target_of inode handle file next) next }
{
    match handle {
        Some(handle) => pinned_target(told, at, inode, handle),
        None => Ok(Target {
            fd: file,
            through: true,
        }),
    }
}

/// A call that is made only where it is asked for.
#[tactic(auto, using(pt_frame::proofs::Reading::rest))]
fn do_if<'a>(told: &'a [Heard], at: &mut usize, asked: bool, op: HostOp<'a>) -> Asked<'a, ()>
    ensures { (next : RequestTree) →
        Reads told.now at.old at.new result (do_if asked (call_of op.entry) next) (λ done. next) }
{
    if !asked {
        return Ok(());
    }
    do_call(told, at, op)
}

pub fn set_mode<'a>(
    told: &'a [Heard],
    at: &mut usize,
    valid: SetattrValid,
    attr: &SetattrIn,
    target: Target,
) -> Asked<'a, ()>
    ensures { (next : RequestTree) →
        Reads told.now at.old at.new result (set_mode valid attr.now target next) (λ done. next) }
{
    let asked = sets_mode(valid);
    let op = HostOp::ChMod {
        fd: target.fd,
        through: target.through,
        mode: attr.mode,
    };
    do_if(told, at, asked, op)
}

/// The host's id for one that is to be set; none where it is forbidden.
fn id_set(is_set: bool, map: &IdMap, id: u32) -> Option<u32>
    ensures { result ≡ id_set is_set (to_host map.now id) }
{
    if !is_set {
        return Some(NO_ID);
    }
    map.map_guest(id).ok()
}

/// The owner becomes this one, and the file has no capabilities then.
fn give_to<'a>(
    told: &'a [Heard],
    at: &mut usize,
    name: &'a Option<Bytes>,
    file: Fd,
    uid: u32,
    gid: u32,
) -> Asked<'a, ()>
    ensures { (next : RequestTree) →
        Reads told.now at.old at.new result (give_to name.now file uid gid next) (λ done. next) }
{
    clear_capability(told, at, name, file, true)?;
    do_call(told, at, HostOp::ChOwn { fd: file, uid, gid })
}

/// It does unless an id is forbidden.
#[tactic(auto, using(pt_frame::proofs::Reading::gives))]
fn own_as<'a>(
    told: &'a [Heard],
    at: &mut usize,
    name: &'a Option<Bytes>,
    file: Fd,
    uid: Option<u32>,
    gid: Option<u32>,
) -> Asked<'a, ()>
    ensures { (next : RequestTree) →
        Reads told.now at.old at.new result (own_as name.now file uid gid next) (λ done. next) }
{
    let Some(uid) = uid else {
        return Err(Stop::Gives(Answer::Refused(Errno::EPERM)));
    };
    let Some(gid) = gid else {
        return Err(Stop::Gives(Answer::Refused(Errno::EPERM)));
    };
    give_to(told, at, name, file, uid, gid)
}

/// It does where it is asked for.
#[tactic(auto, using(pt_frame::proofs::Reading::rest))]
fn own_if<'a>(
    told: &'a [Heard],
    at: &mut usize,
    asked: bool,
    name: &'a Option<Bytes>,
    file: Fd,
    uid: Option<u32>,
    gid: Option<u32>,
) -> Asked<'a, ()>
    ensures { (next : RequestTree) →
        Reads told.now at.old at.new result (own_if asked name.now file uid gid next) (λ done. next) }
{
    if !asked {
        return Ok(());
    }
    own_as(told, at, name, file, uid, gid)
}

fn sets_owner(valid: SetattrValid) -> bool
    ensures { result ≡ (sets_uid valid || sets_gid valid) }
{
    sets_uid(valid) || sets_gid(valid)
}

fn uid_set(plan: &Plan, valid: SetattrValid, attr: &SetattrIn) -> Option<u32>
    ensures { result ≡ id_set (sets_uid valid) (to_host plan.now.uid_map attr.now.uid) }
{
    id_set(sets_uid(valid), &plan.uid_map, attr.uid)
}

fn gid_set(plan: &Plan, valid: SetattrValid, attr: &SetattrIn) -> Option<u32>
    ensures { result ≡ id_set (sets_gid valid) (to_host plan.now.gid_map attr.now.gid) }
{
    id_set(sets_gid(valid), &plan.gid_map, attr.gid)
}

/// The owner is always the file's, also where a handle is given.
pub fn set_owner<'a>(
    told: &'a [Heard],
    at: &mut usize,
    plan: &'a Plan,
    valid: SetattrValid,
    attr: &SetattrIn,
    file: Fd,
) -> Asked<'a, ()>
    ensures { (next : RequestTree) →
        Reads told.now at.old at.new result (set_owner plan.now valid attr.now file next) (λ done. next) }
{
    let asked = sets_owner(valid);
    let uid = uid_set(plan, valid, attr);
    let gid = gid_set(plan, valid, attr);
    own_if(told, at, asked, &plan.capability, file, uid, gid)
}

/// The size is set, so that set-id bits go where the guest asks that, and capabilities in any case.
fn cut_to<'a>(
    told: &'a [Heard],
    at: &mut usize,
    drops: bool,
    name: &'a Option<Bytes>,
    file: Fd,
    size: u64,
) -> Asked<'a, ()>
    ensures { (next : RequestTree) →
        Reads told.now at.old at.new result (cut_to drops name.now file size next) (λ done. next) }
{
    without_fsetid(told, at, drops)?;
    clear_capability(told, at, name, file, false)?;
    do_call(told, at, HostOp::Truncate { fd: file, size })?;
    bares(told, at)
}

/// It is set where it is asked for.
#[tactic(auto, using(pt_frame::proofs::Reading::rest))]
fn cut_if<'a>(
    told: &'a [Heard],
    at: &mut usize,
    asked: bool,
    drops: bool,
    name: &'a Option<Bytes>,
    file: Fd,
    size: u64,
) -> Asked<'a, ()>
    ensures { (next : RequestTree) →
        Reads told.now at.old at.new result (cut_if asked drops name.now file size next) (λ done. next) }
{
    if !asked {
        return Ok(());
    }
    cut_to(told, at, drops, name, file, size)
}

pub fn set_size<'a>(
    told: &'a [Heard],
    at: &mut usize,
    plan: &'a Plan,
    seat: &HostSeat,
    valid: SetattrValid,
    attr: &SetattrIn,
    target: Target,
) -> Asked<'a, ()>
    ensures { (next : RequestTree) → Reads told.now at.old at.new result
        (set_size plan.now seat.now valid attr.now target next) (λ done. next) }
{
    let asked = sets_size(valid);
    let kill = kills_suidgid(valid);
    let drops = drops_fsetid(plan, seat, kill);
    cut_if(
        told,
        at,
        asked,
        drops,
        &plan.capability,
        target.fd,
        attr.size,
    )
}

fn time_set(now: bool, told: bool, sec: u64, nsec: u32) -> TimeSet
    ensures { result ≡ time_set now told sec nsec }
{
    if now {
        TimeSet::Now
    } else if told {
        let sec = sec.cast_signed();
        TimeSet::At(Time { sec, nsec })
    } else {
        TimeSet::Omit
    }
}

fn atime_set(valid: SetattrValid, attr: &SetattrIn) -> TimeSet
    ensures { result ≡ atime_set valid attr.now }
{
    let now = valid.includes(SetattrValid::ATIME_NOW);
    let told = valid.includes(SetattrValid::ATIME);
    time_set(now, told, attr.atime, attr.atimensec)
}

fn mtime_set(valid: SetattrValid, attr: &SetattrIn) -> TimeSet
    ensures { result ≡ mtime_set valid attr.now }
{
    let now = valid.includes(SetattrValid::MTIME_NOW);
    let told = valid.includes(SetattrValid::MTIME);
    time_set(now, told, attr.mtime, attr.mtimensec)
}

/// Whether a time is to be set.
fn sets_times(valid: SetattrValid) -> bool
    ensures { result ≡ (sets_atime valid || sets_mtime valid) }
{
    valid.includes(SetattrValid::ATIME) || valid.includes(SetattrValid::MTIME)
}

pub fn set_times<'a>(
    told: &'a [Heard],
    at: &mut usize,
    valid: SetattrValid,
    attr: &SetattrIn,
    target: Target,
) -> Asked<'a, ()>
    ensures { (next : RequestTree) →
        Reads told.now at.old at.new result (set_times valid attr.now target next) (λ done. next) }
{
    let asked = sets_times(valid);
    let atime = atime_set(valid, attr);
    let mtime = mtime_set(valid, attr);
    let op = HostOp::SetTimes {
        fd: target.fd,
        through: target.through,
        atime,
        mtime,
    };
    do_if(told, at, asked, op)
}
