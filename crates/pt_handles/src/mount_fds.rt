//! How mounts are found and opened.

ghost use Rattle.std.specs.Prelude.{◌≡◌, [], None, Ok, true, false, List, ℕ, Result, IfOk, IfErr, option_copied};
ghost use Rattle.pt_host.specs.declared.op.KeptHostOp.TheVariants as call;
ghost use Rattle.pt_handles.specs.Calls.{CallMade, CallsLead};
ghost use Rattle.pt_handles.specs.OneCall.{AsksOnce};
ghost use Rattle.pt_handles.specs.Reopening.{Reopens};
ghost use Rattle.pt_handles.specs.Mounts.{is_silent};
ghost use Rattle.pt_handles.specs.MountErrors.{error_with};
ghost use Rattle.pt_handles.specs.MountCalls.{IsFoundIn, TellsRoot, IsReopened, OpensPoint, Gets, GetsNew, EndsIn};
ghost use Rattle.pt_handles.specs.MountCalls.{FindsRoot, IsErrorFor, IsToldWith, by_path, for_reading};
ghost use Rattle.pt_handles.specs.MountSteps.{IsPointOpened, IsJudged, IsLooked, OpensFit};
ghost use Rattle.pt_handles.specs.declared.mount_cause.MountCause.{MountCause};
ghost use Rattle.pt_handles.specs.declared.mount_error.MountError.TheVariants.{Memory};

use crate::calls::close;
use crate::kind::is_safe_inode;
use crate::mount_cause::MountCause;
use crate::mount_error::{MPRError, MPRResult, MountError};
use crate::mount_fd::MountFd;
use crate::mount_info::mount_root_in;
use crate::mount_table::{Holding, MountFds};
use crate::padding::first_nul;
use crate::text::errno_text;
use pt_host::{Bytes, Errno, Fd, Host, HostOp, HostReply, HostSeat, HostValue, OpenFlags, Stat};
use std::alloc::{AllocError, Global};
use std::str;

/// Where the mount is by this text.
fn root_in(
    alloc: Global,
    text: &[u8],
    mount_id: u64,
    prefix: Option<&[u8]>,
) -> Result<Bytes, MountCause>
    ensures { IsFoundIn (option_copied prefix.entry) mount_id text.now result }
{
    if str::from_utf8(text).is_err() {
        return Err(MountCause::NotUtf8);
    }
    match mount_root_in(text, mount_id, prefix) {
        Some(root) => match Bytes::from_slice(alloc, root) {
            Ok(root) => Ok(root),
            Err(_) => Err(MountCause::Memory),
        },
        None => Err(MountCause::NotListed),
    }
}

/// Asks the host where the mount is.
fn root_of<H: Host>(
    alloc: Global,
    host: &mut H,
    seat: &mut HostSeat,
    mount_id: u64,
    prefix: Option<&[u8]>,
) -> Result<Bytes, MountCause>
    ensures { AsksOnce H.does call.MountInfo (λ told. TellsRoot (option_copied prefix.entry) mount_id told result)
        host.old seat.old host.new seat.new }
{
    match host.call(seat, &HostOp::MountInfo) {
        HostReply::Ok(HostValue::Bytes(text)) => root_in(alloc, text.as_slice(), mount_id, prefix),
        HostReply::Ok(_) => unreachable!(),
        HostReply::Refused(errno) | HostReply::Fault(errno) => Err(MountCause::NotRead(errno)),
        HostReply::NoMemory => Err(MountCause::Memory),
    }
}

/// Opens a mount point path-only.
fn open_point<H: Host>(host: &mut H, seat: &mut HostSeat, point: &[u8]) -> Result<Fd, MountCause>
    ensures { AsksOnce H.does (call.OpenRoot point.now by_path) (λ told. IsPointOpened told result)
        host.old seat.old host.new seat.new }
{
    let op = HostOp::OpenRoot {
        path: point,
        flags: OpenFlags::O_PATH,
    };
    match host.call(seat, &op) {
        HostReply::Ok(HostValue::Fd(fd)) => Ok(fd),
        HostReply::Ok(_) => unreachable!(),
        HostReply::Refused(errno) | HostReply::Fault(errno) => Err(MountCause::NotOpened(errno)),
        HostReply::NoMemory => Err(MountCause::Memory),
    }
}

/// Whether an object of this status can be opened for reading as one of the mount, or what stands against it.
fn judge(mount_id: u64, stat: &Stat) -> Result<(), MountCause>
    ensures { IsJudged mount_id stat.now result }
{
    if stat.ids.mnt_id != mount_id {
        return Err(MountCause::OtherMount(stat.ids.mnt_id));
    }
    if is_safe_inode(stat.mode) {
        Ok(())
    } else {
        Err(MountCause::OtherKind)
    }
}

/// Looks whether what a descriptor is open on can be opened for reading as one of the mount.
fn look<H: Host>(host: &mut H, seat: &mut HostSeat, mount_id: u64, fd: Fd) -> Result<(), MountCause>
    ensures { AsksOnce H.does (call.Stat fd) (λ told. IsLooked mount_id told result)
        host.old seat.old host.new seat.new }
{
    match host.call(seat, &HostOp::Stat { fd }) {
        HostReply::Ok(HostValue::Stat(stat)) => judge(mount_id, &stat),
        HostReply::Ok(_) => unreachable!(),
        HostReply::Refused(errno) | HostReply::Fault(errno) => Err(MountCause::NoStatus(errno)),
        HostReply::NoMemory => Err(MountCause::Memory),
    }
}

/// Opens for reading what a descriptor is open on.
fn read_anew<H: Host, F: FnOnce(&mut H, &mut HostSeat, Fd, OpenFlags) -> HostReply>(
    host: &mut H,
    seat: &mut HostSeat,
    fd: Fd,
    reopen: F,
) -> Result<Fd, MountCause>
    requires callable { F.IsAlwaysCallable reopen }
    requires reopens { Reopens H.does F.FnOnce reopen }
    ensures { AsksOnce H.does (call.Reopen fd for_reading) (λ told. IsReopened told result)
        host.old seat.old host.new seat.new }
{
    match reopen(host, seat, fd, OpenFlags::O_CLOEXEC) {
        HostReply::Ok(HostValue::Fd(fd)) => Ok(fd),
        HostReply::Ok(_) => unreachable!(),
        HostReply::Refused(errno) | HostReply::Fault(errno) => Err(MountCause::NotReopened(errno)),
        HostReply::NoMemory => Err(MountCause::Memory),
    }
}

/// Opens for reading what a descriptor is open on, if that is fit.
fn read_if_fit<H: Host, F: FnOnce(&mut H, &mut HostSeat, Fd, OpenFlags) -> HostReply>(
    host: &mut H,
    seat: &mut HostSeat,
    mount_id: u64,
    fd: Fd,
    reopen: F,
) -> Result<Fd, MountCause>
    requires callable { F.IsAlwaysCallable reopen }
    requires reopens { Reopens H.does F.FnOnce reopen }
    ensures { (made : List CallMade) × CallsLead H.does made host.old seat.old host.new seat.new
        × OpensFit mount_id fd made result }
{
    match look(host, seat, mount_id, fd) {
        Ok(()) => read_anew(host, seat, fd, reopen),
        Err(why) => Err(why),
    }
}

/// Opens a mount point for reading. It is looked at first, since to open a special file may do more than that.
fn open_mount<H: Host, F: FnOnce(&mut H, &mut HostSeat, Fd, OpenFlags) -> HostReply>(
    host: &mut H,
    seat: &mut HostSeat,
    mount_id: u64,
    point: &[u8],
    reopen: F,
) -> Result<Fd, MountCause>
    requires callable { F.IsAlwaysCallable reopen }
    requires reopens { Reopens H.does F.FnOnce reopen }
    ensures { (made : List CallMade) × CallsLead H.does made host.old seat.old host.new seat.new
        × OpensPoint mount_id point.now made result }
{
    if let Some(place) = first_nul(point) {
        return Err(MountCause::HasNul(place as u64));
    }
    match open_point(host, seat, point) {
        Ok(fd) => {
            let opened = read_if_fit(host, seat, mount_id, fd, reopen);
            close(host, seat, fd);
            opened
        }
        Err(why) => Err(why),
    }
}

/// The error of a mount whose cause is another's.
fn error_with(
    alloc: Global,
    mount_id: u64,
    errno: Errno,
    silent: bool,
    fs_mount_root: Option<Bytes>,
) -> MPRResult<MPRError>
    ensures ok { IfOk result (λ error. error ≡ error_with mount_id errno silent fs_mount_root) }
    ensures alone { IfErr result (λ why. why ≡ Memory) }
{
    let description = errno_text(alloc, errno)?;
    Ok(MPRError {
        errno,
        description,
        silent,
        fs_mount_id: Some(mount_id),
        fs_mount_root,
    })
}

impl MountFds {
    /// The descriptor of a mount, which is open until it is given back. Where somebody holds it already there is one
    /// holder more, and no call. `reopen` opens what a descriptor is open on once more, with other flags.
    pub fn get<H: Host, F: FnOnce(&mut H, &mut HostSeat, Fd, OpenFlags) -> HostReply>(
        &mut self,
        host: &mut H,
        seat: &mut HostSeat,
        mount_id: u64,
        reopen: F,
    ) -> MPRResult<MountFd>
        requires callable { F.IsAlwaysCallable reopen }
        requires reopens { Reopens H.does F.FnOnce reopen }
        ensures { Gets H.does mount_id self.old host.old seat.old result self.new host.new seat.new }
    {
        match self.hold(mount_id) {
            Holding::Held(file) => Ok(MountFd { mount_id, file }),
            Holding::TooMany => Err(self.refuse(mount_id, &[], &MountCause::TooManyHolders)),
            Holding::NoRow => self.get_new(host, seat, mount_id, reopen),
        }
    }

    /// The descriptor of a mount that has no row.
    fn get_new<H: Host, F: FnOnce(&mut H, &mut HostSeat, Fd, OpenFlags) -> HostReply>(
        &mut self,
        host: &mut H,
        seat: &mut HostSeat,
        mount_id: u64,
        reopen: F,
    ) -> MPRResult<MountFd>
        requires callable { F.IsAlwaysCallable reopen }
        requires reopens { Reopens H.does F.FnOnce reopen }
        ensures { (made : List CallMade) × CallsLead H.does made host.old seat.old host.new seat.new
            × GetsNew mount_id self.old made result self.new }
    {
        let point = match root_of(self.alloc, host, seat, mount_id, self.prefix()) {
            Ok(point) => point,
            Err(why) => return Err(self.refuse(mount_id, &[], &why)),
        };
        match open_mount(host, seat, mount_id, point.as_slice(), reopen) {
            Ok(fd) => self.enter_or_close(host, seat, mount_id, fd),
            Err(why) => Err(self.refuse(mount_id, point.as_slice(), &why)),
        }
    }

    /// A row of a mount that has none, with one holder, or its descriptor is closed.
    fn enter_or_close<H: Host>(
        &mut self,
        host: &mut H,
        seat: &mut HostSeat,
        mount_id: u64,
        fd: Fd,
    ) -> MPRResult<MountFd>
        ensures { (closings : List CallMade) × CallsLead H.does closings host.old seat.old host.new seat.new
            × ((point : List ℕ) → EndsIn mount_id point self.old (Ok fd) closings result self.new) }
    {
        match self.enter(mount_id, fd) {
            Ok(()) => Ok(MountFd { mount_id, file: fd }),
            Err(AllocError) => {
                close(host, seat, fd);
                Err(MountError::Memory)
            }
        }
    }

    /// Where the root of a mount is, seen from below the prefix.
    pub fn get_mount_root<H: Host>(
        &mut self,
        host: &mut H,
        seat: &mut HostSeat,
        mount_id: u64,
    ) -> MPRResult<Bytes>
        ensures { AsksOnce H.does call.MountInfo (λ told.
            (root : Result (List ℕ) MountCause) × TellsRoot self.old.prefix mount_id told root
            × FindsRoot mount_id self.old root result self.new) host.old seat.old host.new seat.new }
    {
        match root_of(self.alloc, host, seat, mount_id, self.prefix()) {
            Ok(root) => Ok(root),
            Err(why) => Err(self.refuse(mount_id, &[], &why)),
        }
    }

    /// The error of a mount whose cause is another's, which is written down. It tells where the mount is, unless it is
    /// silent or that is not known.
    pub fn error_for<H: Host>(
        &mut self,
        host: &mut H,
        seat: &mut HostSeat,
        mount_id: u64,
        errno: Errno,
    ) -> MPRResult<MPRError>
        ensures silent { is_silent self.old mount_id ≡ true → (host.new ≡ host.old) × (seat.new ≡ seat.old)
            × (self.new ≡ self.old) × IsToldWith mount_id errno true None result }
        ensures loud { is_silent self.old mount_id ≡ false → AsksOnce H.does call.MountInfo (λ told.
            (root : Result (List ℕ) MountCause) × TellsRoot self.old.prefix mount_id told root
            × IsErrorFor mount_id errno self.old root result self.new) host.old seat.old host.new seat.new }
    {
        if self.is_silent(mount_id) {
            return error_with(self.alloc, mount_id, errno, true, None);
        }
        let root = match root_of(self.alloc, host, seat, mount_id, self.prefix()) {
            Ok(root) => Some(root),
            Err(MountCause::Memory) => return Err(MountError::Memory),
            Err(_why) => None,
        };
        let error = error_with(self.alloc, mount_id, errno, false, root)?;
        self.log(mount_id);
        Ok(error)
    }
}
