ghost use Rattle.std.specs.Prelude.{◌≡◌, ◌≤◌, ◌==◌, List, ℕ, Result, true, false, position, length};
ghost use Rattle.std.specs.List.{position_or_len};
ghost use Rattle.pt_host.specs.declared.op.KeptHostOp.TheVariants as call;
ghost use Rattle.pt_handles.specs.OneCall.{AsksOnce};
ghost use Rattle.pt_handles.specs.Paths.{is_no_file, path_in, without_mark, TellsPath, IsShownBy, IsNumber};
ghost use Rattle.pt_handles.specs.declared.path_error.FdPathError.{FdPathError};

use crate::error::HandleError;
use crate::padding::first_nul;
use crate::path_error::FdPathError;
use crate::text::from_string;
use pt_host::{Bytes, Fd, Host, HostOp, HostReply, HostSeat, HostValue};
use std::alloc::{AllocError, Global};

/// What stands behind the path of a file that has lost its name.
const DELETED_MARK: &[u8] = b" (deleted)";

/// A path has fewer bytes.
const PATH_MAX: usize = 4096;

fn slash_in(link: &[u8]) -> Option<usize>
    ensures { result ≡ position (λ byte. byte == 47) link.now }
{
    link.iter().position(|byte| *byte == b'/')
}

/// Where the first slash is, or the end.
fn first_slash(link: &[u8]) -> usize
    ensures place { result ≡ position_or_len (λ byte. byte == 47) link.now }
    ensures within { result ≤ length link.now }
{
    match slash_in(link) {
        Some(place) => place,
        None => link.len(),
    }
}

/// Whether a colon stands before the first slash.
fn is_no_file(link: &[u8]) -> bool
    ensures { result ≡ is_no_file link.now }
{
    link[..first_slash(link)].iter().any(|byte| *byte == b':')
}

fn without_mark(link: Bytes) -> Bytes
    ensures { result ≡ without_mark link }
{
    let mut path = link.into_vec();
    let length = path.len().saturating_sub(DELETED_MARK.len());
    path.truncate(length);
    Bytes::from_vec(path)
}

/// The path that a link tells.
fn path_in(link: Bytes) -> Result<Bytes, FdPathError>
    ensures { result ≡ path_in link }
{
    if link.len() >= PATH_MAX {
        return Err(FdPathError::TooLong);
    }
    if let Some(place) = first_nul(link.as_slice()) {
        return Err(FdPathError::InvalidCString(place as u64));
    }
    if is_no_file(link.as_slice()) {
        return Err(FdPathError::NotAFile(link));
    }
    if link.as_slice().ends_with(DELETED_MARK) {
        return Err(FdPathError::Deleted(without_mark(link)));
    }
    Ok(link)
}

/// The path of what a descriptor is open on.
pub fn get_path_by_fd<H: Host>(
    host: &mut H,
    seat: &mut HostSeat,
    fd: Fd,
) -> Result<Bytes, FdPathError>
    ensures { AsksOnce H.does (call.FdPath fd) (λ told. TellsPath told result) host.old seat.old host.new seat.new }
{
    match host.call(seat, &HostOp::FdPath { fd }) {
        HostReply::Ok(HostValue::Bytes(link)) => path_in(link),
        HostReply::Ok(_) => unreachable!(),
        HostReply::Refused(errno) | HostReply::Fault(errno) => Err(FdPathError::ReadLink(errno)),
        HostReply::NoMemory => Err(FdPathError::Memory),
    }
}

fn number_of(alloc: Global, fd: Fd) -> Result<Bytes, HandleError>
    ensures { IsNumber fd result }
{
    let number = fd.0;
    match format!(in alloc; "{{fd:{number}}}") {
        Ok(text) => Ok(from_string(text)),
        Err(AllocError) => Err(HandleError::Memory),
    }
}

/// A descriptor as it is shown to users: the path of what it is open on, if that is asked for and told, and else its
/// number.
pub fn printable_fd<H: Host>(
    alloc: Global,
    host: &mut H,
    seat: &mut HostSeat,
    fd: Fd,
    with_path: bool,
) -> Result<Bytes, HandleError>
    ensures number { with_path ≡ false → (host.new ≡ host.old) × (seat.new ≡ seat.old) × IsNumber fd result }
    ensures path { with_path ≡ true → AsksOnce H.does (call.FdPath fd)
        (λ told. (path : Result (List ℕ) FdPathError) × TellsPath told path × IsShownBy fd path result)
        host.old seat.old host.new seat.new }
{
    if !with_path {
        return number_of(alloc, fd);
    }
    match get_path_by_fd(host, seat, fd) {
        Ok(path) => Ok(path),
        Err(FdPathError::Memory) => Err(HandleError::Memory),
        Err(_) => number_of(alloc, fd),
    }
}
