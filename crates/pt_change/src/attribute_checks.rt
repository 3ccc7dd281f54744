ghost use Rattle.std.specs.Prelude.{◌≡◌, IfOk};
ghost use Rattle.pt_node.specs.Opening.{first_refusal};
ghost use Rattle.pt_node.specs.Attributes.{value_of, names_listed};
ghost use Rattle.pt_rules.specs.AttributeCalls.{
  chmod_checks,
  does_not_serve,
  is_no_time,
  set_xattr_checks,
  is_too_long,
  sized,
  times_checks,
};

use pt_host::{Bytes, Errno, HostSeat, HostValue, OpenFlags, TimeSet};
use pt_node::attributes::Attributes;
use pt_node::node::Node;
use pt_node::permission::owns;
use pt_node::slots::OpenFile;
use std::alloc::{AllocError, Global};

/// The longest name and the longest value of an extended attribute.
pub const XATTR_NAME_MAX: usize = 255;

pub const XATTR_VALUE_MAX: usize = 65_536;

/// `XATTR_CREATE`.
const CREATE: u32 = 1;

/// `XATTR_REPLACE`.
const REPLACE: u32 = 2;

/// Whether the descriptor only stands for its object and the call does not go through its link.
pub fn does_not_serve(file: OpenFile, through: bool) -> bool
    ensures { result ≡ does_not_serve file through }
{
    file.flags.includes(OpenFlags::O_PATH) && !through
}

pub fn chmod_refusal(seat: &HostSeat, file: OpenFile, node: &Node, through: bool) -> Option<Errno>
    ensures { result ≡ first_refusal (chmod_checks seat.now file node.now through) }
{
    if does_not_serve(file, through) {
        Some(Errno::EBADF)
    } else if node.is_link() {
        Some(Errno::EOPNOTSUPP)
    } else if !owns(seat, node) {
        Some(Errno::EPERM)
    } else {
        None
    }
}

fn is_no_time(time: TimeSet) -> bool
    ensures { result ≡ is_no_time time }
{
    match time {
        TimeSet::Omit | TimeSet::Now => false,
        TimeSet::At(time) => time.nsec > 999_999_999,
    }
}

pub fn times_refusal(
    seat: &HostSeat,
    file: OpenFile,
    node: &Node,
    through: bool,
    atime: TimeSet,
    mtime: TimeSet,
) -> Option<Errno>
    ensures { result ≡ first_refusal (times_checks seat.now file node.now through atime mtime) }
{
    if does_not_serve(file, through) {
        Some(Errno::EBADF)
    } else if is_no_time(atime) || is_no_time(mtime) {
        Some(Errno::EINVAL)
    } else if !owns(seat, node) {
        Some(Errno::EPERM)
    } else {
        None
    }
}

pub fn set_xattr_refusal(
    file: OpenFile,
    through: bool,
    name: &[u8],
    value: &[u8],
    flags: u32,
    xattrs: &Attributes,
) -> Option<Errno>
    ensures { result ≡ first_refusal
        (set_xattr_checks file through name.now value.now flags (value_of name.now xattrs.now)) }
{
    let there = xattrs.get(name).is_some();
    if does_not_serve(file, through) {
        Some(Errno::EBADF)
    } else if name.len() == 0 || name.len() > XATTR_NAME_MAX {
        Some(Errno::ERANGE)
    } else if value.len() > XATTR_VALUE_MAX {
        Some(Errno::E2BIG)
    } else if flags > REPLACE {
        Some(Errno::EINVAL)
    } else if flags == CREATE && there {
        Some(Errno::EEXIST)
    } else if flags == REPLACE && !there {
        Some(Errno::ENODATA)
    } else {
        None
    }
}

/// Whether there are more bytes than the size holds. A size of 0 asks for their number alone.
pub fn is_too_long(bytes: &[u8], size: u32) -> bool
    ensures { result ≡ is_too_long size bytes.now }
{
    size != 0 && bytes.len() > size as usize
}

/// The bytes, or how many there are where the size is 0.
pub fn sized(alloc: Global, bytes: &[u8], size: u32) -> Result<HostValue, AllocError>
    ensures { IfOk result (λ told. told ≡ sized size bytes.now) }
{
    if size == 0 {
        return Ok(HostValue::Count(bytes.len() as u64));
    }
    Ok(HostValue::Bytes(Bytes::from_slice(alloc, bytes)?))
}

/// The names one after another, each with a NUL at its end.
pub fn names_listed(alloc: Global, xattrs: &Attributes) -> Result<Vec<u8>, AllocError>
    ensures { IfOk result (λ names. names.items ≡ names_listed xattrs.now) }
{
    let mut names = Vec::new(alloc);
    for (name, _) in xattrs.kept.iter() {
        names.extend_from_slice(name)?;
        names.push(0)?;
    }
    Ok(names)
}
