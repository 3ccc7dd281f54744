ghost use Rattle.std.specs.Prelude.{◌≡◌};
ghost use Rattle.pt_node.specs.Opening.{
  after_opening,
  emptied,
  opening_refusal,
  permissions_after,
  wants_read,
  wants_write,
};

use crate::node::{Content, Node};
use crate::permission::{Right, may};
use pt_host::{Bytes, Caps, Errno, HostSeat, OpenFlags, Time};
use std::alloc::Global;

/// Whether the access mode lets read.
pub fn wants_read(flags: OpenFlags) -> bool
    ensures { result ≡ wants_read flags.0 }
{
    flags.0 % 4 == 0 || flags.0 % 4 == 2
}

/// Whether the access mode lets write.
pub fn wants_write(flags: OpenFlags) -> bool
    ensures { result ≡ wants_write flags.0 }
{
    flags.0 % 4 == 1 || flags.0 % 4 == 2
}

/// The error for which the object is not opened, where there is one.
pub fn opening_refusal(seat: &HostSeat, node: &Node, flags: OpenFlags) -> Option<Errno>
    ensures { result ≡ opening_refusal seat.now node.now flags.0 }
{
    let misses_directory = flags.includes(OpenFlags::O_DIRECTORY) && !node.is_directory();
    if flags.includes(OpenFlags::O_PATH) {
        return if misses_directory {
            Some(Errno::ENOTDIR)
        } else {
            None
        };
    }
    if flags.includes(OpenFlags::O_TMPFILE) {
        return Some(Errno::EOPNOTSUPP);
    }
    if flags.0 % 4 == 3 {
        return Some(Errno::EINVAL);
    }
    if node.is_link() {
        return Some(Errno::ELOOP);
    }
    if misses_directory {
        return Some(Errno::ENOTDIR);
    }
    if node.is_directory() && (wants_write(flags) || flags.includes(OpenFlags::O_TRUNC)) {
        return Some(Errno::EISDIR);
    }
    if node.is_special() {
        return Some(Errno::ENXIO);
    }
    if wants_read(flags) && !may(seat, node, Right::Read) {
        return Some(Errno::EACCES);
    }
    if wants_write(flags) && !may(seat, node, Right::Write) {
        return Some(Errno::EACCES);
    }
    None
}

/// The permissions of a file whose contents this seat changed.
pub fn permissions_after(seat: &HostSeat, permissions: u32) -> u32
    ensures { result ≡ permissions_after seat.now permissions }
{
    if seat.eff_caps.includes(Caps::FSETID) {
        return permissions;
    }
    let kept = if permissions & 0o4000 == 0o4000 {
        permissions.saturating_sub(0o4000)
    } else {
        permissions
    };
    if kept & 0o2010 == 0o2010 {
        kept.saturating_sub(0o2000)
    } else {
        kept
    }
}

fn empty(alloc: Global, seat: &HostSeat, now: Time, node: &mut Node)
    ensures { node.new ≡ emptied seat.now now node.old node.old.content }
{
    if let Content::Regular(_) = node.content {
        node.permissions = permissions_after(seat, node.permissions);
        node.mtime = now;
        node.ctime = now;
        node.content = Content::Regular(Bytes::new(alloc));
    }
}

/// What an opening does to its object: `O_TRUNC` empties a regular file.
pub fn apply_opening(alloc: Global, seat: &HostSeat, now: Time, flags: OpenFlags, node: &mut Node)
    ensures { node.new ≡ after_opening seat.now now flags.0 node.old }
{
    if flags.includes(OpenFlags::O_TRUNC) && !flags.includes(OpenFlags::O_PATH) {
        empty(alloc, seat, now, node);
    }
}
