ghost use Rattle.std.specs.Prelude.{◌≡◌, ◌<◌, ◌^◌, Some, None, ℕ};
ghost use Rattle.pt_node.specs.Opening.{first_refusal};
ghost use Rattle.pt_node.specs.Node.{handle_bytes, handle_of};
ghost use Rattle.pt_rules.specs.OpeningCalls.{created_checks, creating_checks, handle_checks, same_handle};

use crate::name_checks::cannot_write;
use pt_host::{CFileHandle, Caps, Errno, HandleBytes, HostSeat, OpenFlags};
use pt_node::node::Node;
use pt_node::slots::OpenFile;

pub fn creating_refusal(flags: OpenFlags, there: Option<usize>) -> Option<Errno>
    ensures { result ≡ first_refusal (creating_checks flags.0 there) }
{
    if flags.includes(OpenFlags::O_PATH) || flags.includes(OpenFlags::O_DIRECTORY) {
        Some(Errno::EINVAL)
    } else if there.is_some() && flags.includes(OpenFlags::O_EXCL) {
        Some(Errno::EEXIST)
    } else {
        None
    }
}

pub fn created_refusal(seat: &HostSeat, dir: &Node, flags: OpenFlags) -> Option<Errno>
    ensures { result ≡ first_refusal (created_checks seat.now dir.now flags.0) }
{
    if cannot_write(seat, dir) {
        Some(Errno::EACCES)
    } else if flags.0 % 4 == 3 {
        Some(Errno::EINVAL)
    } else {
        None
    }
}

pub fn same_handle(one: &CFileHandle, other: &CFileHandle) -> bool
    ensures { result ≡ same_handle one.now other.now }
{
    one.handle_type() == other.handle_type() && one.as_bytes() == other.as_bytes()
}

/// The serial that a handle of 16 bytes tells.
pub fn serial_in(handle: &CFileHandle) -> Option<u64>
    ensures { (ino serial : ℕ) → serial < 2 ^ 64 → handle.now.bytes ≡ handle_bytes ino serial → result ≡ Some serial }
{
    match handle.as_bytes() {
        [_, _, _, _, _, _, _, _, a, b, c, d, e, f, g, h] => {
            Some(u64::from_le_bytes([*a, *b, *c, *d, *e, *f, *g, *h]))
        }
        _ => None,
    }
}

/// The error for which no object is opened by its handle on the mount of this descriptor's object.
pub fn handle_refusal(seat: &HostSeat, file: OpenFile) -> Option<Errno>
    ensures { result ≡ first_refusal (handle_checks seat.now file) }
{
    if file.flags.includes(OpenFlags::O_PATH) {
        Some(Errno::EBADF)
    } else if !seat.eff_caps.includes(Caps::DAC_READ_SEARCH) {
        Some(Errno::EPERM)
    } else {
        None
    }
}

/// The inode number and the serial, both in 8 bytes, the least first.
pub fn handle_of(node: &Node) -> CFileHandle
    ensures { result ≡ handle_of node.now }
{
    let mut told = [0; 16];
    told[..8].copy_from_slice(&node.ids.ino.to_le_bytes());
    told[8..].copy_from_slice(&node.serial.to_le_bytes());
    let Some(bytes) = HandleBytes::from_slice(&told) else {
        return CFileHandle::default();
    };
    CFileHandle {
        handle_type: 1,
        bytes,
    }
}
