ghost use Rattle.std.specs.Prelude.{◌≡◌};
ghost use Rattle.pt_node.specs.Reading.{part_of, read_refusal};

use crate::node::Node;
use crate::opening::wants_read;
use pt_host::{Errno, OpenFlags};

/// The error for which the object is not read by a descriptor of these flags, where there is one.
pub fn read_refusal(node: &Node, flags: OpenFlags) -> Option<Errno>
    ensures { result ≡ read_refusal node.now flags.0 }
{
    if flags.includes(OpenFlags::O_PATH) || !wants_read(flags) {
        Some(Errno::EBADF)
    } else if node.is_directory() {
        Some(Errno::EISDIR)
    } else {
        None
    }
}

/// The bytes from the offset on, up to the size or the end.
pub fn part_of(bytes: &[u8], offset: u64, size: u64) -> &[u8]
    ensures { result.now ≡ part_of offset size bytes.now }
{
    let start = bytes.len().min(offset as usize);
    let rest = &bytes[start..];
    let end = rest.len().min(size as usize);
    &rest[..end]
}
