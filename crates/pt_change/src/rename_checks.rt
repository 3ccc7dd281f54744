ghost use Rattle.std.specs.Prelude.{◌≡◌, ◌<◌, Some, None, true, option_map};
ghost use Rattle.pt_node.specs.Opening.{first_refusal};
ghost use Rattle.pt_node.specs.Paths.{seen_led};
ghost use Rattle.pt_rules.specs.NameCalls.{
  is_mount_moved,
  is_unwritable,
  moves_into_itself,
  rename_checks,
  rename_tests,
};

use crate::name_checks::{cannot_write, lies_in};
use crate::node_edits::{is_mounted, is_mounted_where};
use pt_host::{Errno, HostSeat};
use pt_node::node::Node;

/// `RENAME_NOREPLACE`.
const NOREPLACE: u32 = 1;

/// `RENAME_EXCHANGE`.
pub const EXCHANGE: u32 = 2;

/// Whether a directory would come to lie in itself: the one that is moved, or the other one by an exchange.
pub fn moves_into_itself(
    nodes: &[Node],
    from: usize,
    to: usize,
    object: usize,
    target: Option<(usize, &Node)>,
    flags: u32,
) -> bool
    ensures { result ≡ moves_into_itself nodes.now from to object (option_map seen_led target.entry) flags }
{
    if lies_in(nodes, object, to) {
        return true;
    }
    match target {
        Some((other, _)) => flags == EXCHANGE && lies_in(nodes, other, from),
        None => false,
    }
}

/// Whether this seat may not write one of the two directories.
fn is_unwritable(seat: &HostSeat, from: &Node, to: &Node) -> bool
    ensures { result ≡ is_unwritable seat.now from.now to.now }
{
    cannot_write(seat, from) || cannot_write(seat, to)
}

/// Whether one of the two objects is the root of another mount.
fn is_mount_moved(from: &Node, to: &Node, node: &Node, target: Option<(usize, &Node)>) -> bool
    ensures { result ≡ is_mount_moved from.now to.now node.now (option_map seen_led target.entry) }
{
    is_mounted(from, node) || is_mounted_where(to, target)
}

/// The error of the first of these tests that holds.
fn first_refusal(
    unwritable: bool,
    apart: bool,
    mounted: bool,
    into_itself: bool,
    target: Option<(usize, &Node)>,
    flags: u32,
) -> Option<Errno>
    ensures { result
        ≡ first_refusal (rename_tests unwritable apart mounted into_itself (option_map seen_led target.entry) flags) }
{
    if unwritable {
        Some(Errno::EACCES)
    } else if apart {
        Some(Errno::EXDEV)
    } else if flags == NOREPLACE && target.is_some() {
        Some(Errno::EEXIST)
    } else if flags == EXCHANGE && target.is_none() {
        Some(Errno::ENOENT)
    } else if mounted {
        Some(Errno::EBUSY)
    } else if into_itself {
        Some(Errno::EINVAL)
    } else {
        None
    }
}

/// The error for which no name is moved between these directories, up to where it is seen whether both names lead to
/// one object.
pub fn rename_refusal(
    into_itself: bool,
    seat: &HostSeat,
    from: &Node,
    to: &Node,
    node: &Node,
    target: Option<(usize, &Node)>,
    flags: u32,
) -> Option<Errno>
    ensures { result
        ≡ first_refusal (rename_checks into_itself seat.now from.now to.now node.now
        (option_map seen_led target.entry) flags) }
{
    let unwritable = is_unwritable(seat, from, to);
    let apart = from.ids.mnt_id != to.ids.mnt_id;
    let mounted = is_mount_moved(from, to, node, target);
    first_refusal(unwritable, apart, mounted, into_itself, target, flags)
}
