ghost use Rattle.std.specs.Prelude.{◌≡◌, ◌==◌, ◌||◌};
ghost use Rattle.std.specs.List.{list_any};
ghost use Rattle.pt_node.specs.Permission.{bit_of, class_bits, overrides, may, owns};

use crate::node::Node;
use pt_host::{Caps, HostSeat};

/// What a seat may be granted on an object.
#[derive(Clone, Copy)]
pub enum Right {
    Read,
    Write,
    /// To look a name up in a directory.
    Search,
}

impl Right {
    fn bit(self) -> u32
        ensures { result ≡ bit_of self }
    {
        match self {
            Right::Read => 4,
            Right::Write => 2,
            Right::Search => 1,
        }
    }

    fn is_overridden(self, caps: Caps) -> bool
        ensures { result ≡ overrides caps.0 self }
    {
        match self {
            Right::Write => caps.includes(Caps::DAC_OVERRIDE),
            Right::Read | Right::Search => {
                caps.includes(Caps::DAC_OVERRIDE) || caps.includes(Caps::DAC_READ_SEARCH)
            }
        }
    }
}

fn has_group(groups: &[u32], gid: u32) -> bool
    ensures { result ≡ list_any (λ group. group == gid) groups.now }
{
    groups.iter().any(|group| *group == gid)
}

fn is_member(seat: &HostSeat, gid: u32) -> bool
    ensures { result ≡ ((seat.now.eff_gid == gid) || list_any (λ group. group == gid) seat.now.groups) }
{
    seat.eff_gid == gid || has_group(seat.groups.as_slice(), gid)
}

fn class_bits(seat: &HostSeat, node: &Node) -> u32
    ensures { result ≡ class_bits seat.now node.now }
{
    if seat.eff_uid == node.uid {
        node.permissions / 64
    } else if is_member(seat, node.gid) {
        node.permissions / 8
    } else {
        node.permissions
    }
}

/// Whether the mode or a capability grants it.
pub fn may(seat: &HostSeat, node: &Node, right: Right) -> bool
    ensures { result ≡ may seat.now node.now right }
{
    let bit = right.bit();
    right.is_overridden(seat.eff_caps) || class_bits(seat, node) & bit == bit
}

/// Whether the seat has the owner's rights on the object's status.
pub fn owns(seat: &HostSeat, node: &Node) -> bool
    ensures { result ≡ owns seat.now node.now }
{
    seat.eff_uid == node.uid || seat.eff_caps.includes(Caps::FOWNER)
}
