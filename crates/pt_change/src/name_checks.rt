ghost use Rattle.std.specs.Prelude.{◌≡◌, ◌<◌};
ghost use Rattle.pt_node.specs.Opening.{first_refusal};
ghost use Rattle.pt_rules.specs.NameCalls.{
  cannot_write,
  content_of_kind,
  is_device,
  kind_bits,
  lies_below,
  lies_in,
  link_checks,
  make_checks,
  masked,
  node_checks,
  remove_checks,
  special_kind,
  symlink_checks,
  take_checks,
};
ghost use Rattle.pt_rules.specs.Calls.{name_refusal};

use crate::node_edits::{holds_any, is_mounted};
use pt_host::{Bytes, Caps, Errno, HostSeat};
use pt_node::names::NAME_MAX;
use pt_node::node::{Content, Node, SpecialKind};
use pt_node::path::names_of;
use pt_node::permission::{Right, may};
use std::alloc::Global;

/// The most bytes of a symbolic link's target.
pub const TARGET_MAX: usize = 4095;

pub fn cannot_write(seat: &HostSeat, dir: &Node) -> bool
    ensures { result ≡ cannot_write seat.now dir.now }
{
    !may(seat, dir, Right::Write)
}

/// The error for which no object is made under this name, where there is one.
pub fn make_refusal(seat: &HostSeat, dir: &Node, name: &[u8]) -> Option<Errno>
    ensures { result ≡ first_refusal (make_checks seat.now dir.now name.now) }
{
    if dir.content.lookup(name).is_some() {
        Some(Errno::EEXIST)
    } else if cannot_write(seat, dir) {
        Some(Errno::EACCES)
    } else {
        None
    }
}

/// The permissions of a mode, without those of the umask.
pub fn masked(seat: &HostSeat, mode: u32) -> u32
    ensures masked { result ≡ masked seat.now mode }
    ensures small { result < 4096 }
{
    mode % 4096 & !seat.umask
}

/// The kind bits of a mode.
pub fn kind_bits(mode: u32) -> u32
    ensures { result ≡ kind_bits mode }
{
    mode / 4096 % 16
}

fn is_device(kind: u32) -> bool
    ensures { result ≡ is_device kind }
{
    kind == 2 || kind == 6
}

/// The kind of a node that stands for something else, by its bits.
pub fn special_kind(kind: u32) -> Option<SpecialKind>
    ensures { result ≡ special_kind kind }
{
    match kind {
        1 => Some(SpecialKind::Pipe),
        2 => Some(SpecialKind::CharDevice),
        6 => Some(SpecialKind::BlockDevice),
        12 => Some(SpecialKind::Socket),
        _ => None,
    }
}

/// What a node of these kind bits holds.
pub fn content_of_kind(alloc: Global, kind: u32) -> Option<Content>
    ensures { result ≡ content_of_kind kind }
{
    if kind == 0 || kind == 8 {
        return Some(Content::Regular(Bytes::new(alloc)));
    }
    match special_kind(kind) {
        None => None,
        Some(special) => Some(Content::Special(special)),
    }
}

/// The error for which no node of this kind is made under this name.
pub fn node_refusal(seat: &HostSeat, dir: &Node, name: &[u8], kind: u32) -> Option<Errno>
    ensures { result ≡ first_refusal (node_checks seat.now dir.now name.now kind) }
{
    if dir.content.lookup(name).is_some() {
        Some(Errno::EEXIST)
    } else if cannot_write(seat, dir) {
        Some(Errno::EACCES)
    } else if is_device(kind) && !seat.eff_caps.includes(Caps::MKNOD) {
        Some(Errno::EPERM)
    } else {
        None
    }
}

/// The error for which no symbolic link to this target is made under this name.
pub fn symlink_refusal(seat: &HostSeat, dir: &Node, name: &[u8], target: &[u8]) -> Option<Errno>
    ensures { result ≡ first_refusal (symlink_checks seat.now dir.now name.now target.now) }
{
    if target.len() == 0 {
        Some(Errno::ENOENT)
    } else if target.len() > TARGET_MAX {
        Some(Errno::ENAMETOOLONG)
    } else if dir.content.lookup(name).is_some() {
        Some(Errno::EEXIST)
    } else if cannot_write(seat, dir) {
        Some(Errno::EACCES)
    } else {
        None
    }
}

/// The error for which the object does not get this name.
pub fn link_refusal(
    seat: &HostSeat,
    links: u32,
    node: &Node,
    dir: &Node,
    name: &[u8],
) -> Option<Errno>
    ensures { result ≡ first_refusal (link_checks seat.now links node.now dir.now name.now) }
{
    if node.is_directory() {
        Some(Errno::EPERM)
    } else if node.ids.mnt_id != dir.ids.mnt_id {
        Some(Errno::EXDEV)
    } else if links == 0 {
        Some(Errno::ENOENT)
    } else if dir.content.lookup(name).is_some() {
        Some(Errno::EEXIST)
    } else if cannot_write(seat, dir) {
        Some(Errno::EACCES)
    } else {
        None
    }
}

/// The error for which the object does not lose its name in this directory.
pub fn take_refusal(seat: &HostSeat, dir: &Node, node: &Node) -> Option<Errno>
    ensures { result ≡ first_refusal (take_checks seat.now dir.now node.now) }
{
    if cannot_write(seat, dir) {
        Some(Errno::EACCES)
    } else if node.is_directory() {
        Some(Errno::EISDIR)
    } else {
        None
    }
}

/// The error for which the directory is not removed from this one.
pub fn remove_refusal(seat: &HostSeat, dir: &Node, node: &Node) -> Option<Errno>
    ensures { result ≡ first_refusal (remove_checks seat.now dir.now node.now) }
{
    if cannot_write(seat, dir) {
        Some(Errno::EACCES)
    } else if !node.is_directory() {
        Some(Errno::ENOTDIR)
    } else if is_mounted(dir, node) {
        Some(Errno::EBUSY)
    } else if holds_any(node) {
        Some(Errno::ENOTEMPTY)
    } else {
        None
    }
}

/// Whether the directory is the object or lies below it, down to a depth.
fn lies_below(depth: usize, nodes: &[Node], object: usize, dir: usize) -> bool
    ensures { result ≡ lies_below depth nodes.now object dir }
{
    if object == dir {
        return true;
    }
    if depth == 0 {
        return false;
    }
    let Some(names) = names_of(nodes, object) else {
        return false;
    };
    for (_, child) in names.kept.iter() {
        if lies_below(depth - 1, nodes, *child, dir) {
            return true;
        }
    }
    false
}

/// Whether the directory is the object or lies in it.
pub fn lies_in(nodes: &[Node], object: usize, dir: usize) -> bool
    ensures { result ≡ lies_in nodes.now object dir }
{
    lies_below(nodes.len(), nodes, object, dir)
}

/// The error for which no call on this name in the directory is answered, where there is one.
pub fn name_refusal(seat: &HostSeat, dir: &Node, name: &[u8]) -> Option<Errno>
    ensures { result ≡ name_refusal seat.now dir.now name.now }
{
    if !dir.is_directory() {
        Some(Errno::ENOTDIR)
    } else if name.len() > NAME_MAX {
        Some(Errno::ENAMETOOLONG)
    } else if !may(seat, dir, Right::Search) {
        Some(Errno::EACCES)
    } else {
        None
    }
}
