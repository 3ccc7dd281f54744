ghost use Rattle.std.specs.Prelude.{◌≡◌, OnOk, OnErr, Some, true, is_some, option_map, ◌<◌, None, Ok};
ghost use Rattle.pt_node.specs.Node.{name_at};
ghost use Rattle.pt_node.specs.Opening.{first_refusal};
ghost use Rattle.pt_node.specs.Paths.{seen_led};
ghost use Rattle.pt_rules.specs.NameCalls.{exchanged, linked};
ghost use Rattle.pt_node.specs.Entries.{
  changed_at,
  restamped,
  rewritten,
  touched,
  with_entry,
  without_entry,
};
ghost use Rattle.pt_node.specs.NewPlace.{seen_place};
ghost use Rattle.pt_rules.specs.Edits.{
  grown,
  holds_any,
  is_mounted,
  is_mounted_where,
  move_checks,
  moved,
  replace_checks,
  replaced,
  unlink_checks,
  unlinked,
  write_checks,
};

use pt_host::{Bytes, Errno, Time};
use pt_node::node::{Content, FILE_MAX, Node};
use pt_node::path::name_at;
use std::alloc::{AllocError, Global};

pub fn holds_any(node: &Node) -> bool
    ensures { result ≡ holds_any node.now }
{
    match &node.content {
        Content::Directory(names) => !names.is_empty(),
        Content::Regular(_) | Content::Link(_) | Content::Special(_) => false,
    }
}

/// Whether what stands under a name of this directory is the root of another mount.
pub fn is_mounted(dir: &Node, node: &Node) -> bool
    ensures { result ≡ is_mounted dir.now node.now }
{
    node.ids.mnt_id != dir.ids.mnt_id
}

/// The error for which the object is not unlinked from this directory, where there is one.
pub fn unlink_refusal(dir: &Node, node: &Node) -> Option<Errno>
    ensures { result ≡ first_refusal (unlink_checks dir.now node.now) }
{
    if is_mounted(dir, node) {
        Some(Errno::EBUSY)
    } else if holds_any(node) {
        Some(Errno::ENOTEMPTY)
    } else {
        None
    }
}

/// Whether what has the new name, if anything, is the root of another mount.
pub fn is_mounted_where(dir: &Node, target: Option<(usize, &Node)>) -> bool
    ensures { result ≡ is_mounted_where dir.now (option_map seen_led target.entry) }
{
    match target {
        None => false,
        Some((_, node)) => is_mounted(dir, node),
    }
}

/// The error for which the object is not moved from the one directory to the other.
pub fn move_refusal(
    into_itself: bool,
    from: &Node,
    to: &Node,
    node: &Node,
    target: Option<(usize, &Node)>,
) -> Option<Errno>
    ensures { result
        ≡ first_refusal (move_checks into_itself from.now to.now node.now (option_map seen_led target.entry)) }
{
    if from.ids.mnt_id != to.ids.mnt_id {
        Some(Errno::EXDEV)
    } else if is_mounted(from, node) || is_mounted_where(to, target) {
        Some(Errno::EBUSY)
    } else if into_itself {
        Some(Errno::EINVAL)
    } else {
        None
    }
}

/// The error for which the object does not take the place of the target.
pub fn replace_refusal(node: &Node, target: &Node) -> Option<Errno>
    ensures { result ≡ first_refusal (replace_checks node.now target.now) }
{
    if node.is_directory() && !target.is_directory() {
        Some(Errno::ENOTDIR)
    } else if !node.is_directory() && target.is_directory() {
        Some(Errno::EISDIR)
    } else if holds_any(target) {
        Some(Errno::ENOTEMPTY)
    } else {
        None
    }
}

/// The error for which the object does not get new contents of this size.
pub fn write_refusal(node: &Node, size: usize) -> Option<Errno>
    ensures { result ≡ first_refusal (write_checks node.now size) }
{
    if node.is_directory() {
        Some(Errno::EISDIR)
    } else if node.is_link() {
        Some(Errno::ELOOP)
    } else if node.is_special() {
        Some(Errno::ENXIO)
    } else if size > FILE_MAX {
        Some(Errno::EFBIG)
    } else {
        None
    }
}

fn restamp(nodes: &mut [Node], place: usize, now: Time)
    ensures { nodes.new ≡ changed_at place (restamped now) nodes.old }
{
    if place < nodes.len() {
        nodes[place].restamp(now);
    }
}

fn lose_entry(nodes: &mut [Node], dir: usize, name: &[u8], now: Time)
    ensures { nodes.new ≡ changed_at dir (λ at. touched now (without_entry name.now at)) nodes.old }
{
    if dir < nodes.len() {
        nodes[dir].lose_entry(name, now);
    }
}

/// The name in this directory leads to the object.
pub fn gain_entry(
    nodes: &mut [Node],
    dir: usize,
    name: Vec<u8>,
    object: usize,
    now: Time,
) -> Result<(), AllocError>
    ensures ok { OnOk result (nodes.new
        ≡ changed_at dir (λ at. touched now (with_entry name.items object at)) nodes.old) }
    ensures err { OnErr result (nodes.new ≡ nodes.old) }
{
    if dir < nodes.len() {
        return nodes[dir].gain_entry(name, object, now);
    }
    Ok(())
}

/// The file gets new contents.
pub fn rewrite(nodes: &mut [Node], object: usize, bytes: Bytes, now: Time)
    ensures { nodes.new ≡ changed_at object (rewritten now bytes) nodes.old }
{
    if object < nodes.len() {
        nodes[object].rewrite(bytes, now);
    }
}

/// The object loses this name.
pub fn unlink(nodes: &mut [Node], now: Time, dir: usize, name: &[u8], object: usize)
    ensures { nodes.new ≡ unlinked now dir name.now object nodes.old }
{
    lose_entry(nodes, dir, name, now);
    restamp(nodes, object, now);
}

fn lose_replaced(nodes: &mut [Node], target: Option<usize>, now: Time)
    ensures { nodes.new ≡ replaced now target nodes.old }
{
    if let Some(target) = target {
        restamp(nodes, target, now);
    }
}

/// The object gets the new name, in place of the target where there is one, and loses the old one.
pub fn rename(
    alloc: Global,
    nodes: &mut [Node],
    now: Time,
    from: (usize, &[u8]),
    to: (usize, &[u8]),
    object: usize,
    target: Option<usize>,
) -> Result<(), AllocError>
    ensures ok { OnOk result (nodes.new
        ≡ moved now (seen_place from.entry) (seen_place to.entry) object target nodes.old) }
    ensures err { OnErr result (nodes.new ≡ nodes.old) }
{
    let new = to.1.to_vec(alloc)?;
    gain_entry(nodes, to.0, new, object, now)?;
    lose_replaced(nodes, target, now);
    lose_entry(nodes, from.0, from.1, now);
    restamp(nodes, object, now);
    Ok(())
}

/// The name in this directory, which is there, leads to the object.
fn lead_entry(nodes: &mut [Node], dir: usize, name: &[u8], object: usize, now: Time)
    requires { is_some (name_at nodes.old dir name.now) ≡ true }
    ensures { nodes.new
        ≡ changed_at dir (λ at. touched now (with_entry name.now object at)) nodes.old }
{
    if dir < nodes.len() {
        nodes[dir].lead_entry(name, object, now);
    }
}

/// The object gets this name too.
pub fn link(
    nodes: &mut [Node],
    now: Time,
    dir: usize,
    name: Vec<u8>,
    object: usize,
) -> Result<(), AllocError>
    ensures ok { OnOk result (nodes.new ≡ linked now dir name.items object nodes.old) }
    ensures err { OnErr result (nodes.new ≡ nodes.old) }
{
    gain_entry(nodes, dir, name, object, now)?;
    restamp(nodes, object, now);
    Ok(())
}

/// The two objects, which have these names, get each other's.
pub fn exchange(
    nodes: &mut [Node],
    now: Time,
    from: (usize, &[u8]),
    to: (usize, &[u8]),
    object: usize,
    other: usize,
)
    requires there { name_at nodes.old from.0 from.1.now ≡ Some object }
    requires too { name_at nodes.old to.0 to.1.now ≡ Some other }
    ensures { nodes.new ≡ exchanged now (seen_place from.entry) (seen_place to.entry) object other nodes.old }
{
    lead_entry(nodes, to.0, to.1, object, now);
    lead_entry(nodes, from.0, from.1, other, now);
    restamp(nodes, object, now);
    restamp(nodes, other, now);
}

/// A new object at the end, to which the name in this directory leads.
pub fn add_node(
    nodes: &mut Vec<Node>,
    dir: usize,
    name: Vec<u8>,
    node: Node,
    now: Time,
) -> Result<(), AllocError>
    ensures ok { OnOk result (nodes.new.items ≡ grown now dir name.items node nodes.old.items) }
    ensures err { OnErr result (nodes.new.items ≡ nodes.old.items) }
{
    nodes.reserve(1)?;
    let object = nodes.len();
    gain_entry(nodes, dir, name, object, now)?;
    let _ = nodes.push(node);
    Ok(())
}
