ghost use Rattle.std.specs.Prelude.{◌≡◌, None, OnOk, IfOk, fold};
ghost use Rattle.pt_rules.specs.OpeningCalls.{
  deleted_path,
  is_before,
  kept_path,
  least_path,
  lesser,
  lesser_where,
  paths_below,
  paths_to,
};

use pt_node::node::Node;
use pt_node::path::names_of;
use pt_text::{push_decimal, push_text};
use std::alloc::{AllocError, Global};

fn is_before(path: &[u8], other: &[u8]) -> bool
    ensures { result ≡ is_before path.now other.now }
{
    path.cmp(other).is_lt()
}

/// Keeps the path where it is less than the best one so far.
fn keep_lesser(alloc: Global, best: &mut Option<Vec<u8>>, path: &[u8]) -> Result<(), AllocError>
    ensures { OnOk result (kept_path best.new ≡ lesser (kept_path best.old) path.now) }
{
    let is_lesser = match best {
        None => true,
        Some(kept) => is_before(path, kept.as_slice()),
    };
    if is_lesser {
        *best = Some(path.to_vec(alloc)?);
    }
    Ok(())
}

/// The same of a path that may lead elsewhere.
fn keep_where(
    alloc: Global,
    best: &mut Option<Vec<u8>>,
    path: &[u8],
    leads: bool,
) -> Result<(), AllocError>
    ensures { OnOk result (kept_path best.new ≡ lesser_where leads (kept_path best.old) path.now) }
{
    if leads {
        keep_lesser(alloc, best, path)?;
    }
    Ok(())
}

/// Goes through the paths to the object from the directory at this place, down to a depth. The path is given back as it
/// was.
fn look_below(
    alloc: Global,
    best: &mut Option<Vec<u8>>,
    nodes: &[Node],
    depth: usize,
    path: &mut Vec<u8>,
    dir: usize,
    object: usize,
) -> Result<(), AllocError>
    ensures best { OnOk result (kept_path best.new
        ≡ fold lesser (kept_path best.old) (paths_below depth nodes.now path.old.items dir object)) }
    ensures path { OnOk result (path.new.items ≡ path.old.items) }
{
    if depth == 0 {
        return Ok(());
    }
    let Some(names) = names_of(nodes, dir) else {
        return Ok(());
    };
    let length = path.len();
    for (name, child) in names.kept.iter() {
        path.push(b'/')?;
        path.extend_from_slice(name)?;
        keep_where(alloc, best, path, *child == object)?;
        look_below(alloc, best, nodes, depth - 1, path, *child, object)?;
        path.truncate(length);
    }
    Ok(())
}

/// A slash, the object's serial and ` (deleted)`.
fn deleted_path(alloc: Global, node: &Node) -> Result<Vec<u8>, AllocError>
    ensures { IfOk result (λ path. path.items ≡ deleted_path node.now) }
{
    let mut path = Vec::new(alloc);
    push_text(&mut path, b"/")?;
    push_decimal(&mut path, node.serial)?;
    push_text(&mut path, b" (deleted)")?;
    Ok(path)
}

/// The least path of the object in byte order.
pub fn least_path(
    alloc: Global,
    nodes: &[Node],
    object: usize,
    node: &Node,
) -> Result<Vec<u8>, AllocError>
    ensures { IfOk result (λ path. path.items ≡ least_path node.now (paths_to nodes.now object)) }
{
    if object == 0 {
        return b"/".to_vec(alloc);
    }
    let mut best = None;
    let mut path = Vec::new(alloc);
    look_below(alloc, &mut best, nodes, nodes.len(), &mut path, 0, object)?;
    match best {
        Some(path) => Ok(path),
        None => deleted_path(alloc, node),
    }
}
