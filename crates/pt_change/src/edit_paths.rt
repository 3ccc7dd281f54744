ghost use Rattle.std.specs.Prelude.{◌≡◌, [], IfOk};
ghost use Rattle.pt_node.specs.Paths.{parts, seen_led};
ghost use Rattle.pt_rules.specs.EditPaths.{
  goes_through,
  judged,
  judged_from,
  last_refusal,
  past,
  path_goes_through,
  place_from,
  seen_judged,
  seen_site,
};
ghost use Rattle.pt_rules.specs.Finding.{IsPlaced};
ghost use Rattle.pt_rules.specs.Sound.{IsShort};

use pt_host::Errno;
use pt_node::names::NAME_MAX;
use pt_node::new_place::{has_nul, is_dots};
use pt_node::node::Node;
use pt_node::path::{cut, from_root, step_from};

/// A directory and a name in it; the empty name stands for the directory itself.
pub type Place<'a, 'b> = ((usize, &'a Node), &'b [u8]);

/// On from a place by one part of a path.
fn past<'a, 'b>(
    nodes: &'a [Node],
    at: Place<'a, 'b>,
    part: &'b [u8],
) -> Result<Place<'a, 'b>, Errno>
    ensures { seen_judged result ≡ past nodes.now (seen_site at.entry) part.now }
{
    if part.is_empty() {
        return Ok(at);
    }
    let dir = step_from(nodes, at.0, at.1)?;
    Ok((dir, part))
}

/// The place at which a path ends that begins at the root; no name where it ends there.
fn place_from<'a, 'b>(
    nodes: &'a [Node],
    root: (usize, &'a Node),
    path: &'b [u8],
) -> Result<Place<'a, 'b>, Errno>
    ensures { seen_judged result ≡ place_from nodes.now (seen_led root.entry, []) (parts path.now) }
{
    let mut at = (root, &path[..0]);
    let mut left = path;
    loop {
        let (part, rest) = cut(left);
        at = past(nodes, at, part)?;
        match rest {
            None => return Ok(at),
            Some(rest) => left = rest,
        }
    }
}

/// The error for which a path does not end at this name.
fn last_refusal(dir: &Node, name: &[u8]) -> Option<Errno>
    ensures { result ≡ last_refusal dir.now name.now }
{
    if !dir.is_directory() {
        Some(Errno::ENOTDIR)
    } else if name.len() > NAME_MAX {
        Some(Errno::ENAMETOOLONG)
    } else if is_dots(name) || has_nul(name) {
        Some(Errno::EINVAL)
    } else {
        None
    }
}

fn judged_from<'a, 'b>(
    nodes: &'a [Node],
    root: (usize, &'a Node),
    path: &'b [u8],
) -> Result<Place<'a, 'b>, Errno>
    ensures { seen_judged result ≡ judged_from nodes.now path.now (seen_led root.entry) }
{
    let place = place_from(nodes, root, path)?;
    match last_refusal(place.0.1, place.1) {
        Some(errno) => Err(errno),
        None => Ok(place),
    }
}

/// The place at the end of a path, which begins at the root with a slash.
pub fn judged<'a, 'b>(nodes: &'a [Node], path: &'b [u8]) -> Result<Place<'a, 'b>, Errno>
    ensures judged { seen_judged result ≡ judged nodes.now path.now }
    ensures placed { IfOk result (λ place. IsPlaced nodes.now (seen_site place)) }
    ensures named { IfOk result (λ place. IsShort place.1.now) }
{
    match from_root(nodes, path) {
        None => Err(Errno::ENOENT),
        Some(root) => judged_from(nodes, root, path),
    }
}

/// Whether the way to the last name goes through this object.
fn goes_through(nodes: &[Node], root: (usize, &Node), path: &[u8], object: usize) -> bool
    ensures { result ≡ goes_through object nodes.now (seen_led root.entry, []) (parts path.now) }
{
    let mut at = (root, &path[..0]);
    let mut left = path;
    loop {
        if at.0.0 == object {
            return true;
        }
        let (part, rest) = cut(left);
        match past(nodes, at, part) {
            Ok(next) => at = next,
            Err(_) => return false,
        }
        match rest {
            None => return at.0.0 == object,
            Some(rest) => left = rest,
        }
    }
}

/// The same of a path that begins at the root with a slash.
pub fn path_goes_through(nodes: &[Node], path: &[u8], object: usize) -> bool
    ensures { result ≡ path_goes_through object nodes.now path.now }
{
    match from_root(nodes, path) {
        None => false,
        Some(root) => goes_through(nodes, root, path, object),
    }
}
