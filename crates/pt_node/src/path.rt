ghost use Rattle.std.specs.Prelude.{
  ◌≡◌,
  ◌<◌,
  ◌∷◌,
  [],
  Ok,
  IfSome,
  length,
  option_map,
  slice_get,
  position,
  unwrap_or,
  ◌==◌,
};
ghost use Rattle.std.specs.Option.{option_copied};
ghost use Rattle.pt_node.specs.Node.{name_at, names_in};
ghost use Rattle.pt_node.specs.Names.{found};
ghost use Rattle.pt_node.specs.Paths.{
  from_here,
  from_root,
  led_on,
  names_at,
  object_below,
  object_named,
  parts,
  parts_after,
  seen_led,
  seen_walked,
  step_from,
  walk,
  walk_from,
  walk_root,
};

use crate::names::Names;
use crate::node::{Content, Node};
use pt_host::Errno;

fn first_slash(path: &[u8]) -> Option<usize>
    ensures { result ≡ position (λ byte. byte == 47) path.now }
{
    path.iter().position(|byte| *byte == b'/')
}

/// The first part of a path, and what stands after its slash.
pub fn cut(path: &[u8]) -> (&[u8], Option<&[u8]>)
    ensures parts { parts path.now ≡ result.0.now ∷ parts_after (option_copied result.1) }
    ensures shorter { IfSome result.1 (λ rest. length rest.now < length path.now) }
{
    match first_slash(path) {
        None => (path, None),
        Some(at) => (&path[..at], Some(&path[at + 1..])),
    }
}

impl Content {
    /// The names in it, where this is a directory.
    pub fn names(&self) -> Option<&Names>
        ensures { unwrap_or (option_copied result) [] ≡ names_in self.now }
    {
        match self {
            Content::Directory(names) => Some(names),
            Content::Regular(_) | Content::Link(_) | Content::Special(_) => None,
        }
    }

    /// The object that the name leads to, where this is a directory.
    pub fn lookup(&self, name: &[u8]) -> Option<usize>
        ensures { result ≡ found name.now (names_in self.now) }
    {
        match self {
            Content::Directory(names) => names.get(name),
            Content::Regular(_) | Content::Link(_) | Content::Special(_) => None,
        }
    }
}

/// The names of the directory at this place.
pub fn names_of(nodes: &[Node], dir: usize) -> Option<&Names>
    ensures { unwrap_or (option_copied result) [] ≡ names_at (slice_get nodes.now dir) }
{
    match &nodes.get(dir)?.content {
        Content::Directory(names) => Some(names),
        Content::Regular(_) | Content::Link(_) | Content::Special(_) => None,
    }
}

/// The object that the name leads to from the directory at this place.
pub fn name_at(nodes: &[Node], dir: usize, name: &[u8]) -> Option<usize>
    ensures { result ≡ name_at nodes.now dir name.now }
{
    match nodes.get(dir) {
        None => None,
        Some(node) => node.content.lookup(name),
    }
}

/// What a name leads to, with the object itself.
pub fn led_on(nodes: &[Node], object: Option<usize>) -> Option<(usize, &Node)>
    ensures { option_map seen_led result ≡ led_on nodes.now object }
{
    let object = object?;
    let node = nodes.get(object)?;
    Some((object, node))
}

/// On from an object by one part of a path.
pub fn step_from<'a>(
    nodes: &'a [Node],
    at: (usize, &'a Node),
    part: &[u8],
) -> Result<(usize, &'a Node), Errno>
    ensures { seen_walked result ≡ step_from nodes.now (seen_led at.entry) part.now }
{
    if part.is_empty() {
        return Ok(at);
    }
    if !at.1.is_directory() {
        return Err(Errno::ENOTDIR);
    }
    match led_on(nodes, at.1.content.lookup(part)) {
        None => Err(Errno::ENOENT),
        Some(next) => Ok(next),
    }
}

fn walk<'a>(
    nodes: &'a [Node],
    from: (usize, &'a Node),
    path: &[u8],
) -> Result<(usize, &'a Node), Errno>
    ensures { seen_walked result ≡ walk nodes.now (seen_led from.entry) (parts path.now) }
{
    let mut at = from;
    let mut left = path;
    loop {
        let (part, rest) = cut(left);
        at = step_from(nodes, at, part)?;
        match rest {
            None => return Ok(at),
            Some(rest) => left = rest,
        }
    }
}

/// Where a path begins that has to begin with a slash: at the root.
pub fn from_root<'a>(nodes: &'a [Node], path: &[u8]) -> Option<(usize, &'a Node)>
    ensures { option_map seen_led result ≡ from_root nodes.now path.now }
{
    let (first, _) = path.split_first()?;
    if *first == b'/' {
        led_on(nodes, Some(0))
    } else {
        None
    }
}

/// The object that a path leads to, which begins at the root with a slash.
pub fn walk_root<'a>(nodes: &'a [Node], path: &[u8]) -> Result<(usize, &'a Node), Errno>
    ensures { seen_walked result ≡ walk_root nodes.now path.now }
{
    match from_root(nodes, path) {
        None => Err(Errno::ENOENT),
        Some(root) => walk(nodes, root, path),
    }
}

/// Where any path begins: at the root with a slash, and else here.
fn from_here<'a>(
    nodes: &'a [Node],
    here: (usize, &'a Node),
    path: &[u8],
) -> Option<(usize, &'a Node)>
    ensures { option_map seen_led result ≡ from_here nodes.now (seen_led here.entry) path.now }
{
    let (first, _) = path.split_first()?;
    if *first == b'/' {
        led_on(nodes, Some(0))
    } else {
        Some(here)
    }
}

/// The object that a path leads to, from the root where it begins with a slash, and else from here.
pub fn walk_from<'a>(
    nodes: &'a [Node],
    here: (usize, &'a Node),
    path: &[u8],
) -> Result<(usize, &'a Node), Errno>
    ensures { seen_walked result ≡ walk_from nodes.now (seen_led here.entry) path.now }
{
    match from_here(nodes, here, path) {
        None => Err(Errno::ENOENT),
        Some(at) => walk(nodes, at, path),
    }
}

fn object_below(nodes: &[Node], path: &[u8]) -> Option<usize>
    ensures { result ≡ object_below nodes.now 0 (parts path.now) }
{
    let mut at = 0;
    let mut left = path;
    loop {
        let (part, rest) = cut(left);
        at = name_at(nodes, at, part)?;
        match rest {
            None => return Some(at),
            Some(rest) => left = rest,
        }
    }
}

/// What stands at the end of a path, which begins at the root with a slash.
pub fn object_named(nodes: &[Node], path: &[u8]) -> Option<usize>
    ensures { result ≡ object_named nodes.now path.now }
{
    match path.split_first() {
        None => None,
        Some((first, rest)) => {
            if *first != b'/' {
                None
            } else if rest.is_empty() {
                Some(0)
            } else {
                object_below(nodes, rest)
            }
        }
    }
}
