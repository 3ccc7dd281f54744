ghost use Rattle.std.specs.Prelude.{◌≡◌, slice_get, option_map};
ghost use Rattle.pt_node.specs.Paths.{parts};
ghost use Rattle.pt_node.specs.NewPlace.{
  has_nul,
  is_dots,
  is_good_name,
  place_in,
  place_of,
  seen_place,
  takes_name,
};

use crate::names::NAME_MAX;
use crate::node::Node;
use crate::path::{cut, name_at};

pub fn has_nul(name: &[u8]) -> bool
    ensures { result ≡ has_nul name.now }
{
    name.iter().any(|byte| *byte == 0)
}

pub fn is_dots(name: &[u8]) -> bool
    ensures { result ≡ is_dots name.now }
{
    name == b".".as_slice() || name == b"..".as_slice()
}

/// Whether a part of a path may stand as a name.
fn is_good_name(name: &[u8]) -> bool
    ensures { result ≡ is_good_name name.now }
{
    !name.is_empty() && !is_dots(name) && !has_nul(name) && name.len() <= NAME_MAX
}

/// Whether this is a directory that does not have the name yet.
fn takes_name(nodes: &[Node], dir: usize, name: &[u8]) -> bool
    ensures { result ≡ takes_name name.now (slice_get nodes.now dir) }
{
    match nodes.get(dir) {
        None => false,
        Some(node) => node.is_directory() && node.content.lookup(name).is_none(),
    }
}

fn place_in<'a>(nodes: &[Node], path: &'a [u8]) -> Option<(usize, &'a [u8])>
    ensures { option_map seen_place result ≡ place_in nodes.now 0 (parts path.now) }
{
    let mut dir = 0;
    let mut left = path;
    loop {
        let (name, rest) = cut(left);
        if !is_good_name(name) {
            return None;
        }
        let Some(rest) = rest else {
            return if takes_name(nodes, dir, name) {
                Some((dir, name))
            } else {
                None
            };
        };
        match name_at(nodes, dir, name) {
            None => return None,
            Some(child) => {
                dir = child;
                left = rest;
            }
        }
    }
}

/// The directory and the new name in it that a path leads to.
pub fn place_of<'a>(nodes: &[Node], path: &'a [u8]) -> Option<(usize, &'a [u8])>
    ensures { option_map seen_place result ≡ place_of nodes.now path.now }
{
    match path.split_first() {
        None => None,
        Some((first, rest)) => {
            if *first == b'/' {
                place_in(nodes, rest)
            } else {
                None
            }
        }
    }
}
