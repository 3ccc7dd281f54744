ghost use Rattle.std.specs.Prelude.{◌≡◌, ◌+◌, ℕ, List, min};
ghost use Rattle.pt_node.specs.Entries.{is_directory_at};
ghost use Rattle.pt_node.specs.Limits.{links_max};
ghost use Rattle.pt_node.specs.Links.{directories_in, links_of, names_of};
ghost use Rattle.pt_node.specs.Node.{names_in};
ghost use Rattle.pt_node.specs.declared.node.Node.{Node};

use crate::node::{Content, Node};

pub fn is_directory_at(nodes: &[Node], place: usize) -> bool
    ensures { result ≡ is_directory_at nodes.now place }
{
    match nodes.get(place) {
        None => false,
        Some(node) => node.is_directory(),
    }
}

/// A count of links, which stands still where its type ends.
fn counted(links: usize) -> u32
    ensures { result ≡ min links links_max }
{
    u32::try_from(links).unwrap_or(u32::MAX)
}

/// The links of an object that has so many names, and in which there are so many directories.
pub fn links_of(node: &Node, names: usize, directories: usize) -> u32
    ensures { (nodes : List Node) (object : ℕ) →
        names ≡ names_of nodes object →
        directories ≡ directories_in nodes (names_in node.now.content) →
        result ≡ links_of nodes object node.now }
{
    match &node.content {
        Content::Directory(_) => counted(directories.saturating_add(2)),
        Content::Regular(_) | Content::Link(_) | Content::Special(_) => counted(names),
    }
}
