ghost use Rattle.std.specs.Prelude.{◌≡◌, ◌<◌, IfSome, Some, is_some, length, option_map, slice_get, true};
ghost use Rattle.pt_node.specs.Slots.{open_at};
ghost use Rattle.pt_rules.specs.Calls.{open_on};
ghost use Rattle.pt_rules.specs.Finding.{seen_open};

use pt_host::Fd;
use pt_node::node::Node;
use pt_node::slots::{Descriptors, OpenFile};

/// What the descriptor is open on.
pub fn open_on<'a>(files: &Descriptors, nodes: &'a [Node], fd: Fd) -> Option<(OpenFile, &'a Node)>
    ensures found { option_map seen_open result ≡ open_on nodes.now (open_at files.now fd.0) }
    ensures within { IfSome result (λ at. at.0.object < length nodes.now) }
{
    let file = files.get(fd)?;
    let node = nodes.get(file.object)?;
    Some((file, node))
}

/// The object of this number, which is there.
pub fn node_at(nodes: &[Node], object: usize) -> &Node
    requires { is_some (slice_get nodes.now object) ≡ true }
    ensures { slice_get nodes.now object ≡ Some result.now }
{
    &nodes[object]
}
