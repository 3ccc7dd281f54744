ghost use Rattle.std.specs.Prelude.{◌≡◌, ◌<◌, ◌++◌, OnOk, IfOk, IfErr, slice_get};
ghost use Rattle.std.specs.List.{flat_map};
ghost use Rattle.pt_store.specs.StoreState.{IsKeptBy};
ghost use Rattle.pt_tree.specs.Listing.{
  line_at,
  lines_below,
  listing_of,
  number_word,
  numbers_of,
  object_line,
  xattr_line,
};
ghost use Rattle.pt_tree.specs.declared.spec.SpecError.TheVariants.{Memory};

use crate::host::TreeHost;
use crate::spec::SpecError;
use pt_host::Bytes;
use pt_node::attributes::Attributes;
use pt_node::node::Node;
use pt_node::path::names_of;
use pt_store::store::Store;
use pt_text::{push_byte_word, push_decimal, push_text};
use std::alloc::{AllocError, Global};

fn push_numbers(out: &mut Vec<u8>, numbers: &[u64]) -> Result<(), AllocError>
    ensures { OnOk result (out.new.items ≡ out.old.items ++ flat_map number_word numbers.now) }
{
    for number in numbers {
        push_text(out, b" ")?;
        push_decimal(out, *number)?;
    }
    Ok(())
}

fn push_object_numbers(out: &mut Vec<u8>, links: u32, node: &Node) -> Result<(), AllocError>
    requires { node.now.permissions < 4096 }
    ensures { OnOk result (out.new.items ≡ out.old.items ++ flat_map number_word (numbers_of links node.now)) }
{
    let numbers = [
        node.ids.ino,
        node.ids.dev,
        node.ids.mnt_id,
        u64::from(node.mode()),
        u64::from(links),
        u64::from(node.uid),
        u64::from(node.gid),
        u64::from(node.rdev),
    ];
    push_numbers(out, &numbers)
}

fn push_object(out: &mut Vec<u8>, path: &[u8], links: u32, node: &Node) -> Result<(), AllocError>
    requires { node.now.permissions < 4096 }
    ensures { OnOk result (out.new.items ≡ out.old.items ++ object_line path.now links node.now) }
{
    push_text(out, b"obj ")?;
    push_byte_word(out, path)?;
    push_object_numbers(out, links, node)?;
    push_text(out, b" ")?;
    push_byte_word(out, node.content.bytes())?;
    push_text(out, b"\n")
}

fn push_xattr(out: &mut Vec<u8>, path: &[u8], name: &[u8], value: &[u8]) -> Result<(), AllocError>
    ensures { OnOk result (out.new.items ≡ out.old.items ++ xattr_line path.now (name.now, value.now)) }
{
    push_text(out, b"xattr ")?;
    push_byte_word(out, path)?;
    push_text(out, b" ")?;
    push_byte_word(out, name)?;
    push_text(out, b" ")?;
    push_byte_word(out, value)?;
    push_text(out, b"\n")
}

fn push_xattrs(out: &mut Vec<u8>, path: &[u8], xattrs: &Attributes) -> Result<(), AllocError>
    ensures { OnOk result (out.new.items ≡ out.old.items ++ flat_map (xattr_line path.now) xattrs.now) }
{
    for (name, value) in xattrs.kept.iter() {
        push_xattr(out, path, name, value.as_slice())?;
    }
    Ok(())
}

fn push_line_at(
    out: &mut Vec<u8>,
    path: &[u8],
    store: &Store,
    object: usize,
) -> Result<(), AllocError>
    requires { IsKeptBy store.now }
    ensures { OnOk result (out.new.items
        ≡ out.old.items ++ line_at store.now.nodes.items path.now object (slice_get store.now.nodes.items object)) }
{
    match store.nodes.get(object) {
        None => Ok(()),
        Some(node) => {
            let links = store.links_of(object, node);
            push_object(out, path, links, node)?;
            push_xattrs(out, path, &node.xattrs)?;
            Ok(())
        }
    }
}

/// The lines of what lies below the directory at this place, down to a depth. The path is given back as it was.
fn push_below(
    out: &mut Vec<u8>,
    store: &Store,
    depth: usize,
    path: &mut Vec<u8>,
    dir: usize,
) -> Result<(), AllocError>
    requires { IsKeptBy store.now }
    ensures lines { OnOk result (out.new.items
        ≡ out.old.items ++ lines_below depth store.now.nodes.items path.old.items dir) }
    ensures path { OnOk result (path.new.items ≡ path.old.items) }
{
    if depth == 0 {
        return Ok(());
    }
    let Some(names) = names_of(&store.nodes, dir) else {
        return Ok(());
    };
    let length = path.len();
    for (name, object) in names.kept.iter() {
        path.push(b'/')?;
        path.extend_from_slice(name)?;
        push_line_at(out, path, store, *object)?;
        push_below(out, store, depth - 1, path, *object)?;
        path.truncate(length);
    }
    Ok(())
}

impl TreeHost {
    /// A line for each object: `obj`, its path, inode number, device, mount, mode, number of links, owner, group,
    /// device of a special file, and what it holds; after it a line for each of its attributes: `xattr`, its path, a
    /// name and the value.
    pub fn listing(&self, alloc: Global) -> Result<Bytes, SpecError>
        ensures ok { IfOk result (λ bytes. bytes ≡ listing_of self.now) }
        ensures err { IfErr result (λ error. error ≡ Memory) }
    {
        let mut out = Vec::new(alloc);
        let mut path = Vec::new(alloc);
        push_line_at(&mut out, b"/", &self.store, 0)?;
        push_below(&mut out, &self.store, self.store.nodes.len(), &mut path, 0)?;
        Ok(Bytes::from_vec(out))
    }
}
