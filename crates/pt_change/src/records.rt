ghost use Rattle.std.specs.Prelude.{◌≡◌, ◌++◌, IfOk, IfSome, OnOk, Some, option_map, slice_get};
ghost use Rattle.std.specs.Int.{to_le_bytes, w16};
ghost use Rattle.pt_node.specs.Node.{kind_number, names_in};
ghost use Rattle.pt_node.specs.Opening.{first_refusal};
ghost use Rattle.pt_rules.specs.ListCalls.{
  does_not_fit,
  list_checks,
  names_from,
  record_at,
  record_head,
  record_of,
  record_size,
  records,
};

use crate::contents::{is_path_only, push_zeros};
use pt_host::Errno;
use pt_node::node::Node;
use pt_node::slots::OpenFile;
use std::alloc::{AllocError, Global};

/// How long the record of a name is.
fn record_size(name: &[u8]) -> usize
    ensures { result ≡ record_size name.now }
{
    (name.len() + 20).next_multiple_of(8)
}

/// The lower 16 bits of a record's length.
fn size_bytes(size: usize) -> [u8; 2]
    ensures { result ≡ to_le_bytes w16 size }
{
    let low = (size % 65_536) as u16;
    low.to_le_bytes()
}

fn kind_byte(node: &Node) -> u8
    ensures { result ≡ kind_number node.now.content }
{
    node.content.kind_number() as u8
}

/// Inode number, the offset of the next record, the record's length and its kind.
fn push_head(out: &mut Vec<u8>, next: u64, size: usize, node: &Node) -> Result<(), AllocError>
    ensures { OnOk result (out.new.items ≡ out.old.items ++ record_head next size node.now) }
{
    out.extend_from_slice(&node.ids.ino.to_le_bytes())?;
    out.extend_from_slice(&next.to_le_bytes())?;
    out.extend_from_slice(&size_bytes(size))?;
    out.push(kind_byte(node))?;
    Ok(())
}

/// The head of the record, the name, a NUL and zeros up to a multiple of 8.
fn push_record(out: &mut Vec<u8>, next: u64, name: &[u8], node: &Node) -> Result<(), AllocError>
    ensures { OnOk result (out.new.items ≡ out.old.items ++ record_of next name.now node.now) }
{
    let size = record_size(name);
    push_head(out, next, size, node)?;
    out.extend_from_slice(name)?;
    push_zeros(out, size - name.len() - 19)
}

fn push_record_at(
    out: &mut Vec<u8>,
    next: u64,
    name: &[u8],
    nodes: &[Node],
    object: usize,
) -> Result<(), AllocError>
    ensures { OnOk result (out.new.items ≡ out.old.items ++ record_at next name.now (slice_get nodes.now object)) }
{
    match nodes.get(object) {
        None => Ok(()),
        Some(node) => push_record(out, next, name, node),
    }
}

/// Records from a place on, as many as fit in the size.
#[derive(Drop)]
pub struct Listed {
    pub bytes: Vec<u8>,
    /// The place after the last one.
    pub place: u64,
    /// The name that stands there, where its record did not fit.
    pub next: Option<Vec<u8>>,
}

#[tactic(auto, using(crate::proofs::Listed::record_fits))]
pub fn records_from(
    alloc: Global,
    nodes: &[Node],
    dir: &Node,
    start: u64,
    size: u32,
) -> Result<Listed, AllocError>
    ensures records { IfOk result (λ listed. (listed.bytes.items, listed.place)
        ≡ records size start nodes.now (names_from start dir.now)) }
    ensures next { IfOk result (λ listed. IfSome listed.next (λ name.
        option_map (λ entry. entry.0) (slice_get (names_in dir.now.content) listed.place) ≡ Some name.items)) }
{
    let mut listed = Listed {
        bytes: Vec::new(alloc),
        place: start,
        next: None,
    };
    let Some(rest) = dir.content.names_from(start as usize) else {
        return Ok(listed);
    };
    let mut left = size as usize;
    for (name, object) in rest {
        let record = record_size(name);
        if record > left {
            listed.next = Some(name.to_vec(alloc)?);
            return Ok(listed);
        }
        left -= record;
        listed.place += 1;
        push_record_at(&mut listed.bytes, listed.place, name, nodes, *object)?;
    }
    Ok(listed)
}

/// Whether there is a next record and it does not fit.
fn does_not_fit(dir: &Node, start: u64, size: u32) -> bool
    ensures { result ≡ does_not_fit size (names_from start dir.now) }
{
    let Some(mut rest) = dir.content.names_from(start as usize) else {
        return false;
    };
    match rest.next() {
        None => false,
        Some((name, _)) => record_size(name) > size as usize,
    }
}

pub fn list_refusal(file: OpenFile, node: &Node, start: u64, size: u32) -> Option<Errno>
    ensures { result ≡ first_refusal (list_checks file node.now start size) }
{
    if is_path_only(file) {
        Some(Errno::EBADF)
    } else if !node.is_directory() {
        Some(Errno::ENOTDIR)
    } else if does_not_fit(node, start, size) {
        Some(Errno::EINVAL)
    } else {
        None
    }
}
