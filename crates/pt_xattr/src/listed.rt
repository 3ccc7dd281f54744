//! What the guest is told of names of extended attributes, and of the entries of a directory.

ghost use Rattle.std.specs.Prelude.{◌≡◌, ◌++◌, true, IfOk, OnOk, [], map};
ghost use Rattle.pt_handles.specs.Dirents.{is_listing};
ghost use Rattle.pt_xattr.specs.Given.{GivesEntry};
ghost use Rattle.pt_xattr.specs.Listed.{by_server, entries_in, entry_told, if_unblocked, names_told, unblocked};

use pt_handles::{DirectoryIterator, ReadDir};
use pt_host::Bytes;
use pt_iface::{DirEntries, DirEntry};
use pt_maps::{MapError, XattrMap, names_of_list};
use pt_req::{Plan, is_blocked};
use pt_session::Negotiated;
use std::alloc::{AllocError, Global};

/// Puts a name and its end behind others, unless it is blocked.
fn push_unblocked(kept: &mut Vec<u8>, agreed: Negotiated, name: &[u8]) -> Result<(), AllocError>
    ensures { OnOk result (kept.new.items ≡ kept.old.items ++ if_unblocked agreed name.now) }
{
    if is_blocked(agreed, name) {
        return Ok(());
    }
    kept.extend_from_slice(name)?;
    kept.push(0)?;
    Ok(())
}

/// The names of a list that are not blocked, each with its end.
fn unblocked(alloc: Global, agreed: Negotiated, list: &[u8]) -> Result<Bytes, AllocError>
    ensures { IfOk result (λ names. names ≡ unblocked agreed list.now) }
{
    let mut kept = Vec::new(alloc);
    let names = names_of_list(alloc, list)?;
    for name in &names {
        push_unblocked(&mut kept, agreed, name)?;
    }
    Ok(Bytes::from_vec(kept))
}

/// Names that the host lists, by the guest's names.
fn by_server(alloc: Global, map: &Option<XattrMap>, list: &[u8]) -> Result<Bytes, AllocError>
    ensures { IfOk result (λ names. names ≡ by_server map.now list.now) }
{
    let Some(map) = map else {
        return Bytes::from_slice(alloc, list);
    };
    match map.map_server_xattrlist(list) {
        Ok(names) => Ok(names),
        Err(MapError::Memory) => Err(AllocError),
        Err(_) => Ok(Bytes::new(alloc)),
    }
}

/// The names that the guest is told of such a list.
pub fn names_told(plan: &Plan, agreed: Negotiated, list: &[u8]) -> Result<Bytes, AllocError>
    ensures { IfOk result (λ names. names ≡ names_told plan.now agreed list.now) }
{
    let alloc = plan.uid_map.allocator();
    let names = by_server(alloc, &plan.config.xattrmap, list)?;
    unblocked(alloc, agreed, names.as_slice())
}

/// No entries, which takes no memory.
pub fn no_entries(plan: &Plan) -> DirEntries
    ensures { result ≡ [] }
{
    DirEntries::from_vec(Vec::new(plan.uid_map.allocator()))
}

/// The next entry of a listing, with a name of its own.
fn next_entry(alloc: Global, reader: &mut ReadDir) -> Result<Option<DirEntry>, AllocError>
    ensures { IfOk result (λ given. GivesEntry reader.old given reader.new) }
{
    match reader.next() {
        None => Ok(None),
        Some(entry) => Ok(Some(DirEntry {
            ino: entry.ino,
            offset: entry.offset,
            kind: entry.kind,
            name: Bytes::from_slice(alloc, entry.name)?,
        })),
    }
}

/// The entries that are left.
fn rest_of(alloc: Global, reader: ReadDir) -> Result<DirEntries, AllocError>
    ensures { IfOk result (λ entries. entries ≡ map entry_told reader) }
{
    let mut reader = reader;
    let mut entries = Vec::new(alloc);
    while let Some(entry) = next_entry(alloc, &mut reader)? {
        entries.push(entry)?;
    }
    Ok(DirEntries::from_vec(entries))
}

/// The entries of a listing.
pub fn entries_in(plan: &Plan, bytes: &Bytes) -> Result<DirEntries, AllocError>
    requires { is_listing bytes.now ≡ true }
    ensures { IfOk result (λ entries. entries ≡ entries_in bytes.now) }
{
    let alloc = plan.uid_map.allocator();
    match ReadDir::from_bytes(bytes.copy(alloc)?) {
        Ok(reader) => rest_of(alloc, reader),
        Err(_) => unreachable!(),
    }
}
