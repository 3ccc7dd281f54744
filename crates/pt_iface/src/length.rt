ghost use Rattle.std.specs.Prelude.{◌≡◌, ◌+◌, length, sum_by};
ghost use Rattle.pt_iface.specs.Length.{entry_len, told, used_len};

use crate::answer::{Answer, GetxattrReply, ListxattrReply};
use crate::directory::DirEntry;
use pt_host::Bytes;

/// `struct fuse_out_header`, which each reply begins with.
const HEADER: u64 = 16;

/// `struct fuse_dirent` without its name.
const DIRENT: u64 = 24;

/// The header and these bytes.
fn with_bytes(bytes: &Bytes) -> u64
    ensures { result ≡ told (16 + length bytes.now) }
{
    HEADER.saturating_add(bytes.len() as u64)
}

/// A `struct fuse_dirent` with its name, filled up to a multiple of 8.
fn entry_len(entry: &DirEntry) -> u64
    ensures { result ≡ told (entry_len entry.now) }
{
    let bare = DIRENT.saturating_add(entry.name.len() as u64);
    bare.checked_next_multiple_of(8).unwrap_or(u64::MAX)
}

fn listing_len(entries: &[DirEntry]) -> u64
    ensures { result ≡ told (16 + sum_by entry_len entries.now) }
{
    let mut used = HEADER;
    for entry in entries {
        used = used.saturating_add(entry_len(entry));
    }
    used
}

/// How many bytes of the guest's buffer the reply takes. 0 where there is none.
pub fn used_len(answer: &Answer) -> u64
    ensures { result ≡ used_len answer.now }
{
    match answer {
        Answer::NoReply | Answer::Edited | Answer::EditRefused(_) | Answer::Cut => 0,
        Answer::Done | Answer::Refused(_) | Answer::NoMemory => HEADER,
        Answer::Inited(_) => HEADER + 64,
        Answer::Entry(_) => HEADER + 128,
        Answer::Opened(_, _) => HEADER + 16,
        Answer::Created(_, _, _) => HEADER + 128 + 16,
        Answer::Attr(_, _) => HEADER + 104,
        Answer::FsStat(_) => HEADER + 80,
        Answer::Wrote(_)
        | Answer::Offset(_)
        | Answer::Xattr(GetxattrReply::Count(_))
        | Answer::Xattrs(ListxattrReply::Count(_)) => HEADER + 8,
        Answer::Read(bytes)
        | Answer::Link(bytes)
        | Answer::Xattr(GetxattrReply::Value(bytes))
        | Answer::Xattrs(ListxattrReply::Names(bytes)) => with_bytes(bytes),
        Answer::Listing(entries) => listing_len(entries.as_slice()),
    }
}
