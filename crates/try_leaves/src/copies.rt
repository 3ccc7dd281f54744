//! Handles, groups, bytes, edits and replies, made and copied with ample memory.

use pt_host::{
    Bytes, CFileHandle, Edit, Errno, Fd, FileHandle, FsStat, HandleBytes, HostReply, HostValue,
};
use pt_iface::ForgetList;
use std::alloc::{AllocError, Global};

/// A handle of so many bytes, copied, and the default one, which is room for any.
fn handle(alloc: Global, length: &str) -> Result<String, AllocError> {
    let length = length.parse::<u32>().unwrap_or(0) as usize;
    let bytes = vec![in alloc; 7; length]?;
    let Some(bytes) = HandleBytes::from_slice(bytes.as_slice()) else {
        return String::from_str(alloc, "None");
    };
    let handle = FileHandle {
        mnt_id: 1,
        handle: CFileHandle {
            handle_type: 1,
            bytes,
        },
    };
    let copy = handle.copy();
    let empty = CFileHandle::default();
    let (told, rest) = (copy.handle.as_bytes(), empty.as_bytes());
    format!(in alloc;
        "{} {} {} {told:?}, {} {}",
        copy.mnt_id,
        copy.handle.handle_type(),
        told.len(),
        empty.handle_type(),
        rest.len()
    )
}

fn reply_of(alloc: Global, words: &[&str]) -> Result<HostReply, AllocError> {
    let number = match words {
        [_, number] => number.parse::<u32>().unwrap_or(0),
        _ => 0,
    };
    Ok(match words {
        ["Unit"] => HostReply::Ok(HostValue::Unit),
        ["Fd", _] => HostReply::Ok(HostValue::Fd(Fd(number))),
        ["Count", _] => HostReply::Ok(HostValue::Count(u64::from(number))),
        ["Bytes", word] => {
            HostReply::Ok(HostValue::Bytes(Bytes::from_slice(alloc, word.as_bytes())?))
        }
        ["FsStat"] => HostReply::Ok(HostValue::FsStat(FsStat {
            blocks: 1,
            bfree: 2,
            bavail: 3,
            files: 4,
            ffree: 5,
            bsize: 6,
            namelen: 7,
            frsize: 8,
        })),
        ["Refused", _] => HostReply::Refused(Errno((number % 134) as i32)),
        ["Fault", _] => HostReply::Fault(Errno((number % 134) as i32)),
        _ => HostReply::NoMemory,
    })
}

fn edit_of(alloc: Global, words: &[&str]) -> Result<Option<Edit>, AllocError> {
    Ok(match words {
        ["Unlink", path] => Some(Edit::Unlink {
            path: Bytes::from_slice(alloc, path.as_bytes())?,
        }),
        ["Rename", old, new] => Some(Edit::Rename {
            old: Bytes::from_slice(alloc, old.as_bytes())?,
            new: Bytes::from_slice(alloc, new.as_bytes())?,
        }),
        ["File", path, bytes] => Some(Edit::File {
            path: Bytes::from_slice(alloc, path.as_bytes())?,
            mode: 1,
            uid: 2,
            gid: 3,
            bytes: Bytes::from_slice(alloc, bytes.as_bytes())?,
        }),
        ["Dir", path] => Some(Edit::Dir {
            path: Bytes::from_slice(alloc, path.as_bytes())?,
            mode: 1,
            uid: 2,
            gid: 3,
        }),
        ["Write", path, bytes] => Some(Edit::Write {
            path: Bytes::from_slice(alloc, path.as_bytes())?,
            bytes: Bytes::from_slice(alloc, bytes.as_bytes())?,
        }),
        _ => None,
    })
}

/// The bytes copied, whether the copy is the same, whether another is, and its length.
fn bytes(alloc: Global, word: &str) -> Result<String, AllocError> {
    let bytes = Bytes::from_vec(word.as_bytes().to_vec(alloc)?);
    let copy = bytes.copy(alloc)?;
    let (same, empty) = (copy == bytes, copy == Bytes::new(alloc));
    let (length, is_empty) = (copy.len(), copy.is_empty());
    let inside = copy.into_vec();
    format!(in alloc;
        "{same} {empty} {length} {is_empty} {:?}",
        inside.as_slice()
    )
}

fn forgets(alloc: Global) -> Result<String, AllocError> {
    let list = ForgetList::from_vec(vec![in alloc; (2, 1), (3, 4)]?);
    format!(in alloc; "{:?}", list.as_slice())
}

fn edit(alloc: Global, words: &[&str]) -> Result<String, AllocError> {
    match edit_of(alloc, words)? {
        Some(edit) => format!(in alloc; "{:?}", edit.copy(alloc)?),
        None => String::from_str(alloc, "no edit"),
    }
}

fn reply(alloc: Global, words: &[&str]) -> Result<String, AllocError> {
    let reply = reply_of(alloc, words)?;
    format!(in alloc; "{:?}", reply.copy(alloc)?)
}

pub fn answer(alloc: Global, words: &[&str]) -> Result<String, AllocError> {
    match words {
        ["handle", length] => handle(alloc, length),
        ["bytes", word] => bytes(alloc, word),
        ["forgets"] => forgets(alloc),
        ["edit", rest @ ..] => edit(alloc, rest),
        ["reply", rest @ ..] => reply(alloc, rest),
        _ => String::from_str(alloc, "no call"),
    }
}
