//! How long each answer's reply is.

use pt_host::{Bytes, Errno, FsStat, Time};
use pt_iface::{
    Answer, Attr, DirEntries, DirEntry, Entry, FsOptions, GetxattrReply, ListxattrReply,
    OpenOptions, Timeout, used_len,
};
use std::alloc::{AllocError, Global};

const TIMEOUT: Timeout = Timeout { secs: 5, nanos: 0 };

fn an_attr() -> Attr {
    let never = Time { sec: 0, nsec: 0 };
    Attr {
        ino: 2,
        size: 0,
        blocks: 0,
        atime: never,
        mtime: never,
        ctime: never,
        mode: 0o40755,
        nlink: 2,
        uid: 0,
        gid: 0,
        rdev: 0,
        blksize: 4096,
        flags: Attr::SUBMOUNT,
    }
}

fn an_entry() -> Entry {
    Entry {
        inode: 2,
        generation: 0,
        attr: an_attr(),
        attr_timeout: TIMEOUT,
        entry_timeout: TIMEOUT,
    }
}

fn a_status() -> FsStat {
    FsStat {
        blocks: 0,
        bfree: 0,
        bavail: 0,
        files: 3,
        ffree: 0,
        bsize: 4096,
        namelen: 255,
        frsize: 4096,
    }
}

fn listing(alloc: Global, names: &[&str]) -> Result<Answer, AllocError> {
    let mut entries = Vec::new(alloc);
    for name in names {
        entries.push(DirEntry {
            ino: 1,
            offset: 1,
            kind: 4,
            name: Bytes::from_slice(alloc, name.as_bytes())?,
        })?;
    }
    Ok(Answer::Listing(DirEntries::from_vec(entries)))
}

/// So many zero bytes.
fn zeros(alloc: Global, length: &str) -> Result<Bytes, AllocError> {
    let length = length.parse::<u32>().unwrap_or(0);
    Ok(Bytes::from_vec(vec![in alloc; 0; length as usize]?))
}

fn of_one_size(name: &str) -> Option<Answer> {
    let none = OpenOptions(0);
    Some(match name {
        "NoReply" => Answer::NoReply,
        "Done" => Answer::Done,
        "Inited" => Answer::Inited(FsOptions(3)),
        "Entry" => Answer::Entry(an_entry()),
        "Opened" => Answer::Opened(1, none),
        "Created" => Answer::Created(an_entry(), 1, none),
        "Attr" => Answer::Attr(an_attr(), TIMEOUT),
        "Wrote" => Answer::Wrote(4096),
        "FsStat" => Answer::FsStat(a_status()),
        "XattrCount" => Answer::Xattr(GetxattrReply::Count(7)),
        "XattrsCount" => Answer::Xattrs(ListxattrReply::Count(7)),
        "Offset" => Answer::Offset(7),
        "Edited" => Answer::Edited,
        "EditRefused" => Answer::EditRefused(Errno::EEXIST),
        "Refused" => Answer::Refused(Errno::ENOENT),
        "NoMemory" => Answer::NoMemory,
        "Cut" => Answer::Cut,
        _ => return None,
    })
}

fn answer_of(alloc: Global, words: &[&str]) -> Result<Option<Answer>, AllocError> {
    Ok(match words {
        ["Listing", names @ ..] => Some(listing(alloc, names)?),
        ["Read", length] => Some(Answer::Read(zeros(alloc, length)?)),
        ["Link", length] => Some(Answer::Link(zeros(alloc, length)?)),
        ["Xattr", length] => Some(Answer::Xattr(GetxattrReply::Value(zeros(alloc, length)?))),
        ["Xattrs", length] => Some(Answer::Xattrs(ListxattrReply::Names(zeros(alloc, length)?))),
        [name] => of_one_size(name),
        _ => None,
    })
}

pub fn answer(alloc: Global, words: &[&str]) -> Result<String, AllocError> {
    match answer_of(alloc, words)? {
        Some(answer) => format!(in alloc; "{}", used_len(&answer)),
        None => String::from_str(alloc, "no answer"),
    }
}
