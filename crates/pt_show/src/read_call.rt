//! Host calls and edits read from their texts.
use crate::read::{Read, ReadError, Words};
use pt_host::{Edit, KeptHostOp};

// The calls that open and close descriptors. None where the name is of another call; so below.
fn next_opening(name: &str, words: &mut Words<'_>) -> Result<Option<KeptHostOp>, ReadError> {
    let call = match name {
        "OpenRoot" => {
            let (path, flags) = words.two()?;
            KeptHostOp::OpenRoot { path, flags }
        }
        "OpenPath" => {
            let (fd, path, flags) = words.three()?;
            KeptHostOp::OpenPath { fd, path, flags }
        }
        "OpenAt" => {
            let (fd, name, flags, mode) = words.four()?;
            KeptHostOp::OpenAt {
                fd,
                name,
                flags,
                mode,
            }
        }
        "Reopen" => {
            let (fd, flags) = words.two()?;
            KeptHostOp::Reopen { fd, flags }
        }
        "OpenByHandle" => {
            let (fd, handle, flags) = words.three()?;
            KeptHostOp::OpenByHandle { fd, handle, flags }
        }
        "Close" => KeptHostOp::Close { fd: words.next()? },
        _ => return Ok(None),
    };
    Ok(Some(call))
}

// The calls that ask.
fn next_question(name: &str, words: &mut Words<'_>) -> Result<Option<KeptHostOp>, ReadError> {
    let call = match name {
        "Stat" => KeptHostOp::Stat { fd: words.next()? },
        "HandleOf" => KeptHostOp::HandleOf { fd: words.next()? },
        "StatFs" => KeptHostOp::StatFs { fd: words.next()? },
        "ReadLink" => KeptHostOp::ReadLink { fd: words.next()? },
        "FdPath" => KeptHostOp::FdPath { fd: words.next()? },
        "MountInfo" => KeptHostOp::MountInfo,
        "ReadAt" => {
            let (fd, offset, size) = words.three()?;
            KeptHostOp::ReadAt { fd, offset, size }
        }
        "ListAt" => {
            let (fd, offset, size) = words.three()?;
            KeptHostOp::ListAt { fd, offset, size }
        }
        "GetXattr" => {
            let (fd, through, name, size) = words.four()?;
            KeptHostOp::GetXattr {
                fd,
                through,
                name,
                size,
            }
        }
        "ListXattr" => {
            let (fd, through, size) = words.three()?;
            KeptHostOp::ListXattr { fd, through, size }
        }
        _ => return Ok(None),
    };
    Ok(Some(call))
}

// The calls that change the names of a directory.
fn next_naming(name: &str, words: &mut Words<'_>) -> Result<Option<KeptHostOp>, ReadError> {
    let call = match name {
        "MakeDir" => {
            let (fd, name, mode) = words.three()?;
            KeptHostOp::MakeDir { fd, name, mode }
        }
        "MakeNode" => {
            let (fd, name, mode, rdev) = words.four()?;
            KeptHostOp::MakeNode {
                fd,
                name,
                mode,
                rdev,
            }
        }
        "MakeLink" => {
            let (from, fd, name) = words.three()?;
            KeptHostOp::MakeLink { from, fd, name }
        }
        "SymLink" => {
            let (fd, name, target) = words.three()?;
            KeptHostOp::SymLink { fd, name, target }
        }
        "Unlink" => {
            let (fd, name) = words.two()?;
            KeptHostOp::Unlink { fd, name }
        }
        "RemoveDir" => {
            let (fd, name) = words.two()?;
            KeptHostOp::RemoveDir { fd, name }
        }
        "Rename" => {
            let (fd, name, fd2, name2, flags) = words.five()?;
            KeptHostOp::Rename {
                fd,
                name,
                fd2,
                name2,
                flags,
            }
        }
        "Edit" => KeptHostOp::Edit(words.next()?),
        _ => return Ok(None),
    };
    Ok(Some(call))
}

// The calls that change contents, the position of a descriptor, or nothing that can be seen.
fn next_writing(name: &str, words: &mut Words<'_>) -> Result<Option<KeptHostOp>, ReadError> {
    let call = match name {
        "WriteAt" => {
            let (fd, offset, bytes, append) = words.four()?;
            KeptHostOp::WriteAt {
                fd,
                offset,
                bytes,
                append,
            }
        }
        "Truncate" => {
            let (fd, size) = words.two()?;
            KeptHostOp::Truncate { fd, size }
        }
        "Allocate" => {
            let (fd, mode, offset, length) = words.four()?;
            KeptHostOp::Allocate {
                fd,
                mode,
                offset,
                length,
            }
        }
        "Seek" => {
            let (fd, offset, whence) = words.three()?;
            KeptHostOp::Seek { fd, offset, whence }
        }
        "CopyRange" => {
            let (fd, offset, fd2, offset2, length) = words.five()?;
            let flags = words.next()?;
            KeptHostOp::CopyRange {
                fd,
                offset,
                fd2,
                offset2,
                length,
                flags,
            }
        }
        "Flush" => KeptHostOp::Flush { fd: words.next()? },
        "Sync" => {
            let (fd, datasync) = words.two()?;
            KeptHostOp::Sync { fd, datasync }
        }
        "SyncFs" => KeptHostOp::SyncFs { fd: words.next()? },
        _ => return Ok(None),
    };
    Ok(Some(call))
}

// The calls that change attributes.
fn next_attribute(name: &str, words: &mut Words<'_>) -> Result<Option<KeptHostOp>, ReadError> {
    let call = match name {
        "ChMod" => {
            let (fd, through, mode) = words.three()?;
            KeptHostOp::ChMod { fd, through, mode }
        }
        "ChOwn" => {
            let (fd, uid, gid) = words.three()?;
            KeptHostOp::ChOwn { fd, uid, gid }
        }
        "SetTimes" => {
            let (fd, through, atime, mtime) = words.four()?;
            KeptHostOp::SetTimes {
                fd,
                through,
                atime,
                mtime,
            }
        }
        "SetXattr" => {
            let (fd, through, name, value, flags) = words.five()?;
            KeptHostOp::SetXattr {
                fd,
                through,
                name,
                value,
                flags,
            }
        }
        "RemoveXattr" => {
            let (fd, through, name) = words.three()?;
            KeptHostOp::RemoveXattr { fd, through, name }
        }
        _ => return Ok(None),
    };
    Ok(Some(call))
}

// The calls that change a seat.
fn next_seat_call(name: &str, words: &mut Words<'_>) -> Result<Option<KeptHostOp>, ReadError> {
    let call = match name {
        "SetGroups" => KeptHostOp::SetGroups {
            list: words.next()?,
        },
        "SetEgid" => KeptHostOp::SetEgid { gid: words.next()? },
        "SetEuid" => KeptHostOp::SetEuid { uid: words.next()? },
        "RaiseCap" => KeptHostOp::RaiseCap {
            caps: words.next()?,
        },
        "DropCap" => KeptHostOp::DropCap {
            caps: words.next()?,
        },
        "SetUmask" => KeptHostOp::SetUmask {
            mask: words.next()?,
        },
        _ => return Ok(None),
    };
    Ok(Some(call))
}

impl Read for KeptHostOp {
    fn read(words: &mut Words<'_>) -> Result<Self, ReadError> {
        let name = words.name()?;
        if let Some(call) = next_opening(name, words)? {
            return Ok(call);
        }
        if let Some(call) = next_question(name, words)? {
            return Ok(call);
        }
        if let Some(call) = next_naming(name, words)? {
            return Ok(call);
        }
        if let Some(call) = next_writing(name, words)? {
            return Ok(call);
        }
        if let Some(call) = next_attribute(name, words)? {
            return Ok(call);
        }
        next_seat_call(name, words)?.ok_or(ReadError::Bad)
    }
}

impl Read for Edit {
    fn read(words: &mut Words<'_>) -> Result<Self, ReadError> {
        match words.name()? {
            "Unlink" => Ok(Edit::Unlink {
                path: words.next()?,
            }),
            "Rename" => {
                let (old, new) = words.two()?;
                Ok(Edit::Rename { old, new })
            }
            "File" => {
                let (path, mode, uid, gid, bytes) = words.five()?;
                Ok(Edit::File {
                    path,
                    mode,
                    uid,
                    gid,
                    bytes,
                })
            }
            "Dir" => {
                let (path, mode, uid, gid) = words.four()?;
                Ok(Edit::Dir {
                    path,
                    mode,
                    uid,
                    gid,
                })
            }
            "Write" => {
                let (path, bytes) = words.two()?;
                Ok(Edit::Write { path, bytes })
            }
            _ => Err(ReadError::Bad),
        }
    }
}
