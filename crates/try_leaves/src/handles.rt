//! Records of listings, paths and their errors, and what the calls over a host answer to a reply that is planned.

use crate::replies::{OneReply, Planned};
use pt_handles::{
    DirectoryIterator, FdPathError, HandleError, InodePathError, ReadDir, ReadDirError, ebadf,
    einval, erofs, get_path_by_fd, is_safe_inode, openat, openat_verbose, printable_fd,
    relative_path, reopen_fd_through_proc, strip_padding,
};
use pt_host::{Bytes, Caps, Errno, Fd, HostSeat, OpenFlags};
use pt_text::{push_byte_word, read_byte_word};
use std::alloc::{AllocError, Global};

/// The bytes of a word, or none where it is no word.
fn bytes_of(alloc: Global, word: &str) -> Result<Vec<u8>, AllocError> {
    match read_byte_word(alloc, word.as_bytes())? {
        Some(bytes) => Ok(bytes),
        None => Ok(Vec::new(alloc)),
    }
}

fn number_of(word: &str) -> u32 {
    word.parse::<u32>().unwrap_or(0)
}

/// Bytes as a word.
fn word_of(alloc: Global, bytes: &[u8]) -> Result<String, AllocError> {
    let mut out = Vec::new(alloc);
    push_byte_word(&mut out, bytes)?;
    String::from_utf8_lossy(alloc, out.as_slice())
}

/// How many bytes are left, before each entry and at the end, and the entries.
fn listed(
    alloc: Global,
    read: Result<ReadDir, ReadDirError>,
    most: usize,
) -> Result<String, AllocError> {
    let mut reader = match read {
        Ok(reader) => reader,
        Err(why) => return format!(in alloc; "{why:?}"),
    };
    let mut told = String::new(alloc);
    write!(told, "{}", reader.remaining())?;
    for _ in 0..most {
        let Some(entry) = reader.next() else {
            break;
        };
        let name = word_of(alloc, entry.name)?;
        write!(
            told,
            ": {} {} {} {name}; ",
            entry.ino, entry.offset, entry.kind
        )?;
        write!(told, "{}", reader.remaining())?;
    }
    Ok(told)
}

/// As it is shown, and as a word.
fn both(alloc: Global, shown: String, text: &Bytes) -> Result<String, AllocError> {
    let word = word_of(alloc, text.as_slice())?;
    format!(in alloc; "{shown} = {word}")
}

fn path_error(alloc: Global, error: &FdPathError) -> Result<String, AllocError> {
    both(alloc, format!(in alloc; "{error}")?, &error.text(alloc)?)
}

fn handle_error(alloc: Global, error: &HandleError) -> Result<String, AllocError> {
    both(alloc, format!(in alloc; "{error}")?, &error.text(alloc)?)
}

fn inode_error(alloc: Global, error: &InodePathError) -> Result<String, AllocError> {
    both(alloc, format!(in alloc; "{error}")?, &error.text(alloc)?)
}

fn path_told(alloc: Global, path: Result<Bytes, FdPathError>) -> Result<String, AllocError> {
    match path {
        Ok(path) => word_of(alloc, path.as_slice()),
        Err(error) => path_error(alloc, &error),
    }
}

fn text_told(alloc: Global, text: Result<Bytes, HandleError>) -> Result<String, AllocError> {
    match text {
        Ok(text) => word_of(alloc, text.as_slice()),
        Err(error) => handle_error(alloc, &error),
    }
}

fn fd_told(alloc: Global, opened: Result<Fd, HandleError>) -> Result<String, AllocError> {
    match opened {
        Ok(fd) => format!(in alloc; "{}", fd.0),
        Err(error) => handle_error(alloc, &error),
    }
}

fn planned(alloc: Global, kind: &str, word: &str) -> Result<Planned, AllocError> {
    Ok(match kind {
        "bytes" => Planned::Bytes(Bytes::from_vec(bytes_of(alloc, word)?)),
        "fd" => Planned::Fd(Fd(number_of(word))),
        "refused" => Planned::Refused(Errno(word.parse::<i32>().unwrap_or(0))),
        "fault" => Planned::Fault(Errno(word.parse::<i32>().unwrap_or(0))),
        _ => Planned::NoMemory,
    })
}

/// What one call answers, of the descriptor 5.
fn called(
    alloc: Global,
    host: &mut OneReply,
    seat: &mut HostSeat,
    call: &[&str],
) -> Result<String, AllocError> {
    let fd = Fd(5);
    match call {
        ["path"] => path_told(alloc, get_path_by_fd(host, seat, fd)),
        ["printed", with] => {
            let with_path = *with == "1";
            text_told(alloc, printable_fd(alloc, host, seat, fd, with_path))
        }
        ["openat", path, flags] => {
            let path = bytes_of(alloc, path)?;
            let flags = OpenFlags(number_of(flags));
            fd_told(alloc, openat(host, seat, fd, path.as_slice(), flags))
        }
        ["verbose", path, flags] => {
            let path = bytes_of(alloc, path)?;
            let flags = OpenFlags(number_of(flags));
            fd_told(
                alloc,
                openat_verbose(alloc, host, seat, fd, path.as_slice(), flags),
            )
        }
        ["reopen", flags] => {
            let flags = OpenFlags(number_of(flags));
            fd_told(alloc, reopen_fd_through_proc(host, seat, fd, flags))
        }
        ["list", offset, size] => {
            let offset = i64::from(number_of(offset));
            listed(
                alloc,
                ReadDir::new(host, seat, fd, offset, number_of(size)),
                9,
            )
        }
        ["list_on", size] => {
            listed(
                alloc,
                ReadDir::new_no_seek(host, seat, fd, number_of(size)),
                9,
            )
        }
        _ => String::from_str(alloc, "no call"),
    }
}

/// What a call answers to the reply, and what it asked for.
fn told(alloc: Global, kind: &str, word: &str, call: &[&str]) -> Result<String, AllocError> {
    let mut host = OneReply::new(planned(alloc, kind, word)?);
    let mut seat = HostSeat::new(0, 0, Caps(0));
    let answer = called(alloc, &mut host, &mut seat, call)?;
    format!(in alloc; "{answer}, {} calls, {:?}", host.made, host.asked)
}

fn error_text(alloc: Global, words: &[&str]) -> Result<String, AllocError> {
    match words {
        ["TooLong"] => handle_error(alloc, &HandleError::TooLong),
        ["OutsidePrefix"] => handle_error(alloc, &HandleError::OutsidePrefix),
        ["OutsideRoot"] => inode_error(alloc, &InodePathError::OutsideRoot),
        ["NoFd", number] => {
            let errno = Errno(number.parse::<i32>().unwrap_or(0));
            inode_error(alloc, &InodePathError::NoFd(errno))
        }
        ["Deleted", path] => {
            let path = Bytes::from_vec(bytes_of(alloc, path)?);
            inode_error(
                alloc,
                &InodePathError::FdPathError(FdPathError::Deleted(path)),
            )
        }
        _ => String::from_str(alloc, "no error"),
    }
}

pub fn answer(alloc: Global, words: &[&str]) -> Result<String, AllocError> {
    match words {
        ["listing", word] => {
            let bytes = Bytes::from_vec(bytes_of(alloc, word)?);
            listed(alloc, ReadDir::from_bytes(bytes), 9)
        }
        ["padding", word] => {
            let bytes = bytes_of(alloc, word)?;
            match strip_padding(bytes.as_slice()) {
                Some(name) => word_of(alloc, name),
                None => String::from_str(alloc, "None"),
            }
        }
        ["relative", path, prefix] => {
            let path = bytes_of(alloc, path)?;
            let prefix = bytes_of(alloc, prefix)?;
            match relative_path(path.as_slice(), prefix.as_slice()) {
                Ok(rest) => word_of(alloc, rest),
                Err(error) => format!(in alloc; "{error:?}"),
            }
        }
        ["safe", mode] => format!(in alloc; "{}", is_safe_inode(number_of(mode))),
        ["errnos"] => format!(in alloc; "{} {} {}", ebadf().0, einval().0, erofs().0),
        ["error", rest @ ..] => error_text(alloc, rest),
        ["told", kind, word, call @ ..] => told(alloc, kind, word, call),
        _ => String::from_str(alloc, "no call"),
    }
}
