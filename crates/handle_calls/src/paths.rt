//! Openings by paths and of descriptors anew, and the paths of descriptors.

use crate::made::Made;
use handle_values::{Trouble, end, last, next, push_handle_error, push_handled, push_ok};
use pt_handles::{
    FdPathError, ebadf, einval, erofs, get_path_by_fd, is_safe_inode, openat, openat_verbose,
    printable_fd, relative_path, reopen_fd_through_proc, strip_padding,
};
use pt_host::{Bytes, Errno, Fd, OpenFlags};
use pt_show::{Text, Words};
use pt_text::push_text;

fn take_openat(
    verbose: bool,
    made: &mut Made,
    words: &mut Words<'_>,
    out: &mut Vec<u8>,
) -> Result<(), Trouble> {
    let dir: Fd = next(words)?;
    let path: Bytes = next(words)?;
    let flags: OpenFlags = last(words)?;
    let (host, seat) = (&mut made.host, &mut made.seat);
    let opened = if verbose {
        openat_verbose(words.alloc(), host, seat, dir, path.as_slice(), flags)
    } else {
        openat(host, seat, dir, path.as_slice(), flags)
    };
    push_handled(out, &opened)?;
    Ok(())
}

fn take_reopen(made: &mut Made, words: &mut Words<'_>, out: &mut Vec<u8>) -> Result<(), Trouble> {
    let fd: Fd = next(words)?;
    let flags: OpenFlags = last(words)?;
    let opened = reopen_fd_through_proc(&mut made.host, &mut made.seat, fd, flags);
    push_handled(out, &opened)?;
    Ok(())
}

fn push_path_error(out: &mut Vec<u8>, error: &FdPathError) -> Result<(), Trouble> {
    push_text(out, b" Err")?;
    match error {
        FdPathError::ReadLink(errno) => {
            push_text(out, b" ReadLink")?;
            errno.write(out)?;
        }
        FdPathError::TooLong => push_text(out, b" TooLong")?,
        FdPathError::InvalidCString(place) => {
            push_text(out, b" InvalidCString")?;
            place.write(out)?;
        }
        FdPathError::NotAFile(path) => {
            push_text(out, b" NotAFile")?;
            path.write(out)?;
        }
        FdPathError::Deleted(path) => {
            push_text(out, b" Deleted")?;
            path.write(out)?;
        }
        FdPathError::Memory => push_text(out, b" Memory")?,
    }
    Ok(())
}

fn take_path(made: &mut Made, words: &mut Words<'_>, out: &mut Vec<u8>) -> Result<(), Trouble> {
    let fd: Fd = last(words)?;
    match get_path_by_fd(&mut made.host, &mut made.seat, fd) {
        Ok(path) => push_ok(out, &path)?,
        Err(why) => push_path_error(out, &why)?,
    }
    Ok(())
}

fn take_printable(
    made: &mut Made,
    words: &mut Words<'_>,
    out: &mut Vec<u8>,
) -> Result<(), Trouble> {
    let fd: Fd = next(words)?;
    let with_path: bool = last(words)?;
    let (host, seat) = (&mut made.host, &mut made.seat);
    push_handled(out, &printable_fd(words.alloc(), host, seat, fd, with_path))?;
    Ok(())
}

fn take_relative(words: &mut Words<'_>, out: &mut Vec<u8>) -> Result<(), Trouble> {
    let path: Bytes = next(words)?;
    let prefix: Bytes = last(words)?;
    match relative_path(path.as_slice(), prefix.as_slice()) {
        Ok(rest) => push_ok(out, &rest)?,
        Err(why) => push_handle_error(out, &why)?,
    }
    Ok(())
}

fn take_padding(words: &mut Words<'_>, out: &mut Vec<u8>) -> Result<(), Trouble> {
    let bytes: Bytes = last(words)?;
    strip_padding(bytes.as_slice()).write(out)?;
    Ok(())
}

fn take_kind(words: &mut Words<'_>, out: &mut Vec<u8>) -> Result<(), Trouble> {
    let mode: u32 = last(words)?;
    is_safe_inode(mode).write(out)?;
    Ok(())
}

fn take_errno(errno: Errno, words: &mut Words<'_>, out: &mut Vec<u8>) -> Result<(), Trouble> {
    end(words)?;
    errno.write(out)?;
    Ok(())
}

/// Answers the call of this name, if it is one of these.
pub fn take(
    made: &mut Made,
    name: &[u8],
    words: &mut Words<'_>,
    out: &mut Vec<u8>,
) -> Result<bool, Trouble> {
    match name {
        b"openat" => take_openat(false, made, words, out)?,
        b"openat_verbose" => take_openat(true, made, words, out)?,
        b"reopen_fd_through_proc" => take_reopen(made, words, out)?,
        b"get_path_by_fd" => take_path(made, words, out)?,
        b"printable_fd" => take_printable(made, words, out)?,
        b"relative_path" => take_relative(words, out)?,
        b"strip_padding" => take_padding(words, out)?,
        b"is_safe_inode" => take_kind(words, out)?,
        b"ebadf" => take_errno(ebadf(), words, out)?,
        b"einval" => take_errno(einval(), words, out)?,
        b"erofs" => take_errno(erofs(), words, out)?,
        _ => return Ok(false),
    }
    Ok(true)
}
