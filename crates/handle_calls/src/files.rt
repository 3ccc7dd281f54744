//! File handles of objects, and what is opened by them.

use crate::made::Made;
use handle_values::{
    Trouble, end, last, next, next_openable, push_handled, push_openable, push_refusal,
};
use pt_handles::{from_fd, from_fd_fail_hard, from_name_at, from_name_at_fail_hard, to_openable};
use pt_host::{Bytes, CFileHandle, Fd, FileHandle, Host, HostOp, OpenFlags};
use pt_show::{Text, Words};
use pt_text::push_text;

fn take_of_fd(made: &mut Made, words: &mut Words<'_>, out: &mut Vec<u8>) -> Result<(), Trouble> {
    let fd: Fd = last(words)?;
    push_handled(out, &from_fd(&mut made.host, &mut made.seat, fd))?;
    Ok(())
}

fn take_of_fd_hard(
    made: &mut Made,
    words: &mut Words<'_>,
    out: &mut Vec<u8>,
) -> Result<(), Trouble> {
    let fd: Fd = last(words)?;
    push_handled(out, &from_fd_fail_hard(&mut made.host, &mut made.seat, fd))?;
    Ok(())
}

fn take_of_name(made: &mut Made, words: &mut Words<'_>, out: &mut Vec<u8>) -> Result<(), Trouble> {
    let dir: Fd = next(words)?;
    let name: Bytes = last(words)?;
    let told = from_name_at(&mut made.host, &mut made.seat, dir, name.as_slice());
    push_handled(out, &told)?;
    Ok(())
}

fn take_of_name_hard(
    made: &mut Made,
    words: &mut Words<'_>,
    out: &mut Vec<u8>,
) -> Result<(), Trouble> {
    let dir: Fd = next(words)?;
    let name: Bytes = last(words)?;
    let told = from_name_at_fail_hard(&mut made.host, &mut made.seat, dir, name.as_slice());
    push_handled(out, &told)?;
    Ok(())
}

fn take_to_openable(
    made: &mut Made,
    words: &mut Words<'_>,
    out: &mut Vec<u8>,
) -> Result<(), Trouble> {
    let handle: FileHandle = last(words)?;
    let Some(mounts) = &mut made.mounts else {
        return Err(Trouble::Bad);
    };
    let (host, seat) = (&mut made.host, &mut made.seat);
    match to_openable(&handle, mounts, host, seat, |host, seat, fd, flags| {
        host.call(seat, &HostOp::Reopen { fd, flags })
    }) {
        Ok(openable) => {
            push_text(out, b" Ok")?;
            push_openable(out, &openable)?;
        }
        Err(why) => push_refusal(out, &why)?,
    }
    Ok(())
}

fn take_inner(words: &mut Words<'_>, out: &mut Vec<u8>) -> Result<(), Trouble> {
    let openable = next_openable(words)?;
    end(words)?;
    openable.inner().write(out)?;
    Ok(())
}

fn take_open(made: &mut Made, words: &mut Words<'_>, out: &mut Vec<u8>) -> Result<(), Trouble> {
    let openable = next_openable(words)?;
    let flags: OpenFlags = last(words)?;
    push_handled(out, &openable.open(&mut made.host, &mut made.seat, flags))?;
    Ok(())
}

fn take_default(words: &mut Words<'_>, out: &mut Vec<u8>) -> Result<(), Trouble> {
    end(words)?;
    CFileHandle::default().write(out)?;
    Ok(())
}

fn take_bytes(words: &mut Words<'_>, out: &mut Vec<u8>) -> Result<(), Trouble> {
    let handle: CFileHandle = last(words)?;
    handle.as_bytes().write(out)?;
    Ok(())
}

fn take_type(words: &mut Words<'_>, out: &mut Vec<u8>) -> Result<(), Trouble> {
    let handle: CFileHandle = last(words)?;
    handle.handle_type().write(out)?;
    Ok(())
}

/// Answers the call of this name, if it is one of these.
pub fn take(
    made: &mut Made,
    name: &[u8],
    words: &mut Words<'_>,
    out: &mut Vec<u8>,
) -> Result<bool, Trouble> {
    match name {
        b"from_fd" => take_of_fd(made, words, out)?,
        b"from_fd_fail_hard" => take_of_fd_hard(made, words, out)?,
        b"from_name_at" => take_of_name(made, words, out)?,
        b"from_name_at_fail_hard" => take_of_name_hard(made, words, out)?,
        b"to_openable" => take_to_openable(made, words, out)?,
        b"OpenableFileHandle::inner" => take_inner(words, out)?,
        b"OpenableFileHandle::open" => take_open(made, words, out)?,
        b"CFileHandle::default" => take_default(words, out)?,
        b"CFileHandle::as_bytes" => take_bytes(words, out)?,
        b"CFileHandle::handle_type" => take_type(words, out)?,
        _ => return Ok(false),
    }
    Ok(true)
}
