//! Mounts: the table of a case, and what is asked of the list of mounts.

use crate::made::Made;
use handle_values::{
    Trouble, end, last, next, next_errno, next_mount, push_handle_error, push_mount,
    push_mount_error, push_refusal,
};
use pt_handles::{MountFd, MountFds, mount_root_in};
use pt_host::{Bytes, Fd, Host, HostOp};
use pt_show::{Text, Words};
use pt_text::push_text;

/// Makes the case's table of mounts, which is bad where it has one.
pub fn make_mounts(made: &mut Made, words: &mut Words<'_>) -> Result<(), Trouble> {
    let prefix: Option<Bytes> = last(words)?;
    if made.mounts.is_some() {
        return Err(Trouble::Bad);
    }
    made.mounts = Some(MountFds::new(words.alloc(), prefix));
    Ok(())
}

fn take_get(made: &mut Made, words: &mut Words<'_>, out: &mut Vec<u8>) -> Result<(), Trouble> {
    let mount_id: u64 = last(words)?;
    let Some(mounts) = &mut made.mounts else {
        return Err(Trouble::Bad);
    };
    let (host, seat) = (&mut made.host, &mut made.seat);
    match mounts.get(host, seat, mount_id, |host, seat, fd, flags| {
        host.call(seat, &HostOp::Reopen { fd, flags })
    }) {
        Ok(mount) => {
            push_text(out, b" Ok")?;
            push_mount(out, &mount)?;
        }
        Err(why) => push_refusal(out, &why)?,
    }
    Ok(())
}

fn take_root(made: &mut Made, words: &mut Words<'_>, out: &mut Vec<u8>) -> Result<(), Trouble> {
    let mount_id: u64 = last(words)?;
    let Some(mounts) = &mut made.mounts else {
        return Err(Trouble::Bad);
    };
    match mounts.get_mount_root(&mut made.host, &mut made.seat, mount_id) {
        Ok(root) => {
            push_text(out, b" Ok")?;
            root.write(out)?;
        }
        Err(why) => push_refusal(out, &why)?,
    }
    Ok(())
}

fn take_error(made: &mut Made, words: &mut Words<'_>, out: &mut Vec<u8>) -> Result<(), Trouble> {
    let mount_id: u64 = next(words)?;
    let errno = next_errno(words)?;
    end(words)?;
    let Some(mounts) = &mut made.mounts else {
        return Err(Trouble::Bad);
    };
    match mounts.error_for(&mut made.host, &mut made.seat, mount_id, errno) {
        Ok(error) => {
            push_text(out, b" Ok")?;
            push_mount_error(out, &error)?;
        }
        Err(why) => push_refusal(out, &why)?,
    }
    Ok(())
}

fn take_give_back(
    made: &mut Made,
    words: &mut Words<'_>,
    out: &mut Vec<u8>,
) -> Result<(), Trouble> {
    let mount_id: u64 = last(words)?;
    let Some(mounts) = &mut made.mounts else {
        return Err(Trouble::Bad);
    };
    mounts.give_back(mount_id).write(out)?;
    Ok(())
}

fn take_by_path(made: &mut Made, words: &mut Words<'_>, out: &mut Vec<u8>) -> Result<(), Trouble> {
    let with_table: bool = next(words)?;
    let dir: Fd = next(words)?;
    let path: Bytes = last(words)?;
    let (host, seat) = (&mut made.host, &mut made.seat);
    let held = if with_table {
        let Some(mounts) = &mut made.mounts else {
            return Err(Trouble::Bad);
        };
        MountFd::new(Some(mounts), host, seat, dir, path.as_slice())
    } else {
        MountFd::new(None, host, seat, dir, path.as_slice())
    };
    match held {
        Ok(mount) => {
            push_text(out, b" Ok")?;
            push_mount(out, &mount)?;
        }
        Err(why) => push_handle_error(out, &why)?,
    }
    Ok(())
}

fn take_field(of_file: bool, words: &mut Words<'_>, out: &mut Vec<u8>) -> Result<(), Trouble> {
    let mount = next_mount(words)?;
    end(words)?;
    if of_file {
        mount.file().write(out)?;
    } else {
        mount.mount_id().write(out)?;
    }
    Ok(())
}

fn take_root_in(words: &mut Words<'_>, out: &mut Vec<u8>) -> Result<(), Trouble> {
    let text: Bytes = next(words)?;
    let mount_id: u64 = next(words)?;
    let prefix: Option<Bytes> = last(words)?;
    let prefix = match &prefix {
        Some(prefix) => Some(prefix.as_slice()),
        None => None,
    };
    mount_root_in(text.as_slice(), mount_id, prefix).write(out)?;
    Ok(())
}

/// Answers the call of this name, if it is one of these.
pub fn take(
    made: &mut Made,
    name: &[u8],
    words: &mut Words<'_>,
    out: &mut Vec<u8>,
) -> Result<bool, Trouble> {
    match name {
        b"MountFds::get" => take_get(made, words, out)?,
        b"MountFds::get_mount_root" => take_root(made, words, out)?,
        b"MountFds::error_for" => take_error(made, words, out)?,
        b"MountFds::give_back" => take_give_back(made, words, out)?,
        b"MountFd::new" => take_by_path(made, words, out)?,
        b"MountFd::file" => take_field(true, words, out)?,
        b"MountFd::mount_id" => take_field(false, words, out)?,
        b"mount_root_in" => take_root_in(words, out)?,
        _ => return Ok(false),
    }
    Ok(true)
}
