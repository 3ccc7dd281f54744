//! The fields of a line, word by word.

use crate::trouble::Trouble;
use pt_handles::{MPRError, MountFd, OpenableFileHandle, SerializableFileHandle};
use pt_host::{Bytes, Errno, Fd};
use pt_show::{Read, Words};

/// The value that the next words are.
pub fn next<T: Read>(words: &mut Words<'_>) -> Result<T, Trouble> {
    Ok(words.next()?)
}

/// That no word is left.
pub fn end(words: &mut Words<'_>) -> Result<(), Trouble> {
    match words.word() {
        Ok(_) => Err(Trouble::Bad),
        Err(_) => Ok(()),
    }
}

/// The value that the last words are.
pub fn last<T: Read>(words: &mut Words<'_>) -> Result<T, Trouble> {
    let value = words.next()?;
    end(words)?;
    Ok(value)
}

/// Any error number.
pub fn next_errno(words: &mut Words<'_>) -> Result<Errno, Trouble> {
    let number: i32 = words.next()?;
    Ok(Errno(number))
}

pub fn next_mount(words: &mut Words<'_>) -> Result<MountFd, Trouble> {
    let mount_id: u64 = words.next()?;
    let file: Fd = words.next()?;
    Ok(MountFd { mount_id, file })
}

pub fn next_openable(words: &mut Words<'_>) -> Result<OpenableFileHandle, Trouble> {
    let handle = words.next()?;
    let mount_fd = next_mount(words)?;
    Ok(OpenableFileHandle { handle, mount_fd })
}

pub fn next_serial(words: &mut Words<'_>) -> Result<SerializableFileHandle, Trouble> {
    let mnt_id: u64 = words.next()?;
    let handle_type: i32 = words.next()?;
    let handle: Bytes = words.next()?;
    Ok(SerializableFileHandle {
        mnt_id,
        handle_type,
        handle,
    })
}

pub fn next_mount_error(words: &mut Words<'_>) -> Result<MPRError, Trouble> {
    let errno = next_errno(words)?;
    let description: Bytes = words.next()?;
    let silent: bool = words.next()?;
    let fs_mount_id: Option<u64> = words.next()?;
    let fs_mount_root: Option<Bytes> = words.next()?;
    Ok(MPRError {
        errno,
        description,
        silent,
        fs_mount_id,
        fs_mount_root,
    })
}
