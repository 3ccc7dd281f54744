//! Errors of mounts, and the texts that are shown.

use handle_values::{
    Trouble, end, last, next, next_errno, next_mount_error, next_serial, push_mount_error,
};
use pt_handles::{FdPathError, HandleError, InodePathError, MountError};
use pt_host::Bytes;
use pt_show::{Text, Words};
use pt_text::push_text;
use std::fmt::Display;

fn take_description(words: &mut Words<'_>, out: &mut Vec<u8>) -> Result<(), Trouble> {
    let error = next_mount_error(words)?;
    let description: Bytes = last(words)?;
    push_mount_error(out, &error.set_desc(description))?;
    Ok(())
}

fn take_prefix(words: &mut Words<'_>, out: &mut Vec<u8>) -> Result<(), Trouble> {
    let error = next_mount_error(words)?;
    let text: Bytes = last(words)?;
    match error.prefix(text) {
        Ok(error) => {
            push_text(out, b" Ok")?;
            push_mount_error(out, &error)?;
            Ok(())
        }
        Err(MountError::Memory) => Err(Trouble::Memory),
        Err(MountError::Failed(_error)) => Err(Trouble::Bad),
    }
}

fn take_silent(words: &mut Words<'_>, out: &mut Vec<u8>) -> Result<(), Trouble> {
    let error = next_mount_error(words)?;
    end(words)?;
    error.silent().write(out)?;
    Ok(())
}

fn take_errno(words: &mut Words<'_>, out: &mut Vec<u8>) -> Result<(), Trouble> {
    let error = next_mount_error(words)?;
    end(words)?;
    error.into_inner().write(out)?;
    Ok(())
}

/// The text that is shown of a value.
fn push_shown<T: Display>(words: &Words<'_>, out: &mut Vec<u8>, value: &T) -> Result<(), Trouble> {
    let text = format!(in words.alloc(); "{value}")?;
    text.as_str().as_bytes().write(out)?;
    Ok(())
}

fn next_path_error(words: &mut Words<'_>) -> Result<FdPathError, Trouble> {
    match words.word()? {
        b"ReadLink" => Ok(FdPathError::ReadLink(next_errno(words)?)),
        b"TooLong" => Ok(FdPathError::TooLong),
        b"InvalidCString" => Ok(FdPathError::InvalidCString(next(words)?)),
        b"NotAFile" => Ok(FdPathError::NotAFile(next(words)?)),
        b"Deleted" => Ok(FdPathError::Deleted(next(words)?)),
        b"Memory" => Ok(FdPathError::Memory),
        _ => Err(Trouble::Bad),
    }
}

fn next_inode_error(words: &mut Words<'_>) -> Result<InodePathError, Trouble> {
    match words.word()? {
        b"NoFd" => Ok(InodePathError::NoFd(next_errno(words)?)),
        b"FdPathError" => Ok(InodePathError::FdPathError(next_path_error(words)?)),
        b"OutsideRoot" => Ok(InodePathError::OutsideRoot),
        _ => Err(Trouble::Bad),
    }
}

fn next_named(words: &mut Words<'_>) -> Result<HandleError, Trouble> {
    match words.word()? {
        b"Named" => {
            let errno = next_errno(words)?;
            Ok(HandleError::Named(errno, next(words)?))
        }
        _ => Err(Trouble::Bad),
    }
}

fn take_display(words: &mut Words<'_>, out: &mut Vec<u8>) -> Result<(), Trouble> {
    match words.word()? {
        b"SerializableFileHandle" => {
            let value = next_serial(words)?;
            push_shown(words, out, &value)?;
        }
        b"MPRError" => {
            let value = next_mount_error(words)?;
            push_shown(words, out, &value)?;
        }
        b"HandleError" => {
            let value = next_named(words)?;
            push_shown(words, out, &value)?;
        }
        b"FdPathError" => {
            let value = next_path_error(words)?;
            push_shown(words, out, &value)?;
        }
        b"InodePathError" => {
            let value = next_inode_error(words)?;
            push_shown(words, out, &value)?;
        }
        _ => return Err(Trouble::Bad),
    }
    end(words)
}

/// Answers the call of this name, if it is one of these.
pub fn take(name: &[u8], words: &mut Words<'_>, out: &mut Vec<u8>) -> Result<bool, Trouble> {
    match name {
        b"MPRError::set_desc" => take_description(words, out)?,
        b"MPRError::prefix" => take_prefix(words, out)?,
        b"MPRError::silent" => take_silent(words, out)?,
        b"MPRError::into_inner" => take_errno(words, out)?,
        b"display" => take_display(words, out)?,
        _ => return Ok(false),
    }
    Ok(true)
}
