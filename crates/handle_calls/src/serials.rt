//! File handles as plain data.

use crate::made::Made;
use handle_values::{
    Trouble, end, last, next_mount, next_openable, next_serial, push_equal, push_handle_error,
    push_mount, push_openable, push_serial,
};
use pt_handles::{FileOrHandle, HandleError, SerializableFileHandle};
use pt_host::{Fd, FileHandle};
use pt_show::{Text, Words};
use pt_text::push_text;

fn push_made(
    out: &mut Vec<u8>,
    made: &Result<SerializableFileHandle, HandleError>,
) -> Result<(), Trouble> {
    match made {
        Ok(serial) => {
            push_text(out, b" Ok")?;
            push_serial(out, serial)?;
        }
        Err(why) => push_handle_error(out, why)?,
    }
    Ok(())
}

fn take_of_handle(words: &mut Words<'_>, out: &mut Vec<u8>) -> Result<(), Trouble> {
    let handle: FileHandle = last(words)?;
    let made = SerializableFileHandle::from_handle(words.alloc(), &handle);
    push_made(out, &made)
}

/// `File` and a descriptor, or `Handle` and what it is opened by.
fn next_file_or_handle(words: &mut Words<'_>) -> Result<FileOrHandle, Trouble> {
    match words.word()? {
        b"File" => {
            let fd: Fd = words.next()?;
            Ok(FileOrHandle::File(fd))
        }
        b"Handle" => Ok(FileOrHandle::Handle(next_openable(words)?)),
        _ => Err(Trouble::Bad),
    }
}

fn take_of_either(
    made: &mut Made,
    words: &mut Words<'_>,
    out: &mut Vec<u8>,
) -> Result<(), Trouble> {
    let from = next_file_or_handle(words)?;
    end(words)?;
    let (host, seat) = (&mut made.host, &mut made.seat);
    let made = SerializableFileHandle::from_file_or_handle(words.alloc(), host, seat, &from);
    push_made(out, &made)
}

fn take_equal(with_mount: bool, words: &mut Words<'_>, out: &mut Vec<u8>) -> Result<(), Trouble> {
    let one = next_serial(words)?;
    let other = next_serial(words)?;
    end(words)?;
    let result = if with_mount {
        one.require_equal(words.alloc(), &other)
    } else {
        one.require_equal_without_mount_id(words.alloc(), &other)
    };
    push_equal(out, &result)?;
    Ok(())
}

fn take_field(field: &[u8], words: &mut Words<'_>, out: &mut Vec<u8>) -> Result<(), Trouble> {
    let serial = next_serial(words)?;
    end(words)?;
    match field {
        b"as_bytes" => serial.as_bytes().write(out)?,
        b"handle_type" => serial.handle_type().write(out)?,
        _ => serial.mount_id().write(out)?,
    }
    Ok(())
}

fn take_to_openable(words: &mut Words<'_>, out: &mut Vec<u8>) -> Result<(), Trouble> {
    let serial = next_serial(words)?;
    let mount = next_mount(words)?;
    end(words)?;
    match serial.to_openable(mount) {
        Ok(openable) => {
            push_text(out, b" Ok")?;
            push_openable(out, &openable)?;
        }
        Err((why, mount)) => {
            push_handle_error(out, &why)?;
            push_mount(out, &mount)?;
        }
    }
    Ok(())
}

/// Answers the call of this name, if it is one of these.
pub fn take(
    made: &mut Made,
    name: &[u8],
    words: &mut Words<'_>,
    out: &mut Vec<u8>,
) -> Result<bool, Trouble> {
    let Some(name) = name.strip_prefix(b"SerializableFileHandle::") else {
        return Ok(false);
    };
    match name {
        b"from_handle" => take_of_handle(words, out)?,
        b"from_file_or_handle" => take_of_either(made, words, out)?,
        b"require_equal" => take_equal(true, words, out)?,
        b"require_equal_without_mount_id" => take_equal(false, words, out)?,
        b"as_bytes" | b"handle_type" | b"mount_id" => take_field(name, words, out)?,
        b"to_openable" => take_to_openable(words, out)?,
        _ => return Ok(false),
    }
    Ok(true)
}
