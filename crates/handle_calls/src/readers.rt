//! The reader of a case, entry by entry.

use crate::made::Made;
use handle_values::{Trouble, end, last, next, push_ok};
use pt_handles::{DirectoryIterator, ReadDir, ReadDirError};
use pt_host::{Bytes, Fd};
use pt_show::{Text, Words};
use pt_text::push_text;

fn push_read_error(out: &mut Vec<u8>, error: ReadDirError) -> Result<(), Trouble> {
    push_text(out, b" Err")?;
    match error {
        ReadDirError::NotRecords(place) => {
            push_text(out, b" NotRecords")?;
            place.write(out)?;
        }
        ReadDirError::Host(errno) => {
            push_text(out, b" Host")?;
            errno.write(out)?;
        }
        ReadDirError::Memory => push_text(out, b" Memory")?,
    }
    Ok(())
}

/// The reader that was made is the case's; a refused one leaves the one before.
fn keep(
    made: &mut Made,
    read: Result<ReadDir, ReadDirError>,
    out: &mut Vec<u8>,
) -> Result<(), Trouble> {
    match read {
        Ok(reader) => {
            made.reader = Some(reader);
            push_text(out, b" Ok")?;
            Ok(())
        }
        Err(why) => push_read_error(out, why),
    }
}

fn take_bytes(made: &mut Made, words: &mut Words<'_>, out: &mut Vec<u8>) -> Result<(), Trouble> {
    let bytes: Bytes = last(words)?;
    keep(made, ReadDir::from_bytes(bytes), out)
}

fn take_new(made: &mut Made, words: &mut Words<'_>, out: &mut Vec<u8>) -> Result<(), Trouble> {
    let fd: Fd = next(words)?;
    let offset: i64 = next(words)?;
    let size: u32 = last(words)?;
    if offset < 0 {
        return Err(Trouble::Bad);
    }
    let read = ReadDir::new(&mut made.host, &mut made.seat, fd, offset, size);
    keep(made, read, out)
}

fn take_on(made: &mut Made, words: &mut Words<'_>, out: &mut Vec<u8>) -> Result<(), Trouble> {
    let fd: Fd = next(words)?;
    let size: u32 = last(words)?;
    let read = ReadDir::new_no_seek(&mut made.host, &mut made.seat, fd, size);
    keep(made, read, out)
}

fn take_next(made: &mut Made, words: &mut Words<'_>, out: &mut Vec<u8>) -> Result<(), Trouble> {
    end(words)?;
    let Some(reader) = &mut made.reader else {
        return Err(Trouble::Bad);
    };
    match reader.next() {
        Some(entry) => {
            push_text(out, b" +")?;
            entry.ino.write(out)?;
            entry.offset.write(out)?;
            entry.kind.write(out)?;
            entry.name.write(out)?;
        }
        None => push_text(out, b" -")?,
    }
    Ok(())
}

fn take_remaining(
    made: &mut Made,
    words: &mut Words<'_>,
    out: &mut Vec<u8>,
) -> Result<(), Trouble> {
    end(words)?;
    let Some(reader) = &made.reader else {
        return Err(Trouble::Bad);
    };
    (reader.remaining() as u64).write(out)?;
    Ok(())
}

/// Answers the call of this name, if it is one of these.
pub fn take(
    made: &mut Made,
    name: &[u8],
    words: &mut Words<'_>,
    out: &mut Vec<u8>,
) -> Result<bool, Trouble> {
    match name {
        b"ReadDir::from_bytes" => take_bytes(made, words, out)?,
        b"ReadDir::new" => take_new(made, words, out)?,
        b"ReadDir::new_no_seek" => take_on(made, words, out)?,
        b"ReadDir::next" => take_next(made, words, out)?,
        b"ReadDir::remaining" => take_remaining(made, words, out)?,
        _ => return Ok(false),
    }
    Ok(true)
}
