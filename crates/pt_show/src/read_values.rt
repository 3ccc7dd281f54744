//! Values that calls and events hold, read from their texts.
use crate::read::{Read, ReadError, Words};
use pt_host::{
    Bytes, CFileHandle, Caps, Fd, FileHandle, GroupList, HandleBytes, ObjIds, OpenFlags, Time,
    TimeSet,
};
use pt_text::{read_byte_word, read_number};

impl Read for u64 {
    fn read(words: &mut Words<'_>) -> Result<Self, ReadError> {
        read_number(words.word()?).ok_or(ReadError::Bad)
    }
}

impl Read for u32 {
    fn read(words: &mut Words<'_>) -> Result<Self, ReadError> {
        let number: u64 = words.next()?;
        u32::try_from(number).map_err(|_| ReadError::Bad)
    }
}

// The number that a word writes, behind a `-` where it is negative. None where it does not fit.
fn signed_number(word: &[u8]) -> Option<i64> {
    match word {
        [b'-', digits @ ..] => 0i64.checked_sub_unsigned(read_number(digits)?),
        _ => i64::try_from(read_number(word)?).ok(),
    }
}

impl Read for i64 {
    fn read(words: &mut Words<'_>) -> Result<Self, ReadError> {
        signed_number(words.word()?).ok_or(ReadError::Bad)
    }
}

impl Read for i32 {
    fn read(words: &mut Words<'_>) -> Result<Self, ReadError> {
        let number: i64 = words.next()?;
        i32::try_from(number).map_err(|_| ReadError::Bad)
    }
}

impl Read for bool {
    fn read(words: &mut Words<'_>) -> Result<Self, ReadError> {
        match words.word()? {
            b"0" => Ok(false),
            b"1" => Ok(true),
            _ => Err(ReadError::Bad),
        }
    }
}

impl Read for Bytes {
    fn read(words: &mut Words<'_>) -> Result<Self, ReadError> {
        let word = words.word()?;
        match read_byte_word(words.alloc(), word) {
            Ok(Some(bytes)) => Ok(Bytes::from_vec(bytes)),
            Ok(None) => Err(ReadError::Bad),
            Err(_) => Err(ReadError::Memory),
        }
    }
}

impl<T: Read> Read for Option<T> {
    fn read(words: &mut Words<'_>) -> Result<Self, ReadError> {
        match words.word()? {
            b"-" => Ok(None),
            b"+" => Ok(Some(words.next()?)),
            _ => Err(ReadError::Bad),
        }
    }
}

impl Read for Fd {
    fn read(words: &mut Words<'_>) -> Result<Self, ReadError> {
        Ok(Fd(words.next()?))
    }
}

impl Read for OpenFlags {
    fn read(words: &mut Words<'_>) -> Result<Self, ReadError> {
        Ok(OpenFlags(words.next()?))
    }
}

impl Read for Caps {
    fn read(words: &mut Words<'_>) -> Result<Self, ReadError> {
        Ok(Caps(words.next()?))
    }
}

impl Read for ObjIds {
    fn read(words: &mut Words<'_>) -> Result<Self, ReadError> {
        let (ino, dev, mnt_id) = words.three()?;
        Ok(ObjIds { ino, dev, mnt_id })
    }
}

impl Read for Time {
    fn read(words: &mut Words<'_>) -> Result<Self, ReadError> {
        let (sec, nsec) = words.two()?;
        Ok(Time { sec, nsec })
    }
}

impl Read for TimeSet {
    fn read(words: &mut Words<'_>) -> Result<Self, ReadError> {
        match words.name()? {
            "Omit" => Ok(TimeSet::Omit),
            "Now" => Ok(TimeSet::Now),
            "At" => Ok(TimeSet::At(words.next()?)),
            _ => Err(ReadError::Bad),
        }
    }
}

impl Read for CFileHandle {
    fn read(words: &mut Words<'_>) -> Result<Self, ReadError> {
        let handle_type = words.next()?;
        let bytes: Bytes = words.next()?;
        match HandleBytes::from_slice(bytes.as_slice()) {
            Some(bytes) => Ok(CFileHandle { handle_type, bytes }),
            None => Err(ReadError::Bad),
        }
    }
}

impl Read for FileHandle {
    fn read(words: &mut Words<'_>) -> Result<Self, ReadError> {
        let (mnt_id, handle) = words.two()?;
        Ok(FileHandle { mnt_id, handle })
    }
}

impl Read for GroupList {
    fn read(words: &mut Words<'_>) -> Result<Self, ReadError> {
        let groups: Vec<u32> = words.list()?;
        match GroupList::from_slice(words.alloc(), groups.as_slice()) {
            Ok(list) => Ok(list),
            Err(_) => Err(ReadError::Memory),
        }
    }
}
