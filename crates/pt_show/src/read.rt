//! Texts read as the values that have them.
ghost use Rattle.std.specs.Prelude.{◌≡◌, IfOk, true};
ghost use Rattle.pt_show.specs.Texts.{word};

use crate::text::Text;
use pt_text::{Parts, push_text};
use std::alloc::{AllocError, Global};

/// Why a text was not read.
#[derive(Clone, Copy, Debug)]
pub enum ReadError {
    /// It is not the text of a value of this type.
    Bad,
    Memory,
}

/// The words of a text that are still to be read.
#[derive(Drop)]
pub struct Words<'a> {
    alloc: Global,
    parts: Parts<'a>,
}

/// A value whose text is read word by word.
pub trait Read: Text + Sized + Drop {
    fn read(words: &mut Words<'_>) -> Result<Self, ReadError>;
}

impl<'a> Words<'a> {
    pub fn new(alloc: Global, text: &'a [u8]) -> Self {
        let parts = Parts::words(text);
        Words { alloc, parts }
    }

    pub fn word(&mut self) -> Result<&'a [u8], ReadError> {
        self.parts.next().ok_or(ReadError::Bad)
    }

    /// A word that is a name.
    pub(crate) fn name(&mut self) -> Result<&'a str, ReadError> {
        str::from_utf8(self.word()?).map_err(|_| ReadError::Bad)
    }

    /// The value that the next words are.
    pub fn next<T: Read>(&mut self) -> Result<T, ReadError> {
        T::read(self)
    }

    /// The class that the next words name, or 0 where they name none.
    pub(crate) fn class(&mut self) -> Result<u32, ReadError> {
        let mut ahead = self.parts.left();
        match ahead.next() {
            Some(b"class") => {
                self.parts = ahead;
                self.next()
            }
            _ => Ok(0),
        }
    }

    /// The two values that the next words are.
    pub(crate) fn two<A: Read, B: Read>(&mut self) -> Result<(A, B), ReadError> {
        let first = self.next()?;
        let second = self.next()?;
        Ok((first, second))
    }

    /// Three values; so below.
    pub(crate) fn three<A: Read, B: Read, C: Read>(&mut self) -> Result<(A, B, C), ReadError> {
        let (first, second) = self.two()?;
        let third = self.next()?;
        Ok((first, second, third))
    }

    pub(crate) fn four<A: Read, B: Read, C: Read, D: Read>(
        &mut self,
    ) -> Result<(A, B, C, D), ReadError> {
        let (first, second, third) = self.three()?;
        let fourth = self.next()?;
        Ok((first, second, third, fourth))
    }

    pub(crate) fn five<A: Read, B: Read, C: Read, D: Read, E: Read>(
        &mut self,
    ) -> Result<(A, B, C, D, E), ReadError> {
        let (first, second, third, fourth) = self.four()?;
        let fifth = self.next()?;
        Ok((first, second, third, fourth, fifth))
    }

    /// So many values as the next word says.
    pub fn list<T: Read>(&mut self) -> Result<Vec<T>, ReadError> {
        let count: u64 = self.next()?;
        let mut items = Vec::new(self.alloc);
        for _ in 0..count {
            let item = self.next()?;
            if items.push(item).is_err() {
                return Err(ReadError::Memory);
            }
        }
        Ok(items)
    }

    pub fn alloc(&self) -> Global {
        self.alloc
    }
}

// Whether a value has this text.
fn has_text<T: Text>(alloc: Global, value: &T, text: &[u8]) -> Result<bool, AllocError>
    ensures { result ≡ Ok true → T.text value.now ≡ word text.now }
{
    let mut wanted = Vec::new(alloc);
    wanted.push(b' ')?;
    push_text(&mut wanted, text)?;
    let mut written = Vec::new(alloc);
    value.write(&mut written)?;
    Ok(written.as_slice() == wanted.as_slice())
}

/// The value that has this text. What was read is written again and compared, so that no text is taken for another.
pub fn read_text<T: Read>(alloc: Global, text: &[u8]) -> Result<T, ReadError>
    ensures { IfOk result (λ value. T.text value ≡ word text.now) }
{
    let value = T::read(&mut Words::new(alloc, text))?;
    match has_text(alloc, &value, text) {
        Ok(true) => Ok(value),
        Ok(false) => Err(ReadError::Bad),
        Err(_) => Err(ReadError::Memory),
    }
}
