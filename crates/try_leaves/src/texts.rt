//! Numbers and bytes as words, both ways, and the parts of a text.

use pt_text::{
    Parts, push_byte_word, push_decimal, push_signed, push_text, read_byte_word, read_number,
};
use std::alloc::{AllocError, Global};

/// Bytes as numbers.
fn bytes_in(alloc: Global, words: &[&str]) -> Result<Vec<u8>, AllocError> {
    let mut bytes = Vec::new(alloc);
    for word in words {
        bytes.push(word.parse::<u8>().unwrap_or(0))?;
    }
    Ok(bytes)
}

/// The words of a line, or the lines that slashes part.
fn parts_in(alloc: Global, mut parts: Parts<'_>, most: usize) -> Result<String, AllocError> {
    let mut told = String::new(alloc);
    for _ in 0..most {
        let Some(part) = parts.next() else {
            break;
        };
        let rest = if parts.is_empty() { "" } else { "," };
        write!(told, "{part:?}{rest}")?;
    }
    Ok(told)
}

/// The words behind the first, parted by single spaces as they were.
fn joined(alloc: Global, words: &[&str]) -> Result<Vec<u8>, AllocError> {
    let mut text = Vec::new(alloc);
    for (place, word) in words.iter().enumerate() {
        if place > 0 {
            text.push(b' ')?;
        }
        text.extend_from_slice(word.as_bytes())?;
    }
    Ok(text)
}

/// The words as lines, each ended by a line feed.
fn as_lines(alloc: Global, words: &[&str]) -> Result<Vec<u8>, AllocError> {
    let mut text = Vec::new(alloc);
    for word in words {
        text.extend_from_slice(word.as_bytes())?;
        text.push(b'\n')?;
    }
    Ok(text)
}

/// The number in decimal, as an unsigned or a signed one.
fn number_text(alloc: Global, word: &str) -> Result<Vec<u8>, AllocError> {
    let mut out = Vec::new(alloc);
    match (word.parse::<u64>(), word.parse::<i64>()) {
        (Ok(number), _) => push_decimal(&mut out, number)?,
        (Err(_), Ok(number)) => push_signed(&mut out, number)?,
        _ => push_text(&mut out, b"no number")?,
    }
    Ok(out)
}

/// The bytes that the word stands for.
fn read(alloc: Global, word: &str) -> Result<String, AllocError> {
    match read_byte_word(alloc, word.as_bytes())? {
        Some(bytes) => format!(in alloc; "{:?}", bytes.as_slice()),
        None => String::from_str(alloc, "None"),
    }
}

/// The word that stands for the bytes.
fn written(alloc: Global, bytes: &[&str]) -> Result<String, AllocError> {
    let mut out = Vec::new(alloc);
    push_byte_word(&mut out, bytes_in(alloc, bytes)?.as_slice())?;
    format!(in alloc; "{:?}", out.as_slice())
}

/// What asks for one word.
fn of_one(alloc: Global, kind: &str, word: &str) -> Result<String, AllocError> {
    match kind {
        "number" => format!(in alloc; "{:?}", read_number(word.as_bytes())),
        "read" => read(alloc, word),
        "decimal" => format!(in alloc; "{:?}", number_text(alloc, word)?.as_slice()),
        _ => String::from_str(alloc, "no call"),
    }
}

pub fn answer(alloc: Global, words: &[&str]) -> Result<String, AllocError> {
    match words {
        ["write", bytes @ ..] => written(alloc, bytes),
        ["words", rest @ ..] => {
            let text = joined(alloc, rest)?;
            parts_in(alloc, Parts::words(text.as_slice()), 100)
        }
        ["lines", rest @ ..] => {
            let text = as_lines(alloc, rest)?;
            parts_in(alloc, Parts::lines(text.as_slice()), 100)
        }
        [kind, word] => of_one(alloc, kind, word),
        _ => String::from_str(alloc, "no call"),
    }
}
