//! The lines of a text, one by one.

use pt_text::push_text;
use std::alloc::{AllocError, Global};

/// A line, the lines behind it, and its number from 1 on.
#[derive(Clone, Copy)]
pub struct Line<'a> {
    pub alloc: Global,
    pub text: &'a [u8],
    pub behind: &'a [&'a [u8]],
    pub number: u64,
}

/// The lines of a text; its last one may lack its end.
pub fn lines_of(alloc: Global, text: &[u8]) -> Result<Vec<&[u8]>, AllocError> {
    if text.is_empty() {
        return Ok(Vec::new(alloc));
    }
    let text = text.strip_suffix(b"\n").unwrap_or(text);
    text.split(|byte| *byte == b'\n').collect(alloc)
}

/// Whether a line begins a case: `== ` and a name of bytes that can be seen, or spaces.
pub fn begins_case(line: &[u8]) -> bool {
    match line.strip_prefix(b"== ") {
        Some(name) => !name.is_empty() && name.iter().all(|byte| *byte >= b' ' && *byte <= b'~'),
        None => false,
    }
}

/// A line as it was read.
pub fn push_line(out: &mut Vec<u8>, line: &[u8]) -> Result<(), AllocError> {
    push_text(out, line)?;
    push_text(out, b"\n")
}

/// A line and what it is answered.
pub fn push_answered(out: &mut Vec<u8>, line: &[u8], told: &[u8]) -> Result<(), AllocError> {
    push_text(out, line)?;
    push_text(out, b" =")?;
    push_line(out, told)
}
