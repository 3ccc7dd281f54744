ghost use Rattle.std.specs.Prelude.{◌≡◌, ◌<◌, IfOk, IfNone, IfSome, IsTrue, length};
ghost use Rattle.std.specs.Option.{option_map, SomeIff};
ghost use Rattle.std.specs.Char.{digit_value};
ghost use Rattle.pt_text.specs.ByteWord.{bytes_of, unescaped, escape_of, is_hex_digit, behind};

use crate::write::stands_for_itself;
use std::alloc::{AllocError, Global};

/// The bytes that a word writes, where it writes any.
pub fn read_byte_word(alloc: Global, word: &[u8]) -> Result<Option<Vec<u8>>, AllocError>
    ensures { IfOk result (λ read. option_map (λ v. v.items) read ≡ bytes_of word.now) }
{
    match word {
        [] => Ok(None),
        [b'%', b'-'] => Ok(Some(Vec::new(alloc))),
        _ => read_escaped(alloc, word),
    }
}

fn read_escaped(alloc: Global, word: &[u8]) -> Result<Option<Vec<u8>>, AllocError>
    ensures { IfOk result (λ read. option_map (λ v. v.items) read ≡ unescaped word.now) }
{
    let mut bytes = Vec::new(alloc);
    let mut rest = word;
    while !rest.is_empty() {
        let Some((byte, after)) = first_byte(rest) else {
            return Ok(None);
        };
        bytes.push(byte)?;
        rest = after;
    }
    Ok(Some(bytes))
}

// The first byte that a text of bytes and escapes writes, and the text behind it.
fn first_byte(text: &[u8]) -> Option<(u8, &[u8])>
    requires { 0 < length text.now }
    ensures none { IfNone result (unescaped text.now ≡ None) }
    ensures first { IfSome result (λ read. unescaped text.now ≡ behind (Some read.0) (unescaped read.1.now)) }
    ensures shorter { IfSome result (λ read. length read.1.now < length text.now) }
{
    let byte = text[0];
    if stands_for_itself(byte) {
        Some((byte, &text[1..]))
    } else if byte == b'%' && text.len() >= 3 {
        let byte = escaped_byte(text[1], text[2])?;
        Some((byte, &text[3..]))
    } else {
        None
    }
}

fn escaped_byte(high: u8, low: u8) -> Option<u8>
    ensures { result ≡ escape_of high low }
{
    let byte = 16 * hex_value(high)? + hex_value(low)?;
    if stands_for_itself(byte) {
        None
    } else {
        Some(byte)
    }
}

fn hex_value(digit: u8) -> Option<u8>
    ensures { SomeIff result (IsTrue (is_hex_digit digit)) (digit_value digit) }
{
    match digit {
        b'0'..=b'9' => Some(digit - b'0'),
        b'a'..=b'f' => Some(digit - b'a' + 10),
        _ => None,
    }
}
