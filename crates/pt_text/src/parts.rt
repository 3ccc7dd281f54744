ghost use Rattle.std.specs.Prelude.{◌≡◌, ◌∷◌, [], ◌↔◌, ◌==◌, IsTrue, IfNone, IfSome, position, take};
ghost use Rattle.std.specs.List.{position_or_len};
ghost use Rattle.pt_text.specs.Words.{words_of, lines_of, parts_of, parts_left};
ghost use Rattle.pt_text.specs.Number.{BeginWith};

use crate::number::first_number;
use memchr::memchr;
use std::marker::Model;

/// The parts of a text that are still to be read, in order.
#[derive(Drop)]
pub struct Parts<'a> {
    separator: u8,
    rest: Option<&'a [u8]>,
}

impl<'a> Model for Parts<'a> {
    ghost use Rattle.std.specs.Prelude.{List, ℕ};
    ghost use Rattle.pt_text.specs.Words.{parts_left};

    ghost Value = { List (List ℕ) };

    ghost view = { λ parts. parts_left parts.separator parts.rest };
}

impl<'a> Parts<'a> {
    /// The words of a line.
    pub fn words(line: &'a [u8]) -> Self
        ensures { result ≡ words_of line.now }
    {
        Parts {
            separator: b' ',
            rest: Some(line),
        }
    }

    /// The lines of a text.
    pub fn lines(text: &'a [u8]) -> Self
        ensures { result ≡ lines_of text.now }
    {
        Parts {
            separator: b'\n',
            rest: Some(text),
        }
    }

    /// The parts that are left, to be read by themselves.
    #[inline(always)]
    pub fn left(&self) -> Self
        ensures { result ≡ self.now }
    {
        Parts {
            separator: self.separator,
            rest: self.rest,
        }
    }

    /// Takes the next part.
    pub fn next(&mut self) -> Option<&'a [u8]>
        ensures some { IfSome result (λ part. self.old ≡ part.now ∷ self.new) }
        ensures none { IfNone result (self.old ≡ []) }
        ensures none_left { IfNone result (self.new ≡ []) }
    {
        let text = self.rest?;
        let (part, rest) = first_part(text, self.separator);
        self.rest = rest;
        Some(part)
    }

    /// Takes the next word where it is a number of few decimal digits, and nothing otherwise.
    #[inline(always)]
    pub fn next_short_number(&mut self) -> Option<u32>
        ensures some { IfSome result (λ number. BeginWith self.old number self.new) }
        ensures none { IfNone result (self.new ≡ self.old) }
    {
        let text = self.rest?;
        if self.separator != b' ' {
            return None;
        }
        let (number, count) = first_number(text)?;
        self.rest = behind(text, count);
        Some(number)
    }

    pub fn is_empty(&self) -> bool
        ensures { IsTrue result ↔ (self.now ≡ []) }
    {
        self.rest.is_none()
    }
}

fn first_part(text: &[u8], separator: u8) -> (&[u8], Option<&[u8]>)
    ensures { parts_of separator text.now ≡ result.0.now ∷ parts_left separator result.1 }
{
    match place_of(text, separator) {
        Some(place) => (&text[..place], Some(&text[place + 1..])),
        None => (text, None),
    }
}

// What is left of a text behind its first word, which is so long.
fn behind(text: &[u8], count: usize) -> Option<&[u8]>
    requires { count ≡ position_or_len (λ b. b == 32) text.now }
    ensures { parts_of 32 text.now ≡ take count text.now ∷ parts_left 32 result }
{
    if count < text.len() {
        Some(&text[count + 1..])
    } else {
        None
    }
}

#[inline(always)]
fn place_of(text: &[u8], separator: u8) -> Option<usize>
    ensures { result ≡ position (λ b. b == separator) text.now }
{
    // a word is short, and a line may be long
    if separator == b' ' {
        text.iter().position(|b| *b == b' ')
    } else {
        far_place_of(text, separator)
    }
}

// The same, for a place that may be far: not inlined, so that what reads words stays small.
#[inline(never)]
fn far_place_of(text: &[u8], separator: u8) -> Option<usize>
    ensures { result ≡ position (λ b. b == separator) text.now }
{
    memchr(separator, text)
}
