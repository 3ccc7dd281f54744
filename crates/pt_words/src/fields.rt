ghost use Rattle.std.specs.Prelude.{◌≡◌, IfOk, OnOk, Some, None, ◌≢◌, ◌∷◌, ◌++◌, []};
ghost use Rattle.std.specs.Str.{bytes_eq};
ghost use Rattle.pt_words.specs.Fields.{
  number_in,
  small_in,
  errno_in,
  bytes_in,
  switch_in,
  sign_in,
  optional_in,
  pair_in,
  pairs_in,
  places_in,
};

use crate::places::Places;
use pt_host::{Bytes, Errno};
use pt_text::{Parts, is_word, read_byte_word, read_number};
use std::alloc::Global;

/// Why a text is no line, or was not read as one.
#[derive(Clone, Copy, Debug)]
pub enum LineError {
    Bad,
    Memory,
}

pub fn next_word<'a>(words: &mut Parts<'a>) -> Result<&'a [u8], LineError>
    ensures ok { IfOk result (λ word. words.old ≡ word.now ∷ words.new) }
    ensures bad { result ≡ Err LineError.Bad → words.old ≡ [] }
    ensures no_memory { result ≡ Err LineError.Memory → ⊥ }
{
    match words.next() {
        Some(word) => Ok(word),
        None => Err(LineError::Bad),
    }
}

/// A number of 64 bits.
pub fn next_number(words: &mut Parts<'_>) -> Result<u64, LineError>
    ensures ok { IfOk result (λ value. number_in words.old ≡ Some (record { value = value; rest = words.new })) }
    ensures bad { result ≡ Err LineError.Bad → number_in words.old ≡ None }
    ensures no_memory { result ≡ Err LineError.Memory → ⊥ }
{
    if let Some(number) = words.next_short_number() {
        return Ok(u64::from(number));
    }
    let word = next_word(words)?;
    read_number(word).ok_or(LineError::Bad)
}

/// A number of 32 bits.
pub fn next_small(words: &mut Parts<'_>) -> Result<u32, LineError>
    ensures ok { IfOk result (λ value. small_in words.old ≡ Some (record { value = value; rest = words.new })) }
    ensures bad { result ≡ Err LineError.Bad → small_in words.old ≡ None }
    ensures no_memory { result ≡ Err LineError.Memory → ⊥ }
{
    if let Some(number) = words.next_short_number() {
        return Ok(number);
    }
    let word = next_word(words)?;
    match read_number(word) {
        Some(number) if number <= 0xffff_ffff => Ok(number as u32),
        _ => Err(LineError::Bad),
    }
}

/// An error number, from 1 to 133.
pub fn next_errno(words: &mut Parts<'_>) -> Result<Errno, LineError>
    ensures ok { IfOk result (λ errno. errno_in words.old ≡ Some (record { value = errno; rest = words.new })) }
    ensures bad { result ≡ Err LineError.Bad → errno_in words.old ≡ None }
    ensures no_memory { result ≡ Err LineError.Memory → ⊥ }
{
    let word = next_word(words)?;
    match read_number(word) {
        Some(number) if number > 0 && number < 134 => Ok(Errno(number as i32)),
        _ => Err(LineError::Bad),
    }
}

/// Bytes as a word.
pub fn next_bytes(alloc: Global, words: &mut Parts<'_>) -> Result<Bytes, LineError>
    ensures ok { IfOk result (λ value. bytes_in words.old ≡ Some (record { value = value; rest = words.new })) }
    ensures bad { result ≡ Err LineError.Bad → bytes_in words.old ≡ None }
{
    let word = next_word(words)?;
    match read_byte_word(alloc, word) {
        Ok(Some(bytes)) => Ok(Bytes::from_vec(bytes)),
        Ok(None) => Err(LineError::Bad),
        Err(_) => Err(LineError::Memory),
    }
}

/// A switch, `0` or `1`.
pub fn next_switch(words: &mut Parts<'_>) -> Result<bool, LineError>
    ensures ok { IfOk result (λ value. switch_in words.old ≡ Some (record { value = value; rest = words.new })) }
    ensures bad { result ≡ Err LineError.Bad → switch_in words.old ≡ None }
    ensures no_memory { result ≡ Err LineError.Memory → ⊥ }
{
    let word = next_word(words)?;
    if is_word(word, b"0") {
        Ok(false)
    } else if is_word(word, b"1") {
        Ok(true)
    } else {
        Err(LineError::Bad)
    }
}

/// Whether a field is told: `+` before it, or `-` in its place.
pub fn next_sign(words: &mut Parts<'_>) -> Result<bool, LineError>
    ensures ok { IfOk result (λ told. sign_in words.old ≡ Some (record { value = told; rest = words.new })) }
    ensures bad { result ≡ Err LineError.Bad → sign_in words.old ≡ None }
    ensures no_memory { result ≡ Err LineError.Memory → ⊥ }
{
    let word = next_word(words)?;
    if is_word(word, b"-") {
        Ok(false)
    } else if is_word(word, b"+") {
        Ok(true)
    } else {
        Err(LineError::Bad)
    }
}

/// A number of 64 bits behind `+`, or none for `-`.
pub fn next_optional_number(words: &mut Parts<'_>) -> Result<Option<u64>, LineError>
    ensures ok { IfOk result (λ value. optional_in number_in words.old
        ≡ Some (record { value = value; rest = words.new })) }
    ensures bad { result ≡ Err LineError.Bad → optional_in number_in words.old ≡ None }
    ensures no_memory { result ≡ Err LineError.Memory → ⊥ }
{
    if next_sign(words)? {
        Ok(Some(next_number(words)?))
    } else {
        Ok(None)
    }
}

/// A number of 32 bits behind `+`, or none for `-`.
pub fn next_optional_small(words: &mut Parts<'_>) -> Result<Option<u32>, LineError>
    ensures ok { IfOk result (λ value. optional_in small_in words.old
        ≡ Some (record { value = value; rest = words.new })) }
    ensures bad { result ≡ Err LineError.Bad → optional_in small_in words.old ≡ None }
    ensures no_memory { result ≡ Err LineError.Memory → ⊥ }
{
    if next_sign(words)? {
        Ok(Some(next_small(words)?))
    } else {
        Ok(None)
    }
}

fn next_pair(words: &mut Parts<'_>) -> Result<(u64, u64), LineError>
    ensures ok { IfOk result (λ pair. pair_in words.old ≡ Some (record { value = pair; rest = words.new })) }
    ensures bad { result ≡ Err LineError.Bad → pair_in words.old ≡ None }
    ensures no_memory { result ≡ Err LineError.Memory → ⊥ }
{
    let first = next_number(words)?;
    let second = next_number(words)?;
    Ok((first, second))
}

// Reads a pair of numbers, and puts it behind others.
fn push_pair(pairs: &mut Vec<(u64, u64)>, words: &mut Parts<'_>) -> Result<(u64, u64), LineError>
    ensures ok { IfOk result (λ pair. pair_in words.old ≡ Some (record { value = pair; rest = words.new })) }
    ensures pushed { IfOk result (λ pair. pairs.new.items ≡ pairs.old.items ++ pair ∷ []) }
    ensures bad { result ≡ Err LineError.Bad → pair_in words.old ≡ None }
{
    let pair = next_pair(words)?;
    match pairs.push(pair) {
        Ok(()) => Ok(pair),
        Err(_) => Err(LineError::Memory),
    }
}

/// So many pairs of numbers.
pub fn next_pairs(
    alloc: Global,
    count: u64,
    words: &mut Parts<'_>,
) -> Result<Vec<(u64, u64)>, LineError>
    ensures ok { IfOk result (λ pairs. pairs_in count words.old
        ≡ Some (record { value = pairs.items; rest = words.new })) }
    ensures bad { result ≡ Err LineError.Bad → pairs_in count words.old ≡ None }
{
    let mut pairs = Vec::new(alloc);
    let mut left = count;
    'pairs: while left > 0 {
        match push_pair(&mut pairs, words) {
            Ok(_) => left -= 1,
            Err(error) => return Err(error),
        }
    }
    Ok(pairs)
}

// Reads a number of 32 bits, and puts it behind others.
fn push_place(places: &mut Places, words: &mut Parts<'_>) -> Result<u32, LineError>
    ensures ok { IfOk result (λ place. small_in words.old ≡ Some (record { value = place; rest = words.new })) }
    ensures pushed { IfOk result (λ place. places.new ≡ places.old ++ place ∷ []) }
    ensures bad { result ≡ Err LineError.Bad → small_in words.old ≡ None }
{
    let place = next_small(words)?;
    match places.push(place) {
        Ok(()) => Ok(place),
        Err(_) => Err(LineError::Memory),
    }
}

/// A line of the schedule has room for so many places before it grows.
const USUAL_PLACES: usize = 16;

/// Places, to the last word.
pub fn next_places(alloc: Global, words: &mut Parts<'_>) -> Result<Places, LineError>
    ensures ok { IfOk result (λ places. places_in words.old ≡ Some places) }
    ensures bad { result ≡ Err LineError.Bad → places_in words.old ≡ None }
{
    let Ok(mut places) = Places::with_room(alloc, USUAL_PLACES) else {
        return Err(LineError::Memory);
    };
    // most are short, and are taken from a copy that no call is handed, which the loop keeps in registers
    let mut rest = words.left();
    'short: while let Some(place) = rest.next_short_number() {
        match places.push(place) {
            Ok(()) => {}
            Err(_) => return Err(LineError::Memory),
        }
    }
    *words = rest;
    'places: while !words.is_empty() {
        match push_place(&mut places, words) {
            Ok(_) => {}
            Err(error) => return Err(error),
        }
    }
    Ok(places)
}

/// Nothing more.
pub fn end(words: &Parts<'_>) -> Result<(), LineError>
    ensures ok { OnOk result (words.now ≡ []) }
    ensures bad { result ≡ Err LineError.Bad → words.now ≢ [] }
    ensures no_memory { result ≡ Err LineError.Memory → ⊥ }
{
    if words.is_empty() {
        Ok(())
    } else {
        Err(LineError::Bad)
    }
}
