ghost use Rattle.std.specs.Prelude.{◌≡◌, ◌<◌, ◌+◌, ◌++◌, ◌/◌, ◌%◌, length, OnOk};
ghost use Rattle.pt_show.specs.Texts.{number_text, signed_text, bytes_text, switch_text, option_text, items_text};

use crate::text::Text;
use pt_host::Bytes;
use pt_text::{push_byte_word, push_decimal, push_signed, push_text};
use std::alloc::AllocError;

/// Appends a name, given with the space before it; it is mostly a constant.
#[inline(always)]
pub(crate) fn push_name(out: &mut Vec<u8>, name: &[u8]) -> Result<(), AllocError>
    ensures { OnOk result (out.new.items ≡ out.old.items ++ name.now) }
{
    push_text(out, name)
}

/// Appends such a name and one value.
#[inline(always)]
pub(crate) fn push_named<T: Text>(
    out: &mut Vec<u8>,
    name: &[u8],
    value: &T,
) -> Result<(), AllocError>
    ensures { OnOk result (out.new.items ≡ out.old.items ++ (name.now ++ T.text value.now)) }
{
    push_name(out, name)?;
    value.write(out)
}

/// Appends a name and two values.
pub(crate) fn push_two<A: Text, B: Text>(
    out: &mut Vec<u8>,
    name: &[u8],
    first: &A,
    second: &B,
) -> Result<(), AllocError>
    ensures { OnOk result
        (out.new.items ≡ out.old.items ++ (name.now ++ A.text first.now ++ B.text second.now)) }
{
    push_named(out, name, first)?;
    second.write(out)
}

/// Appends a name and three values.
pub(crate) fn push_three<A: Text, B: Text, C: Text>(
    out: &mut Vec<u8>,
    name: &[u8],
    first: &A,
    second: &B,
    third: &C,
) -> Result<(), AllocError>
    ensures { OnOk result (out.new.items ≡ out.old.items
        ++ (name.now ++ A.text first.now ++ B.text second.now ++ C.text third.now)) }
{
    push_two(out, name, first, second)?;
    third.write(out)
}

/// Appends a name and four values.
pub(crate) fn push_four<A: Text, B: Text, C: Text, D: Text>(
    out: &mut Vec<u8>,
    name: &[u8],
    first: &A,
    second: &B,
    third: &C,
    fourth: &D,
) -> Result<(), AllocError>
    ensures { OnOk result (out.new.items
        ≡ out.old.items ++ (name.now ++ A.text first.now ++ B.text second.now ++ C.text third.now
        ++ D.text fourth.now)) }
{
    push_three(out, name, first, second, third)?;
    fourth.write(out)
}

/// Appends a name and five values.
pub(crate) fn push_five<A: Text, B: Text, C: Text, D: Text, E: Text>(
    out: &mut Vec<u8>,
    name: &[u8],
    first: &A,
    second: &B,
    third: &C,
    fourth: &D,
    fifth: &E,
) -> Result<(), AllocError>
    ensures { OnOk result (out.new.items
        ≡ out.old.items
        ++ (name.now ++ A.text first.now ++ B.text second.now ++ C.text third.now ++ D.text fourth.now
        ++ E.text fifth.now)) }
{
    push_four(out, name, first, second, third, fourth)?;
    fifth.write(out)
}

// The tens and the ones of each number below 100: to look them up is cheaper than to divide.
static TENS: [u8; 100] =
    *b"0000000000111111111122222222223333333333444444444455555555556666666666777777777788888888889999999999";

static ONES: [u8; 100] =
    *b"0123456789012345678901234567890123456789012345678901234567890123456789012345678901234567890123456789";

fn tens(number: u64) -> u8
    requires { number < 100 }
    ensures { result ≡ 48 + number / 10 }
{
    TENS[number as usize]
}

fn ones(number: u64) -> u8
    requires { number < 100 }
    ensures { result ≡ 48 + number % 10 }
{
    ONES[number as usize]
}

// Appends a number of any size.
#[inline(never)]
fn push_long(out: &mut Vec<u8>, number: u64) -> Result<(), AllocError>
    ensures { OnOk result (out.new.items ≡ out.old.items ++ number_text number) }
{
    out.push(b' ')?;
    push_decimal(out, number)
}

/// Appends a number in decimal. One of up to five digits, as most are, is appended whole where there is room.
#[inline(never)]
fn push_number(out: &mut Vec<u8>, number: u64) -> Result<(), AllocError>
    ensures { OnOk result (out.new.items ≡ out.old.items ++ number_text number) }
{
    if out.capacity() - out.len() < 6 {
        return push_long(out, number);
    }
    match number {
        0..=9 => out.extend_from_slice(&[b' ', b'0' + number as u8]),
        10..=99 => out.extend_from_slice(&[b' ', tens(number), ones(number)]),
        100..=999 => {
            let (high, low) = (number / 100, number % 100);
            out.extend_from_slice(&[b' ', ones(high), tens(low), ones(low)])
        }
        1000..=9999 => {
            let (high, low) = (number / 100, number % 100);
            out.extend_from_slice(&[b' ', tens(high), ones(high), tens(low), ones(low)])
        }
        10000..=99999 => {
            let (top, high, low) = (number / 10000, number / 100 % 100, number % 100);
            out.extend_from_slice(&[
                b' ',
                ones(top),
                tens(high),
                ones(high),
                tens(low),
                ones(low),
            ])
        }
        _ => push_long(out, number),
    }
}

impl Text for u64 {
    ghost text = { number_text };

    fn write(&self, out: &mut Vec<u8>) -> Result<(), AllocError> {
        push_number(out, *self)
    }
}

impl Text for u32 {
    ghost text = { number_text };

    fn write(&self, out: &mut Vec<u8>) -> Result<(), AllocError> {
        u64::from(*self).write(out)
    }
}

impl Text for i64 {
    ghost text = { signed_text };

    fn write(&self, out: &mut Vec<u8>) -> Result<(), AllocError> {
        let number = *self;
        if number >= 0 {
            return push_number(out, number as u64);
        }
        out.push(b' ')?;
        push_signed(out, number)
    }
}

impl Text for i32 {
    ghost text = { signed_text };

    fn write(&self, out: &mut Vec<u8>) -> Result<(), AllocError> {
        i64::from(*self).write(out)
    }
}

impl Text for bool {
    ghost text = { switch_text };

    fn write(&self, out: &mut Vec<u8>) -> Result<(), AllocError> {
        push_number(out, u64::from(*self))
    }
}

/// Appends bytes as a word.
pub(crate) fn push_bytes(out: &mut Vec<u8>, bytes: &[u8]) -> Result<(), AllocError>
    ensures { OnOk result (out.new.items ≡ out.old.items ++ bytes_text bytes.now) }
{
    out.push(b' ')?;
    push_byte_word(out, bytes)
}

impl Text for &[u8] {
    ghost text = { λ bytes. bytes_text bytes.now };

    fn write(&self, out: &mut Vec<u8>) -> Result<(), AllocError> {
        push_bytes(out, self)
    }
}

impl Text for Bytes {
    ghost text = { bytes_text };

    fn write(&self, out: &mut Vec<u8>) -> Result<(), AllocError> {
        push_bytes(out, self.as_slice())
    }
}

impl<T: Text> Text for Option<T> {
    ghost text = { option_text T.text };

    fn write(&self, out: &mut Vec<u8>) -> Result<(), AllocError> {
        match self {
            None => push_name(out, b" -"),
            Some(value) => {
                push_name(out, b" +")?;
                value.write(out)
            }
        }
    }
}

/// A reference has the text of its value.
impl<T: Text> Text for &T {
    ghost text = { λ value. T.text value.now };

    fn write(&self, out: &mut Vec<u8>) -> Result<(), AllocError> {
        (**self).write(out)
    }
}

/// A list is its length and its items.
impl<T: Text> Text for &[T] {
    ghost text = { λ items. number_text (length items.now) ++ items_text T.text items.now };

    fn write(&self, out: &mut Vec<u8>) -> Result<(), AllocError> {
        (self.len() as u64).write(out)?;
        for item in *self {
            item.write(out)?;
        }
        Ok(())
    }
}
