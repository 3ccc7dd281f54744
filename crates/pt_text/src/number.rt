ghost use Rattle.std.specs.Prelude.{◌≡◌, ◌≤◌, ◌<◌, ◌^◌, ◌*◌, ◌+◌, ◌==◌, IfSome, Some, take};
ghost use Rattle.std.specs.Option.{SomeIff};
ghost use Rattle.std.specs.List.{position_or_len};
ghost use Rattle.pt_text.specs.Number.{numeral_after, numeral, number_of, below};

/// The number that a word writes, where it is one and fits.
pub fn read_number(word: &[u8]) -> Option<u64>
    ensures { result ≡ below (2 ^ 64) (number_of word.now) }
{
    match word {
        [b'0', b'o', digits @ ..] => read_numeral(8, digits),
        _ => read_numeral(10, word),
    }
}

fn read_numeral(base: u32, digits: &[u8]) -> Option<u64>
    requires low { 2 ≤ base }
    requires high { base ≤ 36 }
    ensures { result ≡ below (2 ^ 64) (numeral base digits.now) }
{
    match digits {
        [] | [b'0', _, ..] => None,
        _ => read_digits(base, digits),
    }
}

fn read_digits(base: u32, digits: &[u8]) -> Option<u64>
    requires low { 2 ≤ base }
    requires high { base ≤ 36 }
    ensures { result ≡ below (2 ^ 64) (numeral_after base 0 digits.now) }
{
    let mut number: u64 = 0;
    for c in digits {
        let digit = char::from(*c).to_digit(base)?;
        number = with_digit(number, base, digit)?;
    }
    Some(number)
}

fn with_digit(number: u64, base: u32, digit: u32) -> Option<u64>
    ensures { SomeIff result (number * base + digit < 2 ^ 64) (number * base + digit) }
{
    number
        .checked_mul(u64::from(base))?
        .checked_add(u64::from(digit))
}

/// So many digits write no number that takes more than 32 bits.
const FEW_DIGITS: usize = 9;

/// The number that the first word of a text writes in few decimal digits, and how many these are.
#[inline(always)]
pub fn first_number(text: &[u8]) -> Option<(u32, usize)>
    ensures number { IfSome result (λ read. number_of (take read.1 text.now) ≡ Some read.0) }
    ensures word { IfSome result (λ read. read.1 ≡ position_or_len (λ b. b == 32) text.now) }
{
    let most = text.len().min(FEW_DIGITS);
    let mut number: u32 = 0;
    let mut count = 0;
    while count < most && text[count].is_ascii_digit() {
        number = number * 10 + u32::from(text[count] - b'0');
        count += 1;
    }
    if count == 0 || count > 1 && text[0] == b'0' {
        return None;
    }
    if count < text.len() && text[count] != b' ' {
        return None;
    }
    Some((number, count))
}
