ghost use Rattle.std.specs.Prelude.{◌≡◌};
ghost use Rattle.std.specs.Str.{bytes_eq};

/// Whether a word is this one. A loop over a length that is known where it is called costs less than `==` does.
#[inline(always)]
pub fn is_word<const N: usize>(word: &[u8], name: &[u8; N]) -> bool
    ensures { result ≡ bytes_eq word.now name.now }
{
    if word.len() != N {
        return false;
    }
    for place in 0..N {
        if word[place] != name[place] {
            return false;
        }
    }
    true
}
