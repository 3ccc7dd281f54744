ghost use Rattle.std.specs.Prelude.{◌≡◌, ◌++◌, ◌∷◌, ◌==◌, ℕ, List, IfNone, IfSome, position};
ghost use Rattle.pt_handles.specs.Record.{HasNoNul};

/// Where the first NUL is.
pub(crate) fn first_nul(bytes: &[u8]) -> Option<usize>
    ensures { result ≡ position (λ byte. byte == 0) bytes.now }
{
    bytes.iter().position(|byte| *byte == 0)
}

/// The bytes before the first NUL, which ends a name in a record of a listing. None where there is no NUL.
pub fn strip_padding(b: &[u8]) -> Option<&[u8]>
    ensures name { IfSome result (λ name. HasNoNul name.now) }
    ensures nul { IfSome result (λ name. (rest : List ℕ) × (b.now ≡ name.now ++ 0 ∷ rest)) }
    ensures none { IfNone result (HasNoNul b.now) }
{
    match first_nul(b) {
        Some(end) => Some(&b[..end]),
        None => None,
    }
}
