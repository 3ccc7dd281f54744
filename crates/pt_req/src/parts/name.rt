ghost use Rattle.std.specs.Prelude.{◌≡◌, ℕ, List};
ghost use Rattle.pt_frame.specs.Machine.Walk.{Reads};
ghost use Rattle.pt_frame.specs.Tree.{RequestTree};
ghost use Rattle.pt_frame.specs.declared.told.Heard.{Heard};
ghost use Rattle.std.specs.List.{list_any};
ghost use Rattle.pt_req.specs.Entries.{is_bad_byte, is_dots, is_bad_name};
ghost use Rattle.pt_req.specs.Parts.{named};

use pt_frame::{Asked, Stop};
use pt_host::{Bytes, Errno};
use pt_iface::Answer;

fn is_bad_byte(byte: u8) -> bool
    ensures { result ≡ is_bad_byte byte }
{
    byte == b'/' || byte == 0
}

fn has_bad_byte(name: &[u8]) -> bool
    ensures { result ≡ list_any is_bad_byte name.now }
{
    name.iter().any(|byte| is_bad_byte(*byte))
}

fn is_dots(name: &[u8]) -> bool
    ensures { result ≡ is_dots name.now }
{
    match name {
        [first] => *first == b'.',
        [first, second] => *first == b'.' && *second == b'.',
        _ => false,
    }
}

/// Whether it is no name of an entry: empty, `.`, `..`, or with a slash or a NUL.
pub fn is_bad_name(name: &[u8]) -> bool
    ensures { result ≡ is_bad_name name.now }
{
    name.is_empty() || is_dots(name) || has_bad_byte(name)
}

/// A name that is none is refused.
#[tactic(auto, using(pt_frame::proofs::Reading::gives, pt_frame::proofs::Reading::rest), unfolding(crate::specs::Parts::named))]
pub fn named<'a>(name: &Bytes) -> Asked<'a, ()>
    ensures { (told : List Heard) (at : ℕ) (next : RequestTree) →
        Reads told at at result (named name.now next) (λ done. next) }
{
    if is_bad_name(name.as_slice()) {
        return Err(Stop::Gives(Answer::Refused(Errno::EINVAL)));
    }
    Ok(())
}
