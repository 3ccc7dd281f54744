ghost use Rattle.std.specs.Prelude.{◌≡◌, ℕ, List};
ghost use Rattle.pt_frame.specs.Machine.Walk.{Reads};
ghost use Rattle.pt_frame.specs.Tree.{RequestTree};
ghost use Rattle.pt_frame.specs.declared.told.Heard.{Heard};
ghost use Rattle.pt_req.specs.Entries.{is_bad_offset};
ghost use Rattle.pt_req.specs.Parts.{placed};

use pt_frame::{Asked, Stop};
use pt_host::Errno;
use pt_iface::Answer;

/// Whether the host's `off_t` cannot hold it.
pub fn is_bad_offset(offset: u64) -> bool
    ensures { result ≡ is_bad_offset offset }
{
    offset > i64::MAX as u64
}

/// An offset that is none is refused.
#[tactic(auto, using(pt_frame::proofs::Reading::gives, pt_frame::proofs::Reading::rest), unfolding(crate::specs::Parts::placed))]
pub fn placed<'a>(offset: u64) -> Asked<'a, ()>
    ensures { (told : List Heard) (at : ℕ) (next : RequestTree) →
        Reads told at at result (placed offset next) (λ done. next) }
{
    if is_bad_offset(offset) {
        return Err(Stop::Gives(Answer::Refused(Errno::EINVAL)));
    }
    Ok(())
}
