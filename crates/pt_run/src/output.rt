ghost use Rattle.std.specs.Prelude.{◌≡◌, ◌≤◌, ◌++◌, ◌∷◌, [], List, ℕ, Option, OnOk, OnErr, Err, codes};
ghost use Rattle.pt_host.specs.Promises.{HasRisen};
ghost use Rattle.pt_run.specs.Output.{IsWritten, IsFrontWritten};

use crate::streams::{Failed, Sink};

/// Writes all of a piece.
pub(crate) fn push_all<O: Sink>(output: &mut O, piece: &[u8]) -> Result<(), Failed>
    ensures ok { OnOk result (IsWritten (O.written output.old) piece.now (O.written output.new)) }
    ensures err { OnErr result (IsFrontWritten (O.written output.old) piece.now (O.written output.new)) }
    ensures fault { OnErr result (HasRisen (O.faults output.old) (O.faults output.new)) }
    ensures no_fault { OnOk result (O.faults output.new ≡ O.faults output.old) }
    ensures never_falls { O.faults output.old ≤ O.faults output.new }
{
    let mut rest = piece;
    while !rest.is_empty() {
        let count = output.push(rest)?;
        rest = &rest[count..];
    }
    Ok(())
}
