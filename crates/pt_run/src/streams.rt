ghost use Rattle.std.specs.Prelude.{◌≡◌, ◌≤◌, ◌<◌, ℕ, List, Option, IfOk, OnOk, OnErr, length};
ghost use Rattle.pt_host.specs.Promises.{HasRisen};
ghost use Rattle.pt_run.specs.Streams.{IsPulled, IsPushed};

/// A reading or a writing that failed.
#[derive(Clone, Copy, Debug, PartialEq, Eq)]
pub struct Failed;

/// Where bytes come from.
pub trait Source {
    /// The bytes that are left, where it tells.
    ghost left: { Self → Option (List ℕ) };

    /// How many faults it has had.
    ghost faults: { Self → ℕ };

    /// Fills the front of the buffer, and answers with how many bytes. 0 into a buffer that is not empty is the end.
    fn pull(&mut self, buf: &mut [u8]) -> Result<usize, Failed>
        ensures within { IfOk result (λ count. count ≤ length buf.old) }
        ensures pulled { IfOk result (λ count. IsPulled (left self.old) buf.new count (left self.new)) }
        ensures kept { OnErr result (left self.new ≡ left self.old) }
        ensures fault { OnErr result (HasRisen (faults self.old) (faults self.new)) }
        ensures no_fault { OnOk result (faults self.new ≡ faults self.old) }
        ensures never_falls { faults self.old ≤ faults self.new };
}

/// Where bytes go.
pub trait Sink {
    /// The bytes that were written, where it tells.
    ghost written: { Self → Option (List ℕ) };

    /// How many faults it has had.
    ghost faults: { Self → ℕ };

    /// Writes the front of the piece, and answers how many bytes. Of a piece that is not empty it takes one at least.
    fn push(&mut self, piece: &[u8]) -> Result<usize, Failed>
        ensures within { IfOk result (λ count. count ≤ length piece.now) }
        ensures some { 0 < length piece.now → IfOk result (λ count. 0 < count) }
        ensures pushed { IfOk result (λ count. IsPushed (written self.old) piece.now count (written self.new)) }
        ensures kept { OnErr result (written self.new ≡ written self.old) }
        ensures fault { OnErr result (HasRisen (faults self.old) (faults self.new)) }
        ensures no_fault { OnOk result (faults self.new ≡ faults self.old) }
        ensures never_falls { faults self.old ≤ faults self.new };
}
