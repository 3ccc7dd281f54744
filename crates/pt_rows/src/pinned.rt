//! What all rows have that are kept so.
ghost use Rattle.std.specs.Prelude.{◌≡◌, ℕ};
ghost use Rattle.pt_rows.specs.Rows.{Keyed};
ghost use Rattle.pt_rows.specs.Same.{IsSame, IsDead};

/// A row that stays until its last pin is given back.
pub trait Pinned: Drop {
    ghost keyed: { Keyed Self };

    /// The same row once more, which takes no memory.
    fn copy(&self) -> Self
        ensures { result ≡ self.now };

    fn serial(&self) -> u64
        ensures { result ≡ keyed.serial self.now };

    /// What it is found by while it is live.
    fn key(&self) -> u64
        ensures { result ≡ keyed.key self.now };

    /// The class that it is counted in.
    fn class(&self) -> u32
        ensures { result ≡ keyed.class self.now };

    fn pins(&self) -> u64
        ensures { result ≡ keyed.pins self.now };

    fn is_live(&self) -> bool
        ensures { result ≡ keyed.live self.now };

    fn with_pins(&self, pins: u64) -> Self
        ensures { result ≡ keyed.repinned self.now pins };

    /// The row as it stays for its pins once it is live no more.
    fn dead(&self) -> Self
        ensures { result ≡ keyed.dead self.now };

    ghost repins: { (row : Self) → (pins : ℕ) → IsSame keyed row (keyed.repinned row pins) };

    ghost dies: { (row : Self) → IsDead keyed row (keyed.dead row) };
}
