ghost use Rattle.std.specs.Prelude.{◌≡◌};

use std::marker::Model;

/// Numbers with the counts that are taken back of them, as `struct fuse_forget_one` has each.
#[derive(Drop)]
pub struct ForgetList {
    pairs: Vec<(u64, u64)>,
}

impl Model for ForgetList {
    ghost use Rattle.std.specs.Prelude.{List, ℕ};

    ghost Value = { List (ℕ × ℕ) };

    ghost view = { λ list. list.pairs.items };
}

impl ForgetList {
    /// The vector's pairs, which takes no memory.
    pub fn from_vec(pairs: Vec<(u64, u64)>) -> Self
        ensures { result ≡ pairs.items }
    {
        ForgetList { pairs }
    }

    pub fn as_slice(&self) -> &[(u64, u64)]
        ensures { result.now ≡ self.now }
    {
        self.pairs.as_slice()
    }
}
