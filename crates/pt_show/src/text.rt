ghost use Rattle.std.specs.Prelude.{◌≡◌, ◌++◌, ℕ, List, OnOk};

use std::alloc::AllocError;

/// A value that the report prints, as words that each stand behind a space.
pub trait Text {
    /// The text.
    ghost text: { Self → List ℕ };

    /// Appends the text. After an `Err` part of it may stand there.
    fn write(&self, out: &mut Vec<u8>) -> Result<(), AllocError>
        ensures { OnOk result (out.new.items ≡ out.old.items ++ text self.now) };
}
