ghost use Rattle.std.specs.Prelude.{⊤, ◌≡◌, ◌==◌, [], ◌∷◌, codes};
ghost use Rattle.std.specs.Int.RustNames.{bit_and, bit_or};
ghost use Rattle.pt_host.specs.Flags.{includes};

use bitflags::{Flag, Flags, bitflag_items};

/// The flags of `open(2)` on x86-64 Linux. Unknown bits are kept.
#[derive(Clone, Copy, Debug, PartialEq, Eq)]
pub struct OpenFlags(pub u32);

bitflag_items! {
    impl OpenFlags: u32 {
        const O_WRONLY = 1;
        const O_RDWR = 2;
        const O_CREAT = 0o100;
        const O_EXCL = 0o200;
        const O_TRUNC = 0o1000;
        const O_APPEND = 0o2000;
        const O_NONBLOCK = 0o4000;
        const O_DIRECT = 0o40000;
        const O_DIRECTORY = 0o200000;
        const O_NOFOLLOW = 0o400000;
        const O_NOATIME = 0o1000000;
        const O_CLOEXEC = 0o2000000;
        const O_PATH = 0o10000000;
        const O_TMPFILE = 0o20200000;
    }
}

impl Flags for OpenFlags {
    type Bits = u32;

    ghost exact = { ⊤ };

    ghost table = { (codes "O_WRONLY", 1) ∷ (codes "O_RDWR", 2) ∷ (codes "O_CREAT", 64) ∷ (codes "O_EXCL", 128)
        ∷ (codes "O_TRUNC", 512) ∷ (codes "O_APPEND", 1024) ∷ (codes "O_NONBLOCK", 2048) ∷ (codes "O_DIRECT", 16384)
        ∷ (codes "O_DIRECTORY", 65536) ∷ (codes "O_NOFOLLOW", 131072) ∷ (codes "O_NOATIME", 262144)
        ∷ (codes "O_CLOEXEC", 524288) ∷ (codes "O_PATH", 2097152) ∷ (codes "O_TMPFILE", 4259840) ∷ [] };

    ghost set_of = { λ flags. flags.0 };

    fn flags<'a>() -> &'a [Flag<OpenFlags>] {
        OpenFlags::FLAGS
    }

    fn bits(&self) -> u32 {
        self.0
    }

    fn from_bits_retain(bits: u32) -> OpenFlags {
        OpenFlags(bits)
    }
}

impl OpenFlags {
    /// What a descriptor is opened with that only stands for its object: `O_PATH | O_NOFOLLOW | O_CLOEXEC`.
    pub const PATH: OpenFlags = OpenFlags(0o12400000);

    /// Whether all the bits of `other` are set.
    pub fn includes(self, other: OpenFlags) -> bool
        ensures { result ≡ includes self.0 other.0 }
    {
        self.contains(other)
    }
}

/// A set of capabilities of a seat. The places of the bits are this project's own; unknown bits are kept.
#[derive(Clone, Copy, Debug, PartialEq, Eq)]
pub struct Caps(pub u32);

bitflag_items! {
    impl Caps: u32 {
        const CHOWN = 1;
        const DAC_OVERRIDE = 2;
        const DAC_READ_SEARCH = 4;
        const FOWNER = 8;
        const FSETID = 16;
        const SETGID = 32;
        const SETUID = 64;
        const MKNOD = 128;
        const SETFCAP = 256;
    }
}

impl Flags for Caps {
    type Bits = u32;

    ghost exact = { ⊤ };

    ghost table = { (codes "CHOWN", 1) ∷ (codes "DAC_OVERRIDE", 2) ∷ (codes "DAC_READ_SEARCH", 4) ∷ (codes "FOWNER", 8)
        ∷ (codes "FSETID", 16) ∷ (codes "SETGID", 32) ∷ (codes "SETUID", 64) ∷ (codes "MKNOD", 128)
        ∷ (codes "SETFCAP", 256) ∷ [] };

    ghost set_of = { λ caps. caps.0 };

    fn flags<'a>() -> &'a [Flag<Caps>] {
        Caps::FLAGS
    }

    fn bits(&self) -> u32 {
        self.0
    }

    fn from_bits_retain(bits: u32) -> Caps {
        Caps(bits)
    }
}

impl Caps {
    /// All nine.
    pub const ALL: Caps = Caps(511);

    /// Whether all the bits of `other` are set.
    pub fn includes(self, other: Caps) -> bool
        ensures { result ≡ includes self.0 other.0 }
    {
        self.contains(other)
    }
}
