ghost use Rattle.std.specs.Prelude.{⊤, ◌≡◌, [], ◌∷◌, codes};
ghost use Rattle.pt_host.specs.Flags.{includes};

use bitflags::{Flag, Flags, bitflag_items};

/// What the guest offers and is granted at `FUSE_INIT`. The places of the bits are this project's own, and not those of
/// `struct fuse_init_out`; unknown bits are kept.
#[derive(Clone, Copy, Debug, PartialEq, Eq)]
pub struct FsOptions(pub u32);

bitflag_items! {
    impl FsOptions: u32 {
        const DO_READDIRPLUS = 1;
        const READDIRPLUS_AUTO = 2;
        const WRITEBACK_CACHE = 4;
        const HANDLE_KILLPRIV_V2 = 8;
        const POSIX_ACL = 16;
        const DONT_MASK = 32;
        const SETXATTR_EXT = 64;
        const SECURITY_CTX = 128;
        const SUBMOUNTS = 256;
        const CREATE_SUPP_GROUP = 512;
        const DIRECT_IO_ALLOW_MMAP = 1024;
    }
}

impl Flags for FsOptions {
    type Bits = u32;

    ghost exact = { ⊤ };

    ghost table = { (codes "DO_READDIRPLUS", 1) ∷ (codes "READDIRPLUS_AUTO", 2) ∷ (codes "WRITEBACK_CACHE", 4)
        ∷ (codes "HANDLE_KILLPRIV_V2", 8) ∷ (codes "POSIX_ACL", 16) ∷ (codes "DONT_MASK", 32)
        ∷ (codes "SETXATTR_EXT", 64)
        ∷ (codes "SECURITY_CTX", 128) ∷ (codes "SUBMOUNTS", 256) ∷ (codes "CREATE_SUPP_GROUP", 512)
        ∷ (codes "DIRECT_IO_ALLOW_MMAP", 1024) ∷ [] };

    ghost set_of = { λ options. options.0 };

    fn flags<'a>() -> &'a [Flag<FsOptions>] {
        FsOptions::FLAGS
    }

    fn bits(&self) -> u32 {
        self.0
    }

    fn from_bits_retain(bits: u32) -> FsOptions {
        FsOptions(bits)
    }
}

impl FsOptions {
    /// Whether all the bits of `other` are set.
    pub fn includes(self, other: FsOptions) -> bool
        ensures { result ≡ includes self.0 other.0 }
    {
        self.contains(other)
    }
}

/// How the guest's kernel may use a handle, the `FOPEN_` bits of `struct fuse_open_out`. Unknown bits are kept.
#[derive(Clone, Copy, Debug, PartialEq, Eq)]
pub struct OpenOptions(pub u32);

bitflag_items! {
    impl OpenOptions: u32 {
        const DIRECT_IO = 1;
        const KEEP_CACHE = 2;
        const CACHE_DIR = 8;
    }
}

impl Flags for OpenOptions {
    type Bits = u32;

    ghost exact = { ⊤ };

    ghost table = { (codes "DIRECT_IO", 1) ∷ (codes "KEEP_CACHE", 2) ∷ (codes "CACHE_DIR", 8) ∷ [] };

    ghost set_of = { λ options. options.0 };

    fn flags<'a>() -> &'a [Flag<OpenOptions>] {
        OpenOptions::FLAGS
    }

    fn bits(&self) -> u32 {
        self.0
    }

    fn from_bits_retain(bits: u32) -> OpenOptions {
        OpenOptions(bits)
    }
}

impl OpenOptions {
    /// Whether all the bits of `other` are set.
    pub fn includes(self, other: OpenOptions) -> bool
        ensures { result ≡ includes self.0 other.0 }
    {
        self.contains(other)
    }
}

/// Which attributes `FUSE_SETATTR` sets, the `FATTR_` bits of `struct fuse_setattr_in`. Unknown bits are kept.
#[derive(Clone, Copy, Debug, PartialEq, Eq)]
pub struct SetattrValid(pub u32);

bitflag_items! {
    impl SetattrValid: u32 {
        const MODE = 1;
        const UID = 2;
        const GID = 4;
        const SIZE = 8;
        const ATIME = 16;
        const MTIME = 32;
        const ATIME_NOW = 128;
        const MTIME_NOW = 256;
        const KILL_SUIDGID = 2048;
    }
}

impl Flags for SetattrValid {
    type Bits = u32;

    ghost exact = { ⊤ };

    ghost table = { (codes "MODE", 1) ∷ (codes "UID", 2) ∷ (codes "GID", 4) ∷ (codes "SIZE", 8) ∷ (codes "ATIME", 16)
        ∷ (codes "MTIME", 32) ∷ (codes "ATIME_NOW", 128) ∷ (codes "MTIME_NOW", 256)
        ∷ (codes "KILL_SUIDGID", 2048) ∷ [] };

    ghost set_of = { λ valid. valid.0 };

    fn flags<'a>() -> &'a [Flag<SetattrValid>] {
        SetattrValid::FLAGS
    }

    fn bits(&self) -> u32 {
        self.0
    }

    fn from_bits_retain(bits: u32) -> SetattrValid {
        SetattrValid(bits)
    }
}

impl SetattrValid {
    /// Whether all the bits of `other` are set.
    pub fn includes(self, other: SetattrValid) -> bool
        ensures { result ≡ includes self.0 other.0 }
    {
        self.contains(other)
    }
}

/// What `FUSE_SETXATTR` asks beside, the `setxattr_flags` of `struct fuse_setxattr_in`. Unknown bits are kept.
#[derive(Clone, Copy, Debug, PartialEq, Eq)]
pub struct SetxattrFlags(pub u32);

bitflag_items! {
    impl SetxattrFlags: u32 {
        const SETXATTR_ACL_KILL_SGID = 1;
    }
}

impl Flags for SetxattrFlags {
    type Bits = u32;

    ghost exact = { ⊤ };

    ghost table = { (codes "SETXATTR_ACL_KILL_SGID", 1) ∷ [] };

    ghost set_of = { λ extra. extra.0 };

    fn flags<'a>() -> &'a [Flag<SetxattrFlags>] {
        SetxattrFlags::FLAGS
    }

    fn bits(&self) -> u32 {
        self.0
    }

    fn from_bits_retain(bits: u32) -> SetxattrFlags {
        SetxattrFlags(bits)
    }
}

impl SetxattrFlags {
    /// Whether all the bits of `other` are set.
    pub fn includes(self, other: SetxattrFlags) -> bool
        ensures { result ≡ includes self.0 other.0 }
    {
        self.contains(other)
    }
}
