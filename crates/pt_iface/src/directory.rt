ghost use Rattle.std.specs.Prelude.{◌≡◌};

use pt_host::Bytes;
use std::marker::Model;

/// One entry of a directory, as `struct fuse_dirent` has it.
#[derive(Drop)]
pub struct DirEntry {
    pub ino: u64,
    /// Where the directory is read on after this entry.
    pub offset: u64,
    /// The kind of the object, a `DT_` number of `readdir(3)`.
    pub kind: u32,
    pub name: Bytes,
}

/// Entries of a directory, in the order in which they were read.
#[derive(Drop)]
pub struct DirEntries {
    items: Vec<DirEntry>,
}

impl Model for DirEntries {
    ghost use Rattle.std.specs.Prelude.{List};
    ghost use Rattle.pt_iface.specs.declared.directory.DirEntry.{DirEntry};

    ghost Value = { List DirEntry };

    ghost view = { λ entries. entries.items.items };
}

impl DirEntries {
    /// The vector's entries, which takes no memory.
    pub fn from_vec(items: Vec<DirEntry>) -> Self
        ensures { result ≡ items.items }
    {
        DirEntries { items }
    }

    pub fn as_slice(&self) -> &[DirEntry]
        ensures { result.now ≡ self.now }
    {
        self.items.as_slice()
    }
}
