ghost use Rattle.std.specs.Prelude.{◌≡◌};
ghost use Rattle.pt_handles.specs.Kinds.{is_safe_inode};

/// `S_IFMT`.
const KIND: u32 = 0o170000;

/// `S_IFREG`.
const REGULAR: u32 = 0o100000;

/// `S_IFDIR`.
const DIRECTORY: u32 = 0o40000;

/// Whether an object of this mode can be opened without `O_PATH` and nothing else happens: a regular file or a
/// directory.
pub fn is_safe_inode(mode: u32) -> bool
    ensures { result ≡ is_safe_inode mode }
{
    let kind = mode & KIND;
    kind == REGULAR || kind == DIRECTORY
}
