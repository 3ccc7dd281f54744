ghost use Rattle.std.specs.Prelude.{◌≡◌};
ghost use Rattle.pt_tree.specs.declared.spec.SpecError.TheVariants.{Memory};

use pt_host::Bytes;
use std::alloc::AllocError;
use std::marker::Model;

/// One line of the description of a tree.
#[derive(Drop)]
pub enum TreeLine {
    /// A mount with its id and device, and whether its objects have file handles. That of `/` stands first; another one
    /// makes the directory that its path names.
    Mount {
        id: u64,
        dev: u64,
        path: Bytes,
        handles: bool,
    },
    /// A regular file: its path from the root, its permissions, its owner and what it holds, at most 1,048,576 bytes.
    File {
        path: Bytes,
        mode: u32,
        uid: u32,
        gid: u32,
        bytes: Bytes,
    },
    /// An empty directory: its path from the root, its permissions and its owner. Later lines put names into it.
    Dir {
        path: Bytes,
        mode: u32,
        uid: u32,
        gid: u32,
    },
    /// A symbolic link: its path from the root, its owner and where it leads, at most 4,095 bytes.
    Link {
        path: Bytes,
        uid: u32,
        gid: u32,
        target: Bytes,
    },
    /// A pipe, a socket or a device, by the kind bits of its mode.
    Spec {
        path: Bytes,
        mode: u32,
        uid: u32,
        gid: u32,
        rdev: u32,
    },
    /// A second name of an object that is no directory.
    Hard {
        path: Bytes,
        old: Bytes,
    },
    /// An extended attribute. A later line of the same name replaces it.
    Xattr {
        path: Bytes,
        name: Bytes,
        value: Bytes,
    },
}

/// Why lines make no host.
#[derive(Debug, Drop)]
pub enum SpecError {
    /// The first line, from 1, up to which the lines describe no tree. It is 1 where there is none.
    NotATree(u32),
    Memory,
}

impl From<AllocError> for SpecError {
    ghost from_gives = { λ _ error. error ≡ Memory };

    fn from(_error: AllocError) -> SpecError {
        SpecError::Memory
    }
}

/// The description of a tree, a list of lines.
#[derive(Drop)]
pub struct TreeSpec {
    lines: Vec<TreeLine>,
}

impl Model for TreeSpec {
    ghost use Rattle.std.specs.Prelude.{List};
    ghost use Rattle.pt_tree.specs.declared.spec.TreeLine.{TreeLine};

    ghost Value = { List TreeLine };

    ghost view = { λ spec. spec.lines.items };
}

impl TreeSpec {
    /// The vector's lines, which takes no memory.
    pub fn from_vec(lines: Vec<TreeLine>) -> TreeSpec
        ensures { result ≡ lines.items }
    {
        TreeSpec { lines }
    }

    pub fn as_slice(&self) -> &[TreeLine]
        ensures { result.now ≡ self.now }
    {
        self.lines.as_slice()
    }

    /// The vector of the lines, which takes no memory.
    pub fn into_vec(self) -> Vec<TreeLine>
        ensures { result.items ≡ self }
    {
        self.lines
    }
}
