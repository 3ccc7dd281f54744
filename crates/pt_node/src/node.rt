ghost use Rattle.std.specs.Prelude.{◌≡◌, ◌<◌};
ghost use Rattle.pt_node.specs.Node.{
  bytes_in,
  holds_names,
  is_directory,
  is_link,
  is_special,
  kind_number,
  mode_of,
  size_of,
  special_number,
  status_of,
};

use crate::attributes::Attributes;
use crate::names::Names;
use pt_host::{Bytes, ObjIds, Stat, Time};

/// The most bytes that a file holds.
pub const FILE_MAX: usize = 1_048_576;

/// What a node stands for that holds nothing itself.
#[derive(Clone, Copy)]
pub enum SpecialKind {
    Pipe,
    CharDevice,
    BlockDevice,
    Socket,
}

/// What an object holds.
#[derive(Drop)]
pub enum Content {
    Directory(Names),
    Regular(Bytes),
    /// Where a symbolic link leads.
    Link(Bytes),
    Special(SpecialKind),
}

/// An object with its status.
#[derive(Drop)]
pub struct Node {
    pub ids: ObjIds,
    /// From 1 in the order of making; never used again.
    pub serial: u64,
    /// Whether the objects of its mount have file handles.
    pub has_handle: bool,
    /// The mode without the kind.
    pub permissions: u32,
    pub uid: u32,
    pub gid: u32,
    /// The device that a node was made for.
    pub rdev: u32,
    pub atime: Time,
    pub mtime: Time,
    pub ctime: Time,
    pub content: Content,
    pub xattrs: Attributes,
}

impl SpecialKind {
    /// The mode over 4096.
    fn number(self) -> u32
        ensures { result ≡ special_number self }
    {
        match self {
            SpecialKind::Pipe => 1,
            SpecialKind::CharDevice => 2,
            SpecialKind::BlockDevice => 6,
            SpecialKind::Socket => 12,
        }
    }
}

impl Content {
    /// The mode over 4096.
    pub fn kind_number(&self) -> u32
        ensures { result ≡ kind_number self.now }
    {
        match self {
            Content::Directory(_) => 4,
            Content::Regular(_) => 8,
            Content::Link(_) => 10,
            Content::Special(kind) => kind.number(),
        }
    }

    /// What a regular file holds, or where a link leads.
    pub fn bytes(&self) -> &[u8]
        ensures { result.now ≡ bytes_in self.now }
    {
        match self {
            Content::Directory(_) | Content::Special(_) => &[],
            Content::Regular(bytes) => bytes.as_slice(),
            Content::Link(target) => target.as_slice(),
        }
    }

    pub fn is_directory(&self) -> bool
        ensures { result ≡ holds_names self.now }
    {
        match self {
            Content::Directory(_) => true,
            Content::Regular(_) | Content::Link(_) | Content::Special(_) => false,
        }
    }

    pub fn size(&self) -> u64
        ensures { result ≡ size_of self.now }
    {
        match self {
            Content::Directory(_) | Content::Special(_) => 0,
            Content::Regular(bytes) => bytes.len() as u64,
            Content::Link(target) => target.len() as u64,
        }
    }
}

impl Node {
    pub fn is_directory(&self) -> bool
        ensures { result ≡ is_directory self.now }
    {
        self.content.is_directory()
    }

    pub fn is_link(&self) -> bool
        ensures { result ≡ is_link self.now }
    {
        match self.content {
            Content::Link(_) => true,
            Content::Directory(_) | Content::Regular(_) | Content::Special(_) => false,
        }
    }

    /// Whether it is a pipe, a socket or a device.
    pub fn is_special(&self) -> bool
        ensures { result ≡ is_special self.now }
    {
        match self.content {
            Content::Special(_) => true,
            Content::Directory(_) | Content::Regular(_) | Content::Link(_) => false,
        }
    }

    /// The mode with the kind.
    pub fn mode(&self) -> u32
        requires { self.now.permissions < 4096 }
        ensures { result ≡ mode_of self.now }
    {
        4096 * self.content.kind_number() + self.permissions
    }

    /// The status that `stat(2)` tells of an object with so many links.
    pub fn status(&self, links: u32) -> Stat
        requires { self.now.permissions < 4096 }
        ensures { result ≡ status_of links self.now }
    {
        let size = self.content.size();
        Stat {
            ids: self.ids,
            mode: self.mode(),
            nlink: links,
            uid: self.uid,
            gid: self.gid,
            rdev: self.rdev,
            size,
            blksize: 4096,
            blocks: size.div_ceil(512),
            atime: self.atime,
            mtime: self.mtime,
            ctime: self.ctime,
        }
    }
}
