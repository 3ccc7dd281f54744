ghost use Rattle.std.specs.Prelude.{◌≡◌, OnOk, OnErr, is_some, true};
ghost use Rattle.pt_node.specs.Names.{found};
ghost use Rattle.pt_node.specs.Node.{names_in};
ghost use Rattle.pt_node.specs.Entries.{
  new_object,
  restamped,
  rewritten,
  touched,
  with_bytes,
  with_entry,
  with_name,
  without_entry,
  without_name,
};

use crate::attributes::Attributes;
use crate::node::{Content, Node};
use pt_host::{Bytes, ObjIds, Time};
use std::alloc::{AllocError, Global};

impl Content {
    fn add_name(&mut self, name: Vec<u8>, object: usize) -> Result<(), AllocError>
        ensures ok { OnOk result (self.new ≡ with_name name.items object self.old) }
        ensures err { OnErr result (self.new ≡ self.old) }
    {
        match self {
            Content::Directory(names) => names.insert(name, object),
            Content::Regular(_) | Content::Link(_) | Content::Special(_) => Ok(()),
        }
    }

    fn lead_name(&mut self, name: &[u8], object: usize)
        requires { is_some (found name.now (names_in self.old)) ≡ true }
        ensures { self.new ≡ with_name name.now object self.old }
    {
        if let Content::Directory(names) = self {
            names.lead(name, object);
        }
    }

    /// A regular file with other bytes.
    fn set_bytes(&mut self, bytes: Bytes)
        ensures { self.new ≡ with_bytes bytes self.old }
    {
        if let Content::Regular(_) = self {
            *self = Content::Regular(bytes);
        }
    }

    fn remove_name(&mut self, name: &[u8])
        ensures { self.new ≡ without_name name.now self.old }
    {
        if let Content::Directory(names) = self {
            names.remove(name);
        }
    }
}

impl Node {
    /// The name leads to the object.
    pub fn add_entry(&mut self, name: Vec<u8>, object: usize) -> Result<(), AllocError>
        ensures ok { OnOk result (self.new ≡ with_entry name.items object self.old) }
        ensures err { OnErr result (self.new ≡ self.old) }
    {
        self.content.add_name(name, object)
    }

    /// The name, which is there, leads to this object.
    pub fn lead(&mut self, name: &[u8], object: usize)
        requires { is_some (found name.now (names_in self.old.content)) ≡ true }
        ensures { self.new ≡ with_entry name.now object self.old }
    {
        self.content.lead_name(name, object);
    }

    /// The name leads nowhere any more.
    pub fn remove_entry(&mut self, name: &[u8])
        ensures { self.new ≡ without_entry name.now self.old }
    {
        self.content.remove_name(name);
    }

    /// What it holds has changed.
    pub fn touch(&mut self, now: Time)
        ensures { self.new ≡ touched now self.old }
    {
        self.mtime = now;
        self.ctime = now;
    }

    /// Its status alone has changed.
    pub fn restamp(&mut self, now: Time)
        ensures { self.new ≡ restamped now self.old }
    {
        self.ctime = now;
    }
}

impl Node {
    /// The file has other contents.
    pub fn rewrite(&mut self, bytes: Bytes, now: Time)
        ensures { self.new ≡ rewritten now bytes self.old }
    {
        self.content.set_bytes(bytes);
        self.touch(now);
    }
}

/// An object that is made now, with this number and serial, on the mount of this directory.
pub fn new_object(
    alloc: Global,
    now: Time,
    number: u64,
    serial: u64,
    dir: &Node,
    permissions: u32,
    uid: u32,
    gid: u32,
    rdev: u32,
    content: Content,
) -> Node
    ensures { result ≡ new_object now number serial dir.now permissions uid gid rdev content }
{
    Node {
        ids: ObjIds {
            ino: number,
            dev: dir.ids.dev,
            mnt_id: dir.ids.mnt_id,
        },
        serial,
        has_handle: dir.has_handle,
        permissions,
        uid,
        gid,
        rdev,
        atime: now,
        mtime: now,
        ctime: now,
        content,
        xattrs: Attributes::new(alloc),
    }
}

impl Node {
    pub fn lose_entry(&mut self, name: &[u8], now: Time)
        ensures { self.new ≡ touched now (without_entry name.now self.old) }
    {
        self.remove_entry(name);
        self.touch(now);
    }

    pub fn lead_entry(&mut self, name: &[u8], object: usize, now: Time)
        requires { is_some (found name.now (names_in self.old.content)) ≡ true }
        ensures { self.new ≡ touched now (with_entry name.now object self.old) }
    {
        self.lead(name, object);
        self.touch(now);
    }

    pub fn gain_entry(&mut self, name: Vec<u8>, object: usize, now: Time) -> Result<(), AllocError>
        ensures ok { OnOk result (self.new ≡ touched now (with_entry name.items object self.old)) }
        ensures err { OnErr result (self.new ≡ self.old) }
    {
        self.add_entry(name, object)?;
        self.touch(now);
        Ok(())
    }
}
