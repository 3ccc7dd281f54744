ghost use Rattle.std.specs.Prelude.{◌≡◌, ◌++◌, [], OnOk, OnErr, is_some};
ghost use Rattle.pt_node.specs.Mounts.{mount_ids, mount_of, mount_line, mounts_text, with_mount, has_device};

use pt_host::{Bytes, MountId};
use pt_text::{push_decimal, push_text};
use std::alloc::{AllocError, Global};
use std::collections::BTreeMap;
use std::marker::Model;

/// A mount, whose root is the directory at its path.
#[derive(Drop)]
pub struct Mount {
    /// The mount on which that directory was made; 0 of the root's.
    pub parent: u64,
    pub dev: u64,
    /// As the line of the mount has it.
    pub path: Bytes,
}

/// The mounts by their ids.
#[derive(Drop)]
pub struct Mounts {
    pub kept: BTreeMap<u64, Mount>,
}

impl Model for Mounts {
    ghost use Rattle.std.specs.Prelude.{List, ℕ};
    ghost use Rattle.pt_node.specs.declared.mounts.Mount.{Mount};

    ghost Value = { List (ℕ × Mount) };

    ghost view = { λ mounts. mounts.kept.entries };
}

impl Mounts {
    pub fn new(alloc: Global) -> Mounts
        ensures { result ≡ [] }
    {
        Mounts {
            kept: BTreeMap::new(alloc),
        }
    }

    pub fn has_id(&self, id: MountId) -> bool
        ensures { result ≡ is_some (mount_of id self.now) }
    {
        self.kept.contains_key(&id)
    }

    pub fn has_device(&self, dev: u64) -> bool
        ensures { result ≡ has_device dev self.now }
    {
        self.kept.values().any(|mount| mount.dev == dev)
    }

    /// One mount more, whose id is new.
    pub fn insert(&mut self, id: MountId, mount: Mount) -> Result<(), AllocError>
        ensures ok { OnOk result (self.new ≡ with_mount id mount self.old) }
        ensures err { OnErr result (self.new ≡ self.old) }
    {
        self.kept.insert(id, mount)?;
        Ok(())
    }
}

/// The mounts as `/proc/self/mountinfo` has them.
pub fn push_mounts(out: &mut Vec<u8>, mounts: &Mounts) -> Result<(), AllocError>
    ensures { OnOk result (out.new.items ≡ out.old.items ++ mounts_text mounts.now) }
{
    for (id, mount) in mounts.kept.iter() {
        push_mount(out, *id, mount)?;
    }
    Ok(())
}

fn push_mount_ids(out: &mut Vec<u8>, id: MountId, mount: &Mount) -> Result<(), AllocError>
    ensures { OnOk result (out.new.items ≡ out.old.items ++ mount_ids (id, mount.now)) }
{
    push_decimal(out, id)?;
    push_text(out, b" ")?;
    push_decimal(out, mount.parent)?;
    push_text(out, b" 0:")?;
    push_decimal(out, mount.dev)
}

fn push_mount(out: &mut Vec<u8>, id: MountId, mount: &Mount) -> Result<(), AllocError>
    ensures { OnOk result (out.new.items ≡ out.old.items ++ mount_line (id, mount.now)) }
{
    push_mount_ids(out, id, mount)?;
    push_text(out, b" / ")?;
    push_text(out, mount.path.as_slice())?;
    push_text(out, b" rw\n")
}
