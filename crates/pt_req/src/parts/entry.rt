ghost use Rattle.std.specs.Prelude.{◌≡◌};
ghost use Rattle.pt_req.specs.Entries.{mount_flag, attr_of, entry_of};

use crate::plan::Plan;
use pt_host::{ObjIds, Stat};
use pt_iface::{Attr, Entry};
use pt_session::Negotiated;

/// Linux's kind of a directory, the mode's bits above 4096.
const DIRECTORY: u32 = 4;

/// The flag of a directory on another device or mount than its parent, where the guest is told of mounts.
fn mount_flag(agreed: Negotiated, parent: ObjIds, stat: &Stat) -> u32
    ensures { result ≡ mount_flag agreed parent stat.now }
{
    let same = stat.ids.dev == parent.dev && stat.ids.mnt_id == parent.mnt_id;
    if agreed.announce_submounts && stat.mode / 4096 == DIRECTORY && !same {
        1
    } else {
        0
    }
}

/// What the guest is told of an object, its owner by the guest's ids.
pub fn attr_of(plan: &Plan, stat: &Stat, flags: u32) -> Attr
    ensures { result ≡ attr_of plan.now stat.now flags }
{
    Attr {
        ino: stat.ids.ino,
        size: stat.size,
        blocks: stat.blocks,
        atime: stat.atime,
        mtime: stat.mtime,
        ctime: stat.ctime,
        mode: stat.mode,
        nlink: stat.nlink,
        uid: plan.uid_map.map_host(stat.uid),
        gid: plan.gid_map.map_host(stat.gid),
        rdev: stat.rdev,
        blksize: stat.blksize,
        flags,
    }
}

/// The entry of what was opened in this parent, by its number.
pub fn entry_of(plan: &Plan, agreed: Negotiated, parent: ObjIds, stat: &Stat, number: u64) -> Entry
    ensures { result ≡ entry_of plan.now agreed parent stat.now number }
{
    Entry {
        inode: number,
        generation: 0,
        attr: attr_of(plan, stat, mount_flag(agreed, parent, stat)),
        attr_timeout: plan.config.attr_timeout,
        entry_timeout: plan.config.entry_timeout,
    }
}
