ghost use Rattle.std.specs.Prelude.{◌≡◌, OnErr, OnOk};
ghost use Rattle.pt_node.specs.Entries.{restamped};
ghost use Rattle.pt_node.specs.Changes.{
  id_after,
  moded,
  owned,
  time_after,
  timed,
  unvalued,
  valued,
  refilled,
};

use crate::node::Node;
use crate::opening::permissions_after;
use pt_host::{Bytes, HostSeat, Time, TimeSet};
use std::alloc::AllocError;

fn time_after(now: Time, old: Time, time: TimeSet) -> Time
    ensures { result ≡ time_after now old time }
{
    match time {
        TimeSet::Omit => old,
        TimeSet::Now => now,
        TimeSet::At(time) => time,
    }
}

/// The greatest id leaves an id as it is.
fn id_after(old: u32, id: u32) -> u32
    ensures { result ≡ id_after old id }
{
    if id == u32::MAX { old } else { id }
}

impl Node {
    pub fn change_mode(&mut self, mode: u32, now: Time)
        ensures { self.new ≡ restamped now (moded mode self.old) }
    {
        self.permissions = mode % 4096;
        self.restamp(now);
    }

    pub fn change_owner(&mut self, uid: u32, gid: u32, now: Time)
        ensures { self.new ≡ restamped now (owned uid gid self.old) }
    {
        self.uid = id_after(self.uid, uid);
        self.gid = id_after(self.gid, gid);
        self.restamp(now);
    }

    pub fn change_times(&mut self, atime: TimeSet, mtime: TimeSet, now: Time)
        ensures { self.new ≡ restamped now (timed now atime mtime self.old) }
    {
        self.atime = time_after(now, self.atime, atime);
        self.mtime = time_after(now, self.mtime, mtime);
        self.restamp(now);
    }

    pub fn set_xattr(&mut self, name: Vec<u8>, value: Bytes, now: Time) -> Result<(), AllocError>
        ensures ok { OnOk result (self.new ≡ restamped now (valued name.items value self.old)) }
        ensures err { OnErr result (self.new ≡ self.old) }
    {
        self.xattrs.insert(name, value)?;
        self.restamp(now);
        Ok(())
    }

    pub fn remove_xattr(&mut self, name: &[u8], now: Time)
        ensures { self.new ≡ restamped now (unvalued name.now self.old) }
    {
        self.xattrs.remove(name);
        self.restamp(now);
    }

    /// The file gets contents that this seat wrote, which clears set-id bits.
    pub fn refill(&mut self, seat: &HostSeat, bytes: Bytes, now: Time)
        ensures { self.new ≡ refilled seat.now now bytes self.old }
    {
        self.permissions = permissions_after(seat, self.permissions);
        self.rewrite(bytes, now);
    }
}
