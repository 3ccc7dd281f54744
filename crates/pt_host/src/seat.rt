ghost use Rattle.std.specs.Prelude.{◌≡◌, true, false, OnOk, IfErr};
ghost use Rattle.pt_host.specs.Errno.{eperm};
ghost use Rattle.pt_host.specs.Seat.{IsStartingSeat, may_set_euid, with_euid, may_set_egid, with_egid};
ghost use Rattle.pt_host.specs.Seat.{may_set_groups, groups_errno, with_groups, may_raise, with_raised, with_dropped};
ghost use Rattle.pt_host.specs.Seat.{with_umask, caps_as, leaves_id};

use crate::flags::Caps;
use crate::groups::Groups;
use crate::ids::Errno;
use bitflags::Flags;

/// The id that leaves an id as it is, unless it is the real one.
const KEPT_ID: u32 = u32::MAX;

/// Whether this id, asked for under this real one, leaves the effective id as it is.
fn leaves_id(real: u32, id: u32) -> bool
    ensures { result ≡ leaves_id real id }
{
    id == KEPT_ID && real != KEPT_ID
}

/// The identity under which a host's calls are made, as `credentials(7)` and `capabilities(7)` have it of a thread.
#[derive(Drop)]
pub struct HostSeat {
    pub real_uid: u32,
    pub eff_uid: u32,
    pub saved_uid: u32,
    pub real_gid: u32,
    pub eff_gid: u32,
    pub saved_gid: u32,
    pub groups: Groups,
    pub eff_caps: Caps,
    pub perm_caps: Caps,
    pub umask: u32,
}

impl HostSeat {
    /// A seat as a job begins with it: one uid and one gid, no groups, all permitted capabilities effective, no umask.
    pub fn new(uid: u32, gid: u32, caps: Caps) -> HostSeat
        ensures starting { IsStartingSeat result }
        ensures uid { result.real_uid ≡ uid }
        ensures gid { result.real_gid ≡ gid }
        ensures caps { result.perm_caps ≡ caps }
    {
        HostSeat {
            real_uid: uid,
            eff_uid: uid,
            saved_uid: uid,
            real_gid: gid,
            eff_gid: gid,
            saved_gid: gid,
            groups: Groups::new(),
            eff_caps: caps,
            perm_caps: caps,
            umask: 0,
        }
    }

    /// The same seat once more, which takes no memory.
    pub fn copy(&self) -> HostSeat
        ensures { result ≡ self.now }
    {
        HostSeat {
            real_uid: self.real_uid,
            eff_uid: self.eff_uid,
            saved_uid: self.saved_uid,
            real_gid: self.real_gid,
            eff_gid: self.eff_gid,
            saved_gid: self.saved_gid,
            groups: self.groups.copy(),
            eff_caps: self.eff_caps,
            perm_caps: self.perm_caps,
            umask: self.umask,
        }
    }

    fn may_set_euid(&self, uid: u32) -> bool
        ensures { result ≡ may_set_euid self.now uid }
    {
        self.eff_caps.includes(Caps::SETUID)
            || uid == KEPT_ID
            || uid == self.real_uid
            || uid == self.eff_uid
            || uid == self.saved_uid
    }

    fn may_set_egid(&self, gid: u32) -> bool
        ensures { result ≡ may_set_egid self.now gid }
    {
        self.eff_caps.includes(Caps::SETGID)
            || gid == KEPT_ID
            || gid == self.real_gid
            || gid == self.eff_gid
            || gid == self.saved_gid
    }

    /// The effective capabilities under this effective uid.
    fn caps_as(&self, uid: u32) -> Caps
        ensures { result ≡ caps_as self.now uid }
    {
        match (self.eff_uid == 0, uid == 0) {
            (true, false) => Caps(0),
            (false, true) => self.perm_caps,
            _ => self.eff_caps,
        }
    }

    /// `seteuid(2)`. The effective capabilities go when root is left, and come back when it is entered.
    pub fn set_euid(&mut self, uid: u32) -> Result<(), Errno>
        ensures ok { OnOk result ((may_set_euid self.old uid ≡ true)
            × (self.new ≡ with_euid self.old uid)) }
        ensures err { IfErr result (λ errno. (errno ≡ eperm)
            × (may_set_euid self.old uid ≡ false) × (self.new ≡ self.old)) }
    {
        if !self.may_set_euid(uid) {
            return Err(Errno::EPERM);
        }
        if !leaves_id(self.real_uid, uid) {
            self.eff_caps = self.caps_as(uid);
            self.eff_uid = uid;
        }
        Ok(())
    }

    /// `setegid(2)`.
    pub fn set_egid(&mut self, gid: u32) -> Result<(), Errno>
        ensures ok { OnOk result ((may_set_egid self.old gid ≡ true)
            × (self.new ≡ with_egid self.old gid)) }
        ensures err { IfErr result (λ errno. (errno ≡ eperm)
            × (may_set_egid self.old gid ≡ false) × (self.new ≡ self.old)) }
    {
        if !self.may_set_egid(gid) {
            return Err(Errno::EPERM);
        }
        if !leaves_id(self.real_gid, gid) {
            self.eff_gid = gid;
        }
        Ok(())
    }

    /// `setgroups(2)`, of 32 groups at most.
    pub fn set_groups(&mut self, groups: &[u32]) -> Result<(), Errno>
        ensures ok { OnOk result ((may_set_groups self.old groups.now ≡ true)
            × (self.new ≡ with_groups self.old groups.now)) }
        ensures err { IfErr result (λ errno. (errno ≡ groups_errno self.old)
            × (may_set_groups self.old groups.now ≡ false) × (self.new ≡ self.old)) }
    {
        if !self.eff_caps.includes(Caps::SETGID) {
            return Err(Errno::EPERM);
        }
        match Groups::from_slice(groups) {
            Some(groups) => {
                self.groups = groups;
                Ok(())
            }
            None => Err(Errno::EINVAL),
        }
    }

    /// Makes capabilities effective, as `capset(2)` does of permitted ones.
    pub fn raise_cap(&mut self, caps: Caps) -> Result<(), Errno>
        ensures ok { OnOk result ((may_raise self.old caps ≡ true)
            × (self.new ≡ with_raised self.old caps)) }
        ensures err { IfErr result (λ errno. (errno ≡ eperm)
            × (may_raise self.old caps ≡ false) × (self.new ≡ self.old)) }
    {
        if !self.perm_caps.includes(caps) {
            return Err(Errno::EPERM);
        }
        self.eff_caps = self.eff_caps.union(caps);
        Ok(())
    }

    /// Makes capabilities not effective, as `capset(2)`.
    pub fn drop_cap(&mut self, caps: Caps)
        ensures { self.new ≡ with_dropped self.old caps }
    {
        self.eff_caps = self.eff_caps.difference(caps);
    }

    /// `umask(2)`: answers the old one. The new one is kept whole, so that the old one can be put back.
    pub fn set_umask(&mut self, mask: u32) -> u32
        ensures old { result ≡ self.old.umask }
        ensures new { self.new ≡ with_umask self.old mask }
    {
        let old = self.umask;
        self.umask = mask;
        old
    }
}
