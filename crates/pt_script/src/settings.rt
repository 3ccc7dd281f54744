ghost use Rattle.std.specs.Prelude.{◌≡◌, ◌≤◌, ◌<◌, ◌+◌, ◌^◌, OnOk, OnErr};
ghost use Rattle.pt_script.specs.Settings.{no_settings, may_set, with_setting, single_lines, set_lines, identity_in};

use crate::switches::{Switch, Switches, lines_of};
use pt_host::{Bytes, Caps};
use pt_iface::Timeout;
use pt_maps::{IdRule, IdRules, XattrMap, XattrRule};
use pt_req::CachePolicy;
use std::alloc::{AllocError, Global};

/// Who a seat begins as: one uid, one gid and its capabilities.
#[derive(Clone, Copy, Debug, PartialEq, Eq)]
pub struct Identity {
    pub uid: u32,
    pub gid: u32,
    pub caps: Caps,
}

/// One setting of a script.
#[derive(Drop)]
pub enum Setting {
    /// How many descriptors the guest may hold.
    GuestFdLimit(u64),
    /// Who the daemon and each job begin as.
    Seat(Identity),
    /// How long the guest may keep a name that it looked up.
    EntryTimeout(Timeout),
    /// How long the guest may keep an object's attributes.
    AttrTimeout(Timeout),
    /// How the guest may cache what it opens.
    CachePolicy(CachePolicy),
    /// The path of the shared directory on the host.
    RootDir(Bytes),
    /// A switch, on or off.
    Switch(Switch, bool),
    /// One more rule by which the guest's uids and the host's become each other.
    UidRule(IdRule),
    /// One more rule for gids.
    GidRule(IdRule),
    /// One more rule for the names of extended attributes.
    NameRule(XattrRule),
}

/// The settings of a script: rules of ids and of names in their order, and each other one once at most.
#[derive(Drop)]
pub struct Settings {
    pub guest_fd_limit: Option<u64>,
    pub seat: Option<Identity>,
    pub entry_timeout: Option<Timeout>,
    pub attr_timeout: Option<Timeout>,
    pub cache_policy: Option<CachePolicy>,
    pub root_dir: Option<Bytes>,
    pub switches: Switches,
    pub uid_map: IdRules,
    pub gid_map: IdRules,
    pub xattrmap: XattrMap,
}

impl Settings {
    /// Nothing is set, which takes no memory.
    pub fn none(alloc: Global) -> Settings
        ensures { result ≡ no_settings }
    {
        Settings {
            guest_fd_limit: None,
            seat: None,
            entry_timeout: None,
            attr_timeout: None,
            cache_policy: None,
            root_dir: None,
            switches: Switches::none(),
            uid_map: IdRules::new(alloc),
            gid_map: IdRules::new(alloc),
            xattrmap: XattrMap::from_rules(alloc, Vec::new(alloc)),
        }
    }

    /// Whether it may be set: its key is not set yet, or it is a rule.
    pub fn may_set(&self, setting: &Setting) -> bool
        ensures { result ≡ may_set self.now setting.now }
    {
        match setting {
            Setting::GuestFdLimit(_) => self.guest_fd_limit.is_none(),
            Setting::Seat(_) => self.seat.is_none(),
            Setting::EntryTimeout(_) => self.entry_timeout.is_none(),
            Setting::AttrTimeout(_) => self.attr_timeout.is_none(),
            Setting::CachePolicy(_) => self.cache_policy.is_none(),
            Setting::RootDir(_) => self.root_dir.is_none(),
            Setting::Switch(switch, _) => self.switches.get(*switch).is_none(),
            Setting::UidRule(_) | Setting::GidRule(_) | Setting::NameRule(_) => true,
        }
    }

    pub fn add(&mut self, setting: Setting) -> Result<(), AllocError>
        ensures ok { OnOk result (self.new ≡ with_setting self.old setting) }
        ensures err { OnErr result (self.new ≡ self.old) }
        ensures few { set_lines self.new ≤ set_lines self.old + 1 }
    {
        match setting {
            Setting::GuestFdLimit(limit) => self.guest_fd_limit = Some(limit),
            Setting::Seat(who) => self.seat = Some(who),
            Setting::EntryTimeout(timeout) => self.entry_timeout = Some(timeout),
            Setting::AttrTimeout(timeout) => self.attr_timeout = Some(timeout),
            Setting::CachePolicy(policy) => self.cache_policy = Some(policy),
            Setting::RootDir(path) => self.root_dir = Some(path),
            Setting::Switch(switch, on) => self.switches.set(switch, on),
            Setting::UidRule(rule) => self.uid_map.push(rule)?,
            Setting::GidRule(rule) => self.gid_map.push(rule)?,
            Setting::NameRule(rule) => self.xattrmap.push(rule)?,
        }
        Ok(())
    }

    // How many lines set what stands once at most.
    fn single_lines(&self) -> u32
        ensures lines { result ≡ single_lines self.now }
        ensures few { result ≤ 16 }
    {
        lines_of(&self.guest_fd_limit)
            + lines_of(&self.seat)
            + lines_of(&self.entry_timeout)
            + lines_of(&self.attr_timeout)
            + lines_of(&self.cache_policy)
            + lines_of(&self.root_dir)
            + self.switches.lines()
    }

    /// How many lines set them.
    pub fn lines(&self) -> u32
        requires { set_lines self.now < 2 ^ 32 }
        ensures { result ≡ set_lines self.now }
    {
        let ids = self.uid_map.as_slice().len() + self.gid_map.as_slice().len();
        let rules = ids + self.xattrmap.len();
        self.single_lines() + rules as u32
    }

    /// Who the daemon and each job begin as: the superuser with all capabilities, where nobody else is set.
    pub fn identity(&self) -> Identity
        ensures { result ≡ identity_in self.now }
    {
        match self.seat {
            Some(who) => who,
            None => Identity {
                uid: 0,
                gid: 0,
                caps: Caps::ALL,
            },
        }
    }
}
