ghost use Rattle.std.specs.Prelude.{◌≡◌, List, IfErr, OnOk, OnErr};
ghost use Rattle.pt_host.specs.declared.seat.HostSeat.{HostSeat};
ghost use Rattle.pt_host.specs.Promises.{HasRisen};
ghost use Rattle.pt_creds.specs.Calls.{CallMade, CallsLead, asked_in};
ghost use Rattle.pt_creds.specs.Guard.{if_any, euid_calls, egid_calls, calls_back};
ghost use Rattle.pt_creds.specs.Setting.{Restores, IsLeftBy};
ghost use Rattle.pt_creds.specs.Steps.{group_calls};
ghost use Rattle.pt_creds.specs.Progress.{Plays, FitsSeat, TakesStep, keeping_uid, keeping_gid};
ghost use Rattle.pt_creds.specs.Progress.{keeping_groups, no_change, TellsWhy};

use crate::calls::{make, set_egid, set_euid, set_groups};
use crate::error::CredError;
use pt_host::{Errno, Groups, Host, HostOp, HostSeat};
use std::marker::Model;

/// What a `set` changed, until it is restored, which has to be done.
pub struct UnixCredentialsGuard {
    reset_uid: Option<u32>,
    reset_gid: Option<u32>,
    reset_groups: Option<Groups>,
}

impl Model for UnixCredentialsGuard {
    ghost use Rattle.pt_creds.specs.Guard.{Guarded};

    ghost Value = { Guarded };

    ghost view = { λ guard. record { uid = guard.reset_uid; gid = guard.reset_gid; groups = guard.reset_groups } };
}

impl UnixCredentialsGuard {
    /// Nothing was changed yet.
    pub(crate) fn new() -> UnixCredentialsGuard
        ensures { result ≡ no_change }
    {
        UnixCredentialsGuard {
            reset_uid: None,
            reset_gid: None,
            reset_groups: None,
        }
    }

    /// Takes a group on, and keeps those that there were.
    pub(crate) fn set_group<H: Host>(
        mut self,
        host: &mut H,
        seat: &mut HostSeat,
        group: Option<u32>,
    ) -> Result<UnixCredentialsGuard, CredError>
        ensures { TakesStep H.does (group_calls group) self (keeping_groups group seat.old self)
            host.old seat.old host.new seat.new result }
    {
        let Some(group) = group else {
            return Ok(self);
        };
        let old = seat.groups.copy();
        match make(host, seat, &HostOp::SetGroups { list: &[group] }) {
            Ok(()) => {
                self.reset_groups = Some(old);
                Ok(self)
            }
            Err(errno) => Err(self.undo(host, seat, errno)),
        }
    }

    /// Takes a gid on, and keeps the one that there was.
    pub(crate) fn set_gid<H: Host>(
        mut self,
        host: &mut H,
        seat: &mut HostSeat,
        gid: Option<u32>,
    ) -> Result<UnixCredentialsGuard, CredError>
        ensures { TakesStep H.does (egid_calls gid) self (keeping_gid gid seat.old self)
            host.old seat.old host.new seat.new result }
    {
        let Some(gid) = gid else {
            return Ok(self);
        };
        let old = seat.eff_gid;
        match make(host, seat, &HostOp::SetEgid { gid }) {
            Ok(()) => {
                self.reset_gid = Some(old);
                Ok(self)
            }
            Err(errno) => Err(self.undo(host, seat, errno)),
        }
    }

    /// Takes a uid on, and keeps the one that there was.
    pub(crate) fn set_uid<H: Host>(
        mut self,
        host: &mut H,
        seat: &mut HostSeat,
        uid: Option<u32>,
    ) -> Result<UnixCredentialsGuard, CredError>
        ensures { TakesStep H.does (euid_calls uid) self (keeping_uid uid seat.old self)
            host.old seat.old host.new seat.new result }
    {
        let Some(uid) = uid else {
            return Ok(self);
        };
        let old = seat.eff_uid;
        match make(host, seat, &HostOp::SetEuid { uid }) {
            Ok(()) => {
                self.reset_uid = Some(old);
                Ok(self)
            }
            Err(errno) => Err(self.undo(host, seat, errno)),
        }
    }

    /// The guard, if it has anything to restore.
    pub(crate) fn if_any(self) -> Option<UnixCredentialsGuard>
        ensures { result ≡ if_any self }
    {
        let UnixCredentialsGuard {
            reset_uid,
            reset_gid,
            reset_groups,
        } = self;
        if reset_uid.is_some() || reset_gid.is_some() || reset_groups.is_some() {
            Some(UnixCredentialsGuard {
                reset_uid,
                reset_gid,
                reset_groups,
            })
        } else {
            None
        }
    }

    /// Takes everything back, each once and also after a refusal: the uid first, since root has the capability to set
    /// groups.
    fn go_back<H: Host>(self, host: &mut H, seat: &mut HostSeat) -> Result<(), Errno>
        ensures played { Plays H.does (calls_back self) host.old seat.old host.new seat.new result }
        ensures fits { FitsSeat self.groups }
    {
        let UnixCredentialsGuard {
            reset_uid,
            reset_gid,
            reset_groups,
        } = self;
        let uid = set_euid(host, seat, reset_uid);
        let gid = set_egid(host, seat, reset_gid);
        let groups = set_groups(host, seat, reset_groups);
        uid.and(gid).and(groups)
    }

    /// Takes everything back after a step was refused with this error.
    pub(crate) fn undo<H: Host>(self, host: &mut H, seat: &mut HostSeat, errno: Errno) -> CredError
        ensures { (back : List CallMade) × CallsLead H.does back host.old seat.old host.new seat.new
            × (asked_in back ≡ calls_back self) × TellsWhy back errno result × FitsSeat self.groups }
    {
        let undone = self.go_back(host, seat);
        match undone {
            Ok(()) => CredError::Host(errno),
            Err(lost) => CredError::Lost(lost),
        }
    }

    /// Gives the identity back: uid, gid and groups, in this order.
    pub fn restore<H: Host>(self, host: &mut H, seat: &mut HostSeat) -> Result<(), CredError>
        requires { (before : HostSeat) × IsLeftBy before self seat.old }
        ensures made { (made : List CallMade) × CallsLead H.does made host.old seat.old host.new seat.new
            × (asked_in made ≡ calls_back self) × Restores made result }
        ensures back { OnOk result ((before : HostSeat) → IsLeftBy before self seat.old → seat.new ≡ before) }
        ensures lost { OnErr result (HasRisen (H.faults host.old) (H.faults host.new)) }
    {
        match self.go_back(host, seat) {
            Ok(()) => Ok(()),
            Err(errno) => Err(CredError::Lost(errno)),
        }
    }
}
