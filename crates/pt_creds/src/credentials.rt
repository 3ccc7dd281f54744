ghost use Rattle.std.specs.Prelude.{◌≡◌, List, None, IfOk, IfErr, IfSome, IfNone, false, not};
ghost use Rattle.pt_host.specs.declared.seat.HostSeat.{HostSeat};
ghost use Rattle.pt_creds.specs.Calls.{CallMade, CallsLead};
ghost use Rattle.pt_creds.specs.Identity.{IsWhole};
ghost use Rattle.pt_creds.specs.Steps.{id_to_set, cred_steps};
ghost use Rattle.pt_creds.specs.Setting.{Sets, LeavesSeat, IsLeftBy, RisesWhereLost};

use crate::calls::raise_if;
use crate::error::CredError;
use crate::guard::UnixCredentialsGuard;
use pt_host::{Host, HostSeat};
use std::marker::Model;

/// Who asks: the ids under which a host's calls are to be made.
#[derive(Drop)]
pub struct UnixCredentials {
    uid: u32,
    gid: u32,
    sup_gid: Option<u32>,
    keep_capability: bool,
}

impl Model for UnixCredentials {
    ghost use Rattle.pt_creds.specs.Identity.{Credentials};

    ghost Value = { Credentials };

    ghost view = { λ creds. record {
      uid = creds.uid;
      gid = creds.gid;
      sup_gid = creds.sup_gid;
      keep_capability = creds.keep_capability;
    } };
}

/// The calls that a `set` makes, in this order.
#[derive(Clone, Copy)]
pub struct CredSteps {
    /// The one group of `SetGroups`.
    pub groups: Option<u32>,
    /// The id of `SetEgid`.
    pub egid: Option<u32>,
    /// The id of `SetEuid`.
    pub euid: Option<u32>,
    /// Whether `RaiseCap` of `DAC_OVERRIDE` follows, which may be refused.
    pub raise: bool,
}

/// An id is set where it is not root's and not the one that is there.
fn id_to_set(id: u32, now: u32) -> Option<u32>
    ensures { result ≡ id_to_set id now }
{
    if id == 0 || id == now { None } else { Some(id) }
}

impl UnixCredentials {
    /// The ids of who asks, without a group; the host can tell groups of its own.
    pub fn new(uid: u32, gid: u32) -> UnixCredentials
        ensures { result ≡ record { uid = uid; gid = gid; sup_gid = None; keep_capability = false } }
    {
        UnixCredentials {
            uid,
            gid,
            sup_gid: None,
            keep_capability: false,
        }
    }

    /// With this group, if any. Where the guest cannot tell which one it means, `DAC_OVERRIDE` is kept in its place.
    pub fn supplementary_gid(
        self,
        supported_extension: bool,
        sup_gid: Option<u32>,
    ) -> UnixCredentials
        ensures { result ≡ record self { sup_gid = sup_gid; keep_capability = not supported_extension } }
    {
        UnixCredentials {
            uid: self.uid,
            gid: self.gid,
            sup_gid,
            keep_capability: !supported_extension,
        }
    }

    /// The calls that a `set` makes from this seat. Root's ids are never taken on.
    pub fn steps(&self, seat: &HostSeat) -> CredSteps
        ensures { result ≡ cred_steps self.now seat.now }
    {
        let euid = id_to_set(self.uid, seat.eff_uid);
        CredSteps {
            groups: self.sup_gid,
            egid: id_to_set(self.gid, seat.eff_gid),
            euid,
            raise: self.keep_capability && euid.is_some(),
        }
    }

    /// Takes the identity on, and tells what is to be restored. None where nothing was changed.
    ///
    /// The gid comes before the uid, since with root's uid the capability to set it goes.
    pub fn set<H: Host>(
        self,
        host: &mut H,
        seat: &mut HostSeat,
    ) -> Result<Option<UnixCredentialsGuard>, CredError>
        requires { IsWhole seat.old }
        // The calls made, what the seat is afterwards and what is answered; a seat that was lost shows in the host's
        // count of faults.
        ensures made { (made : List CallMade) × CallsLead H.does made host.old seat.old host.new seat.new
            × Sets (cred_steps self seat.old) seat.old made result × LeavesSeat self made seat.old seat.new result }
        ensures guard { IfOk result (λ guard. IfSome guard (λ guard. IsLeftBy seat.old guard seat.new)) }
        ensures unchanged { IfOk result (λ guard. IfNone guard ((host.new ≡ host.old) × (seat.new ≡ seat.old))) }
        ensures lost { IfErr result (λ why. RisesWhereLost (H.faults host.old) (H.faults host.new) why) }
    {
        let steps = self.steps(seat);
        let guard = UnixCredentialsGuard::new()
            .set_group(host, seat, steps.groups)?
            .set_gid(host, seat, steps.egid)?
            .set_uid(host, seat, steps.euid)?;
        let _passed_over = raise_if(host, seat, steps.raise);
        Ok(guard.if_any())
    }
}
