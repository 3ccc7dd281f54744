ghost use Rattle.std.specs.Prelude.{◌≡◌, ◌⊎◌, [], ◌∷◌, IfOk, IfErr, OnOk, OnErr};
ghost use Rattle.pt_host.specs.declared.reply.HostReply.{HostReply};
ghost use Rattle.pt_maps.specs.Refusal.{AreAccepted};
ghost use Rattle.pt_tables.specs.Tables.{empty_tables};
ghost use Rattle.pt_req.specs.Plan.{moved_capability};
ghost use Rattle.pt_fs.specs.FileSystem.{
  opens_root,
  AreMapped,
  IsMadeBy,
  IsPlanned,
  IsRootBy,
  IsUnmapped,
  IsUnmappedBy,
  IsUnnamed,
  LeavesNone,
  OpensOne,
  StaysTold,
};

use crate::fs::SteppedFs;
use pt_host::{Bytes, Errno, Fd, Host, HostOp, HostReply, HostSeat, HostValue, OpenFlags};
use pt_iface::{Context, Refusal, Request};
use pt_job::AnyJob;
use pt_maps::{IdMap, IdRules, MapError, XattrMap};
use pt_req::{Config, Plan};
use pt_session::{Event, EventReply, Session, one_limit};
use std::alloc::Global;
use std::marker::Model;
use std::mem;

/// A file system that serves a directory of the host.
#[derive(Drop)]
pub struct PassthroughFs {
    plan: Plan,
    session: Session,
    root: Fd,
}

impl Model for PassthroughFs {
    ghost use Rattle.pt_fs.specs.FileSystem.{FileSystem};

    ghost Value = { FileSystem };

    ghost view = { λ fs. record { plan = fs.plan; tables = fs.session; root = fs.root } };
}

/// These rules as a map. One that is refused is `EINVAL`.
fn map_of(alloc: Global, rules: &IdRules) -> Result<IdMap, Refusal>
    ensures map { IfOk result (λ map. map ≡ rules.now) }
    ensures accepted { OnOk result (AreAccepted rules.now) }
    ensures refused { IfErr result (λ why. IsUnmappedBy rules.now why) }
{
    match IdMap::from_rules(alloc, rules.as_slice()) {
        Ok(map) => Ok(map),
        Err(MapError::Memory) => Err(Refusal::Memory),
        Err(_) => Err(Refusal::Errno(Errno::EINVAL)),
    }
}

/// The host's name of the attribute that holds a file's capabilities, where these rules make it another one. Rules
/// that leave a name unmet are `EINVAL`.
fn capability_of(alloc: Global, rules: &Option<XattrMap>) -> Result<Option<Bytes>, Refusal>
    ensures moved { IfOk result (λ moved. moved ≡ moved_capability rules.now) }
    ensures accepted { OnOk result (LeavesNone rules.now) }
    ensures refused { IfErr result (λ why. IsUnnamed rules.now why) }
{
    let Some(map) = rules else {
        return Ok(None);
    };
    if !map.is_terminated() {
        return Err(Refusal::Errno(Errno::EINVAL));
    }
    match map.other_name(b"security.capability") {
        Ok(other) => Ok(other),
        Err(_) => Err(Refusal::Memory),
    }
}

/// The configuration with a map of each of its lists of rules, that of uids first, that of names last.
fn mapped(alloc: Global, cfg: Config) -> Result<Plan, Refusal>
    ensures plan { IfOk result (λ plan. IsPlanned cfg plan) }
    ensures mapped { OnOk result (AreMapped cfg) }
    ensures refused { IfErr result (λ why. IsUnmappedBy cfg.uid_map why ⊎ IsUnmappedBy cfg.gid_map why
        ⊎ IsUnnamed cfg.xattrmap why) }
{
    let uid_map = map_of(alloc, &cfg.uid_map)?;
    let gid_map = map_of(alloc, &cfg.gid_map)?;
    let capability = capability_of(alloc, &cfg.xattrmap)?;
    Ok(Plan {
        config: cfg,
        uid_map,
        gid_map,
        capability,
    })
}

/// Opens the host's root by one call, as a descriptor that only stands for it.
fn open_root<H: Host>(host: &mut H, seat: &mut HostSeat) -> Result<Fd, Refusal>
    ensures call { (reply : HostReply) × H.does host.old seat.old opens_root reply host.new seat.new
        × IsRootBy reply result }
    ensures seat { seat.new ≡ seat.old }
    ensures opened { IfOk result (λ root. OpensOne (H.tree host.old) root (H.tree host.new)) }
    ensures nothing_opened { OnErr result (StaysTold (H.tree host.old) (H.tree host.new)) }
{
    let op = HostOp::OpenRoot {
        path: b"/",
        flags: OpenFlags::PATH,
    };
    match host.call(seat, &op) {
        HostReply::Ok(HostValue::Fd(root)) => Ok(root),
        HostReply::Refused(errno) | HostReply::Fault(errno) => Err(Refusal::Errno(errno)),
        HostReply::NoMemory => Err(Refusal::Memory),
        HostReply::Ok(_) => Err(Refusal::Errno(Errno::EIO)),
    }
}

impl PassthroughFs {
    /// Makes the maps of ids, that of uids first, sees that the rules of names leave none unmet, and then opens the
    /// host's root, and nothing else. A refusal leaves no new descriptor.
    pub fn new<H: Host>(
        alloc: Global,
        cfg: Config,
        host: &mut H,
        seat: &mut HostSeat,
    ) -> Result<PassthroughFs, Refusal>
        // Where all rules are accepted there is one call, a step of the host's own, whose answer is the file system's
        // or its refusal's cause. Rules that are refused are EINVAL without a call.
        ensures call { (AreMapped cfg × ((reply : HostReply) × H.does host.old seat.old opens_root reply host.new
            seat.new × IsMadeBy reply result)) ⊎ (IsUnmapped cfg result × (host.new ≡ host.old)) }
        ensures plan { IfOk result (λ fs. IsPlanned cfg fs.plan) }
        ensures tables { IfOk result (λ fs. fs.tables ≡ empty_tables (cfg.guest_fd_limit ∷ [])) }
        ensures seat { seat.new ≡ seat.old }
        ensures opened { IfOk result (λ fs. OpensOne (H.tree host.old) fs.root (H.tree host.new)) }
        ensures nothing_opened { OnErr result (StaysTold (H.tree host.old) (H.tree host.new)) }
    {
        let limits = one_limit(cfg.guest_fd_limit);
        let plan = mapped(alloc, cfg)?;
        let root = open_root(host, seat)?;
        let session = Session::new(alloc, limits);
        Ok(PassthroughFs {
            plan,
            session,
            root,
        })
    }
}

impl SteppedFs for PassthroughFs {
    ghost plan_of = { λ fs. fs.plan };

    ghost tables = { λ fs. fs.tables };

    ghost root = { λ fs. fs.root };

    fn start(&self, alloc: Global, who: Context, request: Request) -> Result<AnyJob, Request> {
        AnyJob::start(alloc, &self.plan, who, request)
    }

    fn event(&mut self, event: &Event<'_>) -> EventReply {
        self.session.event(event)
    }

    fn keep_fds(&self) -> [Fd; 1] {
        [self.root]
    }

    fn plan(&self) -> &Plan {
        &self.plan
    }

    fn session(&self) -> &Session {
        &self.session
    }

    fn replace_session(&mut self, session: Session) -> Session {
        mem::replace(&mut self.session, session)
    }
}
