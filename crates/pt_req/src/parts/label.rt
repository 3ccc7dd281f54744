//! Names of extended attributes: which of them a guest may use, and by which name the host has those.

ghost use Rattle.std.specs.Prelude.{◌≡◌, ℕ, List, Option, Result, Some, Ok};
ghost use Rattle.pt_frame.specs.Machine.Walk.{Reads};
ghost use Rattle.pt_frame.specs.Tree.{RequestTree, make_bytes};
ghost use Rattle.pt_host.specs.declared.ids.Errno.{Errno};
ghost use Rattle.pt_maps.specs.MappedNames.{client_name};
ghost use Rattle.pt_maps.specs.declared.xattr_map.AppliedRule.TheVariants as applied;
ghost use Rattle.pt_req.specs.Attributes.{by_rule, by_rules, host_label, host_name, is_blocked};
ghost use Rattle.pt_req.specs.Attributes.{Label as HostLabel, label_seen, name_seen};

use crate::plan::Plan;
use pt_frame::{Asked, Heard, Product, Stop, kept_bytes};
use pt_host::{Bytes, Errno};
use pt_iface::SecContext;
use pt_maps::{AppliedRule, RuleKind, XattrMap};
use pt_session::Negotiated;

/// A security context, by the host's name of its attribute, or the error by which the guest may not use that.
#[derive(Clone, Copy)]
pub struct Label<'a> {
    pub name: Result<&'a Bytes, Errno>,
    pub value: &'a Bytes,
}

/// Whether an attribute's name is one that a guest may not use: where access control lists were not agreed on, one
/// that a name of theirs begins with.
pub fn is_blocked(agreed: Negotiated, name: &[u8]) -> bool
    ensures { result ≡ is_blocked agreed name.now }
{
    let access: &[u8] = b"system.posix_acl_access";
    let default: &[u8] = b"system.posix_acl_default";
    !agreed.posix_acl && (access.starts_with(name) || default.starts_with(name))
}

/// The name that these rules make of one that passes them, which is made where it is not kept yet.
fn made_name<'a>(
    told: &'a [Heard],
    at: &mut usize,
    map: &'a XattrMap,
    name: &'a Bytes,
) -> Asked<'a, &'a Bytes>
    ensures { (made : List ℕ) (next : List ℕ → RequestTree) →
        client_name map.now name.now ≡ Some (applied.Pass made) →
        Reads told.now at.old at.new result (make_bytes made next) (λ name. next name.now) }
{
    let before = kept_bytes(told, at)?;
    match before {
        Some(bytes) => Ok(bytes),
        None => match map.map_client_xattr(name.as_slice()) {
            Ok(AppliedRule::Pass(made)) => Err(Stop::Makes(Product::Bytes(made))),
            _ => Err(Stop::GivesUp),
        },
    }
}

fn passed_name<'a>(
    told: &'a [Heard],
    at: &mut usize,
    map: &'a XattrMap,
    name: &'a Bytes,
) -> Asked<'a, Result<&'a Bytes, Errno>>
    ensures { (made : List ℕ) (next : Result (List ℕ) Errno → RequestTree) →
        client_name map.now name.now ≡ Some (applied.Pass made) →
        Reads told.now at.old at.new result (make_bytes made (λ kept. next (Ok kept))) (λ name. next (name_seen name)) }
{
    let name = made_name(told, at, map, name)?;
    Ok(Ok(name))
}

/// The same of any name, or the error by which these rules refuse it.
fn name_by_rule<'a>(
    told: &'a [Heard],
    at: &mut usize,
    map: &'a XattrMap,
    name: &'a Bytes,
) -> Asked<'a, Result<&'a Bytes, Errno>>
    ensures { (next : Result (List ℕ) Errno → RequestTree) →
        Reads told.now at.old at.new result (by_rule (client_name map.now name.now) next) (λ name. next (name_seen name)) }
{
    match map.client_kind(name.as_slice()) {
        Some(RuleKind::Prefix) => passed_name(told, at, map, name),
        Some(RuleKind::Okay) => passed_name(told, at, map, name),
        Some(RuleKind::Bad) => Ok(Err(Errno::EPERM)),
        Some(RuleKind::Unsupported) => Ok(Err(Errno::EOPNOTSUPP)),
        None => Ok(Err(Errno::EOPNOTSUPP)),
    }
}

fn name_by_rules<'a>(
    told: &'a [Heard],
    at: &mut usize,
    map: &'a Option<XattrMap>,
    name: &'a Bytes,
) -> Asked<'a, Result<&'a Bytes, Errno>>
    ensures { (next : Result (List ℕ) Errno → RequestTree) →
        Reads told.now at.old at.new result (by_rules map.now name.now next) (λ name. next (name_seen name)) }
{
    match map {
        None => Ok(Ok(name)),
        Some(map) => name_by_rule(told, at, map, name),
    }
}

/// The name that the host has for one of the guest's, or the error by which the guest may not use it. What it makes is
/// made behind a reply.
#[tactic(auto, unfolding(crate::specs::Attributes::host_name))]
pub fn host_name<'a>(
    told: &'a [Heard],
    at: &mut usize,
    plan: &'a Plan,
    agreed: Negotiated,
    name: &'a Bytes,
) -> Asked<'a, Result<&'a Bytes, Errno>>
    ensures { (next : Result (List ℕ) Errno → RequestTree) →
        Reads told.now at.old at.new result (host_name plan.now agreed name.now next) (λ name. next (name_seen name)) }
{
    if is_blocked(agreed, name.as_slice()) {
        return Ok(Err(Errno::EOPNOTSUPP));
    }
    name_by_rules(told, at, &plan.config.xattrmap, name)
}

fn label_named<'a>(
    told: &'a [Heard],
    at: &mut usize,
    plan: &'a Plan,
    agreed: Negotiated,
    label: &'a SecContext,
) -> Asked<'a, Option<Label<'a>>>
    ensures { (next : Option HostLabel → RequestTree) → Reads told.now at.old at.new result
        (host_label plan.now agreed (Some label.now) next) (λ label. next (label_seen label)) }
{
    let name = host_name(told, at, plan, agreed, &label.name)?;
    Ok(Some(Label {
        name,
        value: &label.value,
    }))
}

/// The context that the guest brings, if it does. What its name takes is made behind a reply.
#[tactic(auto, using(pt_frame::proofs::Reading::here))]
pub fn host_label<'a>(
    told: &'a [Heard],
    at: &mut usize,
    plan: &'a Plan,
    agreed: Negotiated,
    label: &'a Option<SecContext>,
) -> Asked<'a, Option<Label<'a>>>
    ensures { (next : Option HostLabel → RequestTree) → Reads told.now at.old at.new result
        (host_label plan.now agreed label.now next) (λ label. next (label_seen label)) }
{
    match label {
        None => Ok(None),
        Some(label) => label_named(told, at, plan, agreed, label),
    }
}
