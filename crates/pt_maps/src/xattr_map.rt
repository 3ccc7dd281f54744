ghost use Rattle.std.specs.Prelude.{◌≡◌, ◌≢◌, ◌++◌, Some, None, IfOk, IfErr, IfSome, OnOk, IsTrue, map};
ghost use Rattle.std.specs.Prelude.{option_map, OnErr, [], ◌∷◌, length};
ghost use Rattle.std.specs.List.{list_any};
ghost use Rattle.pt_maps.specs.NameRules.{all_rules, is_terminated, meets_name, meets_all};
ghost use Rattle.pt_maps.specs.MappedNames.{met_rule, client_kind, client_name, other_name};
ghost use Rattle.pt_maps.specs.MappedNames.{listed_name, names_of_list, server_list};
ghost use Rattle.pt_maps.specs.MappedNames.{nul_ended};
ghost use Rattle.pt_maps.specs.declared.xattr_rule.Side.TheVariants.{OfClient, OfServer};

use crate::error::MapError;
use crate::xattr_rule::{NameRule, RuleKind, Side, XattrRule};
use pt_host::Bytes;
use std::alloc::{AllocError, Global};
use std::marker::Model;

/// Rules by which names of extended attributes are translated: the first that meets a name says what becomes of it.
#[derive(Drop)]
pub struct XattrMap {
    alloc: Global,
    rules: Vec<XattrRule>,
}

impl Model for XattrMap {
    ghost use Rattle.std.specs.Prelude.{List};
    ghost use Rattle.pt_maps.specs.declared.xattr_rule.XattrRule.{XattrRule};

    ghost Value = { List XattrRule };

    ghost view = { λ map. map.rules.items };
}

/// What becomes of a name that the client asks for.
#[derive(Drop)]
pub enum AppliedRule {
    /// The host is asked for this name.
    Pass(Bytes),
    /// The client may not use the name.
    Deny,
    /// There are no such names.
    Unsupported,
}

/// The first rule that meets a name from this side.
fn met_rule<'a>(rules: &'a [XattrRule], side: Side, name: &[u8]) -> Option<NameRule<'a>>
    ensures rule { result ≡ met_rule rules.now side name.now }
    ensures meets { IfSome result (λ rule. IsTrue (meets_name side name.now rule)) }
{
    for rule in rules {
        if let Some(met) = rule.first_for(side, name) {
            return Some(met);
        }
    }
    None
}

/// These bytes, and others behind them.
fn joined(alloc: Global, front: &[u8], rest: &[u8]) -> Result<Bytes, AllocError>
    ensures { IfOk result (λ bytes. bytes ≡ front.now ++ rest.now) }
{
    let mut bytes = Vec::new(alloc);
    bytes.extend_from_slice(front)?;
    bytes.extend_from_slice(rest)?;
    Ok(Bytes::from_vec(bytes))
}

/// The names of a list of extended attributes, without the empty ones.
pub fn names_of_list(alloc: Global, list: &[u8]) -> Result<Vec<&[u8]>, AllocError>
    ensures { IfOk result (λ names. map (λ name. name.now) names.items ≡ names_of_list list.now) }
{
    list.split(|byte| *byte == 0)
        .filter(|name| !name.is_empty())
        .collect(alloc)
}

/// Puts a name and its end behind others.
fn push_name(kept: &mut Vec<u8>, name: &[u8]) -> Result<(), AllocError>
    ensures { OnOk result (kept.new.items ≡ kept.old.items ++ nul_ended name.now) }
{
    kept.extend_from_slice(name)?;
    kept.push(0)?;
    Ok(())
}

/// Whether some rule meets every name from this side.
fn any_meets_all(rules: &[XattrRule], side: Side) -> bool
    ensures { result ≡ list_any (meets_all side) (all_rules rules.now) }
{
    for rule in rules {
        if rule.any_meets_all(side) {
            return true;
        }
    }
    false
}

impl XattrMap {
    /// These rules. Takes no memory.
    pub fn from_rules(alloc: Global, rules: Vec<XattrRule>) -> XattrMap
        ensures { result ≡ rules.items }
    {
        XattrMap { alloc, rules }
    }

    /// Puts a rule behind these.
    pub fn push(&mut self, rule: XattrRule) -> Result<(), AllocError>
        ensures ok { OnOk result (self.new ≡ self.old ++ rule ∷ []) }
        ensures err { OnErr result (self.new ≡ self.old) }
    {
        self.rules.push(rule)?;
        Ok(())
    }

    /// How many rules these are.
    pub fn len(&self) -> usize
        ensures { result ≡ length self.now }
    {
        self.rules.len()
    }

    /// Whether some rule meets every name of the client, and some every name that the host lists.
    pub fn is_terminated(&self) -> bool
        ensures { result ≡ is_terminated self.now }
    {
        any_meets_all(&self.rules, Side::OfClient) && any_meets_all(&self.rules, Side::OfServer)
    }

    /// What becomes of a name that the client asks for.
    pub fn map_client_xattr(&self, name: &[u8]) -> Result<AppliedRule, MapError>
        ensures applied { IfOk result (λ applied. client_name self.now name.now ≡ Some applied) }
        ensures unmet { IfErr result (λ error. error ≢ MapError.Memory →
            (error ≡ MapError.Unmet) × (client_name self.now name.now ≡ None)) }
    {
        let Some(rule) = met_rule(&self.rules, Side::OfClient, name) else {
            return Err(MapError::Unmet);
        };
        match rule.kind {
            RuleKind::Prefix => Ok(AppliedRule::Pass(joined(self.alloc, rule.prepend, name)?)),
            RuleKind::Okay => Ok(AppliedRule::Pass(Bytes::from_slice(self.alloc, name)?)),
            RuleKind::Bad => Ok(AppliedRule::Deny),
            RuleKind::Unsupported => Ok(AppliedRule::Unsupported),
        }
    }

    /// The kind of the rule that meets a name that the client asks for. Takes no memory.
    pub fn client_kind(&self, name: &[u8]) -> Option<RuleKind>
        ensures { result ≡ client_kind self.now name.now }
    {
        match met_rule(&self.rules, Side::OfClient, name) {
            Some(rule) => Some(rule.kind),
            None => None,
        }
    }

    /// The name that the host has for one of the client's, where that is another one. Its one refusal is that memory
    /// ran out.
    pub fn other_name(&self, name: &[u8]) -> Result<Option<Bytes>, MapError>
        ensures other { IfOk result (λ other. other ≡ other_name self.now name.now) }
        ensures memory { IfErr result (λ error. error ≡ MapError.Memory) }
    {
        match self.map_client_xattr(name) {
            Ok(AppliedRule::Pass(other)) => {
                if other.as_slice() == name {
                    Ok(None)
                } else {
                    Ok(Some(other))
                }
            }
            Ok(_) | Err(MapError::Unmet) => Ok(None),
            Err(_) => Err(MapError::Memory),
        }
    }

    /// What the client is told of a list of names of the host's, a NUL behind each.
    pub fn map_server_xattrlist(&self, list: &[u8]) -> Result<Bytes, MapError>
        ensures names { IfOk result (λ names. server_list self.now list.now ≡ Some names) }
        ensures unmet { IfErr result (λ error. error ≢ MapError.Memory →
            (error ≡ MapError.Unmet) × (server_list self.now list.now ≡ None)) }
    {
        let mut kept = Vec::new(self.alloc);
        let names = names_of_list(self.alloc, list)?;
        for name in &names {
            self.push_listed(&mut kept, name)?;
        }
        Ok(Bytes::from_vec(kept))
    }

    /// Puts behind others what the client is told of one name of the host's.
    fn push_listed(&self, kept: &mut Vec<u8>, name: &[u8]) -> Result<(), MapError>
        ensures kept { OnOk result (
            option_map (λ one. kept.old.items ++ one) (listed_name self.now name.now) ≡ Some kept.new.items) }
        ensures unmet { IfErr result (λ error. error ≢ MapError.Memory →
            (error ≡ MapError.Unmet) × (listed_name self.now name.now ≡ None)) }
    {
        let Some(rule) = met_rule(&self.rules, Side::OfServer, name) else {
            return Err(MapError::Unmet);
        };
        match rule.kind {
            RuleKind::Prefix => push_name(kept, &name[rule.prepend.len()..])?,
            RuleKind::Okay => push_name(kept, name)?,
            RuleKind::Bad | RuleKind::Unsupported => {}
        }
        Ok(())
    }
}
