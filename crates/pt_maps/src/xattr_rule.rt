ghost use Rattle.std.specs.Prelude.{◌≡◌, Some, None, if◌then◌else◌, find};
ghost use Rattle.std.specs.List.{list_any};
ghost use Rattle.pt_maps.specs.NameRules.{name_rule, mapped, rules_of, covers, front_of, meets_name, meets_all};

use pt_host::Bytes;
use std::marker::Model;

/// What becomes of a name that a rule meets.
#[derive(Clone, Copy)]
pub enum RuleKind {
    /// The client's name gets the prepend before it, and a listed one loses it.
    Prefix,
    /// It passes as it is.
    Okay,
    /// The client may not use it, and does not see it.
    Bad,
    /// The client is told that there are no such names, and does not see it.
    Unsupported,
}

/// Of whose names a rule speaks: those that the client asks for, those that the host lists, or both.
#[derive(Clone, Copy)]
pub enum RuleScope {
    Client,
    Server,
    All,
}

/// A rule for names of extended attributes, as the option `--xattrmap` of virtiofsd gives it.
#[derive(Drop)]
pub enum XattrRule {
    /// Kind and scope, the beginning of a client's names that it meets, and that of listed names, which is put before
    /// a client's.
    Rule(RuleKind, RuleScope, Bytes, Bytes),
    /// Key and prepend: names that begin with the key get the prepend, and names beyond the map are out of reach.
    Map(Bytes, Bytes),
}

/// Where a name comes from.
#[derive(Clone, Copy)]
pub(crate) enum Side {
    OfClient,
    OfServer,
}

impl RuleScope {
    fn covers(self, side: Side) -> bool
        ensures { result ≡ covers self side }
    {
        match (self, side) {
            (RuleScope::All, _)
            | (RuleScope::Client, Side::OfClient)
            | (RuleScope::Server, Side::OfServer) => true,
            (RuleScope::Client, Side::OfServer) | (RuleScope::Server, Side::OfClient) => false,
        }
    }
}

/// One of the plain rules that a rule stands for.
#[derive(Drop)]
pub(crate) struct NameRule<'a> {
    pub kind: RuleKind,
    scope: RuleScope,
    key: &'a [u8],
    pub prepend: &'a [u8],
}

impl<'a> Model for NameRule<'a> {
    ghost use Rattle.pt_maps.specs.NameRules.{NameRule, name_rule};

    ghost Value = { NameRule };

    ghost view = { λ rule. name_rule rule.kind rule.scope rule.key.now rule.prepend.now };
}

impl<'a> NameRule<'a> {
    fn new(kind: RuleKind, scope: RuleScope, key: &'a [u8], prepend: &'a [u8]) -> NameRule<'a>
        ensures { result ≡ name_rule kind scope key.now prepend.now }
    {
        NameRule {
            kind,
            scope,
            key,
            prepend,
        }
    }

    /// What a name from this side has to begin with.
    fn front(&self, side: Side) -> &'a [u8]
        ensures { result.now ≡ front_of side self.now }
    {
        match side {
            Side::OfClient => self.key,
            Side::OfServer => self.prepend,
        }
    }

    /// The rule, where it meets a name from this side.
    fn if_meets(self, side: Side, name: &[u8]) -> Option<NameRule<'a>>
        ensures { result ≡ (if meets_name side name.now self.entry then Some self.entry else None) }
    {
        if self.scope.covers(side) && name.starts_with(self.front(side)) {
            Some(self)
        } else {
            None
        }
    }

    /// Whether it meets every name from this side.
    fn meets_all(&self, side: Side) -> bool
        ensures { result ≡ meets_all side self.now }
    {
        self.scope.covers(side) && self.front(side).is_empty()
    }
}

/// The first rule of a `map` that meets a name from this side.
fn first_of_map<'a>(
    key: &'a [u8],
    prepend: &'a [u8],
    side: Side,
    name: &[u8],
) -> Option<NameRule<'a>>
    ensures { result ≡ find (meets_name side name.now) (mapped key.now prepend.now) }
{
    let first = NameRule::new(RuleKind::Prefix, RuleScope::All, key, prepend).if_meets(side, name);
    if key.is_empty() {
        let hidden = NameRule::new(RuleKind::Bad, RuleScope::All, &[], &[]).if_meets(side, name);
        return first.or(hidden);
    }
    let hidden = NameRule::new(RuleKind::Bad, RuleScope::All, prepend, key).if_meets(side, name);
    let other = NameRule::new(RuleKind::Okay, RuleScope::All, &[], &[]).if_meets(side, name);
    first.or(hidden).or(other)
}

impl XattrRule {
    /// The first of the plain rules that it stands for that meets a name from this side.
    pub(crate) fn first_for(&self, side: Side, name: &[u8]) -> Option<NameRule<'_>>
        ensures { result ≡ find (meets_name side name.now) (rules_of self.now) }
    {
        match self {
            XattrRule::Rule(kind, scope, key, prepend) => {
                NameRule::new(*kind, *scope, key.as_slice(), prepend.as_slice()).if_meets(
                    side, name,
                )
            }
            XattrRule::Map(key, prepend) => {
                first_of_map(key.as_slice(), prepend.as_slice(), side, name)
            }
        }
    }

    /// Whether a plain rule that it stands for meets every name from this side, as the last one of a `map` does.
    pub(crate) fn any_meets_all(&self, side: Side) -> bool
        ensures { result ≡ list_any (meets_all side) (rules_of self.now) }
    {
        match self {
            XattrRule::Rule(kind, scope, key, prepend) => {
                NameRule::new(*kind, *scope, key.as_slice(), prepend.as_slice()).meets_all(side)
            }
            XattrRule::Map(_, _) => true,
        }
    }
}
