ghost use Rattle.std.specs.Prelude.{◌≡◌, ◌≢◌, ◌++◌, ◌∷◌, [], Some, None, IfOk, IfErr, OnOk, ok_or};
ghost use Rattle.pt_maps.specs.Refusal.{refusal_behind, AreAccepted, IsFirstRefusal};
ghost use Rattle.pt_maps.specs.Translated.{to_host, to_guest};
ghost use Rattle.pt_maps.specs.Index.{IsIndexed};

use crate::error::MapError;
use crate::index::{Starts, meets_one, put_start, rule_of};
use crate::rule::{Direction, IdRule};
use std::alloc::Global;
use std::collections::BTreeMap;
use std::marker::Model;

/// Rules by which ids are translated, each direction by itself. An id of which no rule says anything stays as it is.
#[derive(Drop)]
pub struct IdMap {
    rules: Vec<IdRule>,
    starts: BothStarts,
}

impl Model for IdMap {
    ghost use Rattle.std.specs.Prelude.{List};
    ghost use Rattle.pt_maps.specs.declared.rule.IdRule.{IdRule};
    ghost use Rattle.pt_maps.specs.Index.{IsIndexed};

    ghost Value = { List IdRule };

    ghost view = { λ map. map.rules.items };

    ghost invariant = { λ map. IsIndexed map.rules.items map.starts.to_host map.starts.to_guest };
}

/// The starts of the same rules in each direction.
#[derive(Drop)]
struct BothStarts {
    to_host: Starts,
    to_guest: Starts,
}

impl IdMap {
    /// No rules, which takes no memory: each id stays as it is.
    pub fn empty(alloc: Global) -> Self
        ensures { result ≡ [] }
    {
        IdMap {
            rules: Vec::new(alloc),
            starts: BothStarts::new(alloc),
        }
    }

    /// Where it keeps its rules.
    pub fn allocator(&self) -> Global {
        *self.rules.allocator()
    }

    /// These rules, unless one is refused: then the error has the place of the first one, counted from 0.
    pub fn from_rules(alloc: Global, rules: &[IdRule]) -> Result<Self, MapError>
        ensures rules { IfOk result (λ map. map ≡ rules.now) }
        ensures accepted { OnOk result (AreAccepted rules.now) }
        ensures refused { IfErr result (λ error. error ≢ MapError.Memory → IsFirstRefusal rules.now error) }
    {
        let mut starts = BothStarts::new(alloc);
        for (place, rule) in rules.iter().enumerate() {
            starts.add(&rules[..place], *rule)?;
        }
        Ok(IdMap {
            rules: rules.to_vec(alloc)?,
            starts,
        })
    }

    /// The host's id for one of the guest's. Takes no memory.
    pub fn map_guest(&self, id: u32) -> Result<u32, MapError>
        ensures id { result ≡ ok_or (to_host self.now id) (MapError.Forbidden id) }
        ensures accepted { AreAccepted self.now }
    {
        match rule_of(Direction::ToHost, &self.rules, &self.starts.to_host, id) {
            Some(rule) => rule.host_id(id).ok_or(MapError::Forbidden(id)),
            None => Ok(id),
        }
    }

    /// The guest's id for one of the host's. Takes no memory.
    pub fn map_host(&self, id: u32) -> u32
        ensures id { result ≡ to_guest self.now id }
        ensures accepted { AreAccepted self.now }
    {
        match rule_of(Direction::ToGuest, &self.rules, &self.starts.to_guest, id) {
            Some(rule) => rule.guest_id(id),
            None => id,
        }
    }
}

impl BothStarts {
    fn new(alloc: Global) -> Self
        ensures { IsIndexed [] result.to_host result.to_guest }
    {
        BothStarts {
            to_host: BTreeMap::new(alloc),
            to_guest: BTreeMap::new(alloc),
        }
    }

    /// Puts in the rule that follows these, unless it is refused.
    fn add(&mut self, rules: &[IdRule], rule: IdRule) -> Result<(), MapError>
        requires { IsIndexed rules.now self.old.to_host self.old.to_guest }
        ensures ok { OnOk result (IsIndexed (rules.now ++ rule ∷ []) self.new.to_host self.new.to_guest) }
        ensures refused { IfErr result (λ error. error ≢ MapError.Memory →
            refusal_behind rules.now rule ≡ Some error) }
    {
        if let Some(error) = self.refusal(rules, rule) {
            return Err(error);
        }
        put_start(Direction::ToHost, rules, &mut self.to_host, rule)?;
        put_start(Direction::ToGuest, rules, &mut self.to_guest, rule)?;
        Ok(())
    }

    /// What refuses the rule that follows these.
    fn refusal(&self, rules: &[IdRule], rule: IdRule) -> Option<MapError>
        requires { IsIndexed rules.now self.now.to_host self.now.to_guest }
        ensures { result ≡ refusal_behind rules.now rule }
    {
        let place = rules.len() as u64;
        if meets_one(Direction::ToHost, rules, &self.to_host, rule)
            || meets_one(Direction::ToGuest, rules, &self.to_guest, rule)
        {
            Some(MapError::Overlap(place))
        } else if rule.is_past_end() {
            Some(MapError::PastEnd(place))
        } else {
            None
        }
    }
}
