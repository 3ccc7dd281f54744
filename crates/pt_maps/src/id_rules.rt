ghost use Rattle.std.specs.Prelude.{◌≡◌, ◌++◌, ◌∷◌, [], OnOk, OnErr};

use crate::rule::IdRule;
use std::alloc::{AllocError, Global};
use std::marker::Model;

/// Rules for ids in their order, as they are given: whether a map can be made of them is told by `IdMap::from_rules`.
#[derive(Drop)]
pub struct IdRules {
    rules: Vec<IdRule>,
}

impl Model for IdRules {
    ghost use Rattle.std.specs.Prelude.{List};
    ghost use Rattle.pt_maps.specs.declared.rule.IdRule.{IdRule};

    ghost Value = { List IdRule };

    ghost view = { λ all. all.rules.items };
}

impl IdRules {
    /// No rules, which takes no memory.
    pub fn new(alloc: Global) -> Self
        ensures { result ≡ [] }
    {
        IdRules {
            rules: Vec::new(alloc),
        }
    }

    /// The vector's rules, which takes no memory.
    pub fn from_vec(rules: Vec<IdRule>) -> Self
        ensures { result ≡ rules.items }
    {
        IdRules { rules }
    }

    /// Puts a rule behind the others.
    pub fn push(&mut self, rule: IdRule) -> Result<(), AllocError>
        ensures ok { OnOk result (self.new ≡ self.old ++ rule ∷ []) }
        ensures err { OnErr result (self.new ≡ self.old) }
    {
        self.rules.push(rule)?;
        Ok(())
    }

    pub fn as_slice(&self) -> &[IdRule]
        ensures { result.now ≡ self.now }
    {
        self.rules.as_slice()
    }
}
