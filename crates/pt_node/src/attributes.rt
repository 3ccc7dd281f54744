ghost use Rattle.std.specs.Prelude.{◌≡◌, [], OnOk, OnErr};
ghost use Rattle.std.specs.Option.{option_copied};
ghost use Rattle.pt_node.specs.Attributes.{value_of, with_value, without_value};

use pt_host::Bytes;
use std::alloc::{AllocError, Global};
use std::collections::BTreeMap;
use std::marker::Model;

/// The extended attributes of an object, each name with its value.
#[derive(Drop)]
pub struct Attributes {
    pub kept: BTreeMap<Vec<u8>, Bytes>,
}

impl Model for Attributes {
    ghost use Rattle.std.specs.Prelude.{List, ℕ, map};

    ghost Value = { List (List ℕ × List ℕ) };

    ghost view = { λ attributes. map (λ entry. (entry.0.items, entry.1)) attributes.kept.entries };
}

impl Attributes {
    pub fn new(alloc: Global) -> Attributes
        ensures { result ≡ [] }
    {
        Attributes {
            kept: BTreeMap::new(alloc),
        }
    }

    /// The value of this name.
    pub fn get(&self, name: &[u8]) -> Option<&Bytes>
        ensures { option_copied result ≡ value_of name.now self.now }
    {
        self.kept.get(name)
    }

    /// One more name, or the name has another value.
    pub fn insert(&mut self, name: Vec<u8>, value: Bytes) -> Result<(), AllocError>
        ensures ok { OnOk result (self.new ≡ with_value name.items value self.old) }
        ensures err { OnErr result (self.new ≡ self.old) }
    {
        self.kept.insert(name, value)?;
        Ok(())
    }

    /// The name has no value any more.
    pub fn remove(&mut self, name: &[u8])
        ensures { self.new ≡ without_value name.now self.old }
    {
        let _ = self.kept.remove(name);
    }
}
