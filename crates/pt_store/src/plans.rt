ghost use Rattle.std.specs.Prelude.{◌≡◌, [], OnOk, OnErr};
ghost use Rattle.pt_rules.specs.Faults.{plan_for, with_plan, without_plan};

use pt_host::Errno;
use std::alloc::{AllocError, Global};
use std::collections::BTreeMap;
use std::marker::Model;

/// The calls that are to fail, by their numbers, each with its error.
#[derive(Drop)]
pub struct Plans {
    kept: BTreeMap<u64, Errno>,
}

impl Model for Plans {
    ghost use Rattle.std.specs.Prelude.{List, ℕ};
    ghost use Rattle.pt_host.specs.declared.ids.Errno.{Errno};

    ghost Value = { List (ℕ × Errno) };

    ghost view = { λ plans. plans.kept.entries };
}

impl Plans {
    pub fn new(alloc: Global) -> Plans
        ensures { result ≡ [] }
    {
        Plans {
            kept: BTreeMap::new(alloc),
        }
    }

    /// The error that is planned for this call.
    pub fn get(&self, call: u64) -> Option<Errno>
        ensures { result ≡ plan_for call self.now }
    {
        self.kept.get(&call).copied()
    }

    /// One plan more, or another one for this call.
    pub fn insert(&mut self, call: u64, errno: Errno) -> Result<(), AllocError>
        ensures ok { OnOk result (self.new ≡ with_plan call errno self.old) }
        ensures err { OnErr result (self.new ≡ self.old) }
    {
        self.kept.insert(call, errno)?;
        Ok(())
    }

    /// Nothing is planned for this call any more.
    pub fn remove(&mut self, call: u64)
        ensures { self.new ≡ without_plan call self.old }
    {
        let _ = self.kept.remove(&call);
    }
}
