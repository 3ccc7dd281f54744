ghost use Rattle.std.specs.Prelude.{◌≡◌, ◌<◌, ◌≤◌, ◌++◌, ◌∷◌, ◌↔◌, [], length, IfOk, OnErr, IfSome, IsSome};

use arrayvec::ArrayVec;
use std::alloc::{AllocError, Global};
use std::marker::Model;

/// A list of supplementary groups, 32 at most.
#[derive(Drop)]
pub struct Groups {
    kept: ArrayVec<u32, 32>,
}

impl Model for Groups {
    ghost use Rattle.std.specs.Prelude.{List, ℕ};

    ghost Value = { List ℕ };

    ghost view = { λ groups. groups.kept.items };
}

impl Groups {
    pub fn new() -> Self
        ensures { result ≡ [] }
    {
        Groups {
            kept: ArrayVec::new(),
        }
    }

    /// None where there are more than 32.
    pub fn from_slice(groups: &[u32]) -> Option<Groups>
        ensures fits { IsSome result ↔ (length groups.now ≤ 32) }
        ensures groups { IfSome result (λ kept. kept ≡ groups.now) }
    {
        match ArrayVec::try_from(groups) {
            Ok(kept) => Some(Groups { kept }),
            Err(_) => None,
        }
    }

    pub fn push(&mut self, group: u32)
        requires { length self.old < 32 }
        ensures { self.new ≡ self.old ++ group ∷ [] }
    {
        self.kept.push(group);
    }

    pub fn as_slice(&self) -> &[u32]
        ensures groups { result.now ≡ self.now }
        ensures most { length result.now ≤ 32 }
    {
        self.kept.as_slice()
    }

    /// The same groups once more, which takes no memory.
    pub fn copy(&self) -> Groups
        ensures { result ≡ self.now }
    {
        let mut kept = ArrayVec::new();
        for group in self.kept.as_slice() {
            kept.push(*group);
        }
        Groups { kept }
    }
}

/// Where a list of groups lies: in place, or in memory of its own.
#[derive(Drop)]
enum Place {
    Few(Groups),
    Many(Vec<u32>),
}

/// The groups that a call asks for, of any number. Only more than 32 take memory.
#[derive(Drop)]
pub struct GroupList {
    place: Place,
}

impl Model for GroupList {
    ghost use Rattle.std.specs.Prelude.{List, ℕ};
    ghost use Rattle.pt_host.specs.GroupPlace.{groups_at};

    ghost Value = { List ℕ };

    ghost view = { λ list. groups_at list.place };
}

impl GroupList {
    /// A copy of these groups.
    pub fn from_slice(alloc: Global, groups: &[u32]) -> Result<Self, AllocError>
        ensures ok { IfOk result (λ list. list ≡ groups.now) }
        ensures err { OnErr result (32 < length groups.now) }
    {
        if let Some(few) = Groups::from_slice(groups) {
            return Ok(GroupList {
                place: Place::Few(few),
            });
        }
        let many = groups.to_vec(alloc)?;
        Ok(GroupList {
            place: Place::Many(many),
        })
    }

    pub fn as_slice(&self) -> &[u32]
        ensures { result.now ≡ self.now }
    {
        match &self.place {
            Place::Few(groups) => groups.as_slice(),
            Place::Many(groups) => groups.as_slice(),
        }
    }
}
