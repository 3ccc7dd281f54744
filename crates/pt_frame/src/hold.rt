ghost use Rattle.std.specs.Prelude.{◌≡◌, ◌+◌, ◌<◌, ◌≤◌, [], ◌∷◌, true, List, Some, None, length, IfSome, IfNone};
ghost use Rattle.std.specs.Prelude.{drop};
ghost use Rattle.pt_frame.specs.declared.hold.Hold.{Hold};
ghost use Rattle.pt_frame.specs.Frame.{behind};
ghost use Rattle.pt_frame.specs.Machine.Room.{most_holds};

use arrayvec::ArrayVec;
use pt_host::{Caps, Fd};
use std::marker::Model;

/// What a job has to give back. The last five are scopes: what was changed of the seat, which goes back to what it
/// was as the job began.
#[derive(Clone, Copy)]
pub enum Hold {
    /// A pin on a row, and the descriptor by which its object is kept, where it is kept by one.
    Pin { row: u64, fd: Option<Fd> },
    /// A pin on a handle's row, and the handle's descriptor.
    HandlePin { row: u64, fd: Fd },
    /// A descriptor.
    Fd(Fd),
    /// A slot of this class, which goes with the descriptor that lies on it.
    Slot { class: u32 },
    /// A number that was given once and is not yet answered.
    Count { era: u64, number: u64 },
    Groups,
    EffectiveGid,
    EffectiveUid,
    /// These capabilities were dropped.
    Dropped(Caps),
    Umask,
}

impl Default for Hold {
    fn default() -> Self {
        Hold::Slot { class: 0 }
    }
}

/// What a closing brought, to be given back at once.
#[derive(Clone, Copy)]
pub enum Taken {
    Nothing,
    Slot { class: u32 },
    /// A descriptor, and whether a slot of its class goes back with it.
    Fd { fd: Fd, slot: bool, class: u32 },
}

/// What a job has to give back, the last one first.
#[derive(Drop)]
pub struct Holds {
    kept: ArrayVec<Hold, 17>,
}

impl Model for Holds {
    ghost use Rattle.std.specs.Prelude.{List, reverse};
    ghost use Rattle.pt_frame.specs.declared.hold.Hold.{Hold};

    ghost Value = { List Hold };

    ghost view = { λ holds. reverse holds.kept.items };
}

impl Holds {
    pub fn new() -> Self
        ensures { result ≡ [] }
    {
        Holds {
            kept: ArrayVec::new(),
        }
    }

    pub fn len(&self) -> usize
        ensures { result ≡ length self.now }
    {
        self.kept.len()
    }

    pub fn push(&mut self, hold: Hold)
        requires { length self.old < most_holds }
        ensures { self.new ≡ hold ∷ self.old }
    {
        self.kept.push(hold);
    }

    /// The last one.
    fn last(&self) -> Option<Hold>
        ensures some { IfSome result (λ hold. self.now ≡ hold ∷ drop 1 self.now) }
        ensures none { IfNone result (self.now ≡ []) }
    {
        self.kept.as_slice().last().copied()
    }

    /// The one behind the last one.
    fn second(&self) -> Option<Hold>
        ensures some { IfSome result (λ hold. behind true self.now ≡ hold ∷ drop 1 (behind true self.now)) }
        ensures none { IfNone result (behind true self.now ≡ []) }
    {
        let there = self.kept.len();
        if there < 2 {
            return None;
        }
        self.kept.as_slice().get(there - 2).copied()
    }

    /// The last one, or the one behind it where that passes.
    pub fn next(&self, passes: bool) -> Option<Hold>
        ensures some { IfSome result (λ hold. behind passes self.now ≡ hold ∷ drop 1 (behind passes self.now)) }
        ensures none { IfNone result (behind passes self.now ≡ []) }
    {
        if passes { self.second() } else { self.last() }
    }

    pub fn pop(&mut self) -> Option<Hold>
        ensures some { IfSome result (λ hold. self.old ≡ hold ∷ self.new) }
        ensures none { IfNone result (self.old ≡ []) }
        ensures same { IfNone result (self.new ≡ []) }
    {
        self.kept.pop()
    }
}
