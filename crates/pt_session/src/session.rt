ghost use Rattle.std.specs.Prelude.{◌≡◌, ◌↔◌, IsTrue, length};
ghost use Rattle.pt_tables.specs.Change.{change_of};
ghost use Rattle.pt_tables.specs.Tables.{Agree, empty_tables};
ghost use Rattle.pt_tables.specs.Happens.{Happens, slots_left};
ghost use Rattle.pt_tables.specs.LiveAfter.{IsLiveAfter, IsHandleAfter};
ghost use Rattle.pt_tables.specs.Pending.{all_pending, AddsUp};

use pt_tables::{ByClass, Event, EventReply, SessionTables};
use std::alloc::Global;
use std::marker::Model;

/// What the daemon knows of the numbers that it gave to the guest, changed by one event at a time.
#[derive(Drop)]
pub struct Session {
    tables: SessionTables,
}

impl Model for Session {
    ghost use Rattle.pt_tables.specs.Tables.{Tables, Agree};
    ghost use Rattle.pt_tables.specs.Kept.{tables_of};

    ghost Value = { Tables };

    ghost view = { λ session. tables_of session.tables };

    ghost invariant = { λ session. Agree (tables_of session.tables) };
}

impl Session {
    /// A session without rows, with so many descriptor slots of each class. It takes no memory yet.
    pub fn new(alloc: Global, limits: ByClass) -> Session
        ensures tables { result ≡ empty_tables limits.items }
        ensures agree { Agree result }
    {
        Session {
            tables: SessionTables::new(alloc, limits),
        }
    }

    /// One event. Only an event that inserts a row takes memory.
    pub fn event(&mut self, event: &Event<'_>) -> EventReply
        ensures happens { Happens self.old (change_of event.now) result self.new }
        ensures agree { Agree self.new }
    {
        self.tables.event(event)
    }

    /// How many classes have a limit.
    pub fn classes(&self) -> u32
        ensures { result ≡ length self.now.limits }
    {
        self.tables.classes()
    }

    /// How many descriptor slots of this class are left: none of one that has no limit.
    pub fn slots_left(&self, class: u32) -> u64
        ensures { result ≡ slots_left self.now class }
    {
        self.tables.slots_left(class)
    }

    /// The least live number above the given one, or the least of all, with its count.
    pub fn live_after(&self, above: Option<u64>) -> Option<(u64, u64)>
        ensures { IsLiveAfter self.now.rows above result }
    {
        self.tables.store.live_after(above)
    }

    /// The least live handle above the given one, or the least of all, with its number.
    pub fn handle_after(&self, above: Option<u64>) -> Option<(u64, u64)>
        ensures { IsHandleAfter self.now.handles above result }
    {
        self.tables.store.handle_after(above)
    }

    /// How many rows and closing entries there are.
    pub fn pending(&self) -> u64
        ensures { result ≡ all_pending self.now }
    {
        self.tables.store.pending() as u64
    }

    /// Whether, of each class, the slots that are left and those of rows and closing entries add up to the limit.
    pub fn adds_up(&self) -> bool
        ensures { IsTrue result ↔ AddsUp self.now }
    {
        self.tables.adds_up()
    }
}
