ghost use Rattle.std.specs.Prelude.{◌≡◌, true, ◌↔◌, IsTrue, length};
ghost use Rattle.pt_tables.specs.Tables.{empty_tables};
ghost use Rattle.pt_rows.specs.Same.{IsSame};
ghost use Rattle.pt_tables.specs.Rows.{number_rows, ChangesRow, EndsRow, Dies};
ghost use Rattle.pt_rows.specs.Rows.{IsAmong};
ghost use Rattle.pt_tables.specs.Happens.{Happens, agreed, slots_left};
ghost use Rattle.pt_tables.specs.Pending.{AddsUp, AddsUpIn, AddsUpBelow};
ghost use Rattle.pt_tables.specs.Kept.{tables_of};

use crate::classes::{ByClass, copy_classes, of_class, put_class};
use crate::event::KeptEvent;
use crate::form::Negotiated;
use crate::reply::{EventRefusal, EventReply};
use crate::row::Row;
use crate::store::RowStore;
use std::alloc::Global;

/// The tables as they are kept.
#[derive(Drop)]
pub struct SessionTables {
    pub era: u64,
    pub next_number: u64,
    pub next_handle: u64,
    pub next_row: u64,
    /// How many are left of each class.
    pub slots: ByClass,
    pub limits: ByClass,
    pub negotiated: Negotiated,
    pub store: RowStore,
}

impl SessionTables {
    pub fn new(alloc: Global, limits: ByClass) -> SessionTables
        ensures { tables_of result ≡ empty_tables limits.items }
    {
        SessionTables {
            era: 0,
            next_number: 2,
            next_handle: 0,
            next_row: 0,
            slots: copy_classes(&limits),
            limits,
            negotiated: Negotiated::NONE,
            store: RowStore::new(alloc),
        }
    }

    /// Puts the row as it is now in its place.
    pub fn change(&mut self, was: &Row, now: Row)
        requires among { IsAmong was.now self.old.store.rows }
        requires same { IsSame number_rows.keyed was.now now }
        requires object { now.ids ≡ was.now.ids }
        ensures { ChangesRow number_rows (tables_of self.old) was.now now (tables_of self.new) }
    {
        self.store.replace(was, now);
    }

    /// Ends the row: its descriptor is to be closed.
    pub fn end(&mut self, row: &Row)
        requires { IsAmong row.now self.old.store.rows }
        ensures { EndsRow number_rows (tables_of self.old) row.now (tables_of self.new) }
    {
        self.store.end(row);
    }

    /// Lets a live row die, and tells how many descriptors are to be closed for it.
    pub fn kill(&mut self, row: &Row) -> u64
        requires among { IsAmong row.now self.old.store.rows }
        requires live { row.now.live ≡ true }
        ensures { Dies number_rows (tables_of self.old) row.now result (tables_of self.new) }
    {
        if row.pins == 0 {
            self.end(row);
            1
        } else {
            self.store.bury(row);
            0
        }
    }

    /// Keeps what was agreed on, if it is said.
    pub fn agree(&mut self, negotiated: Option<Negotiated>)
        ensures { tables_of self.new ≡ agreed negotiated (tables_of self.old) }
    {
        if let Some(negotiated) = negotiated {
            self.negotiated = negotiated;
        }
    }

    /// How many classes have a limit.
    pub fn classes(&self) -> u32
        ensures { result ≡ length (tables_of self.now).limits }
    {
        self.limits.len() as u32
    }

    /// How many slots of this class are left.
    pub fn slots_left(&self, class: u32) -> u64
        ensures { result ≡ slots_left (tables_of self.now) class }
    {
        of_class(&self.slots, class)
    }

    pub fn take_fd(&mut self, class: u32) -> EventReply
        ensures { Happens (tables_of self.old) (KeptEvent.TakeFd class) result (tables_of self.new) }
    {
        let left = self.slots_left(class);
        if left == 0 {
            return EventReply::Refused(EventRefusal::NoSlot);
        }
        put_class(&mut self.slots, class, left - 1);
        EventReply::Taken
    }

    pub fn give_fd(&mut self, class: u32) -> EventReply
        ensures { Happens (tables_of self.old) (KeptEvent.GiveFd class) result (tables_of self.new) }
    {
        let left = self.slots_left(class);
        if left >= of_class(&self.limits, class) {
            return EventReply::Refused(EventRefusal::NotLive);
        }
        put_class(&mut self.slots, class, left + 1);
        EventReply::Given
    }

    pub fn draw_node(&mut self) -> EventReply
        ensures { Happens (tables_of self.old) KeptEvent.DrawNode result (tables_of self.new) }
    {
        let number = self.next_number;
        if number == u64::MAX {
            return EventReply::Refused(EventRefusal::Last);
        }
        self.next_number += 1;
        EventReply::Drawn { number }
    }

    pub fn take_closing(&mut self) -> EventReply
        ensures { Happens (tables_of self.old) KeptEvent.TakeClosing result (tables_of self.new) }
    {
        match self.store.take_closing() {
            None => EventReply::Refused(EventRefusal::NotLive),
            Some(closing) => EventReply::Closing(closing),
        }
    }

    /// Whether the slots of a class that are left and those that are held are all that there are.
    fn adds_up_in(&self, class: u32) -> bool
        ensures { IsTrue result ↔ AddsUpIn (tables_of self.now) class }
    {
        let left = of_class(&self.slots, class);
        let limit = of_class(&self.limits, class);
        left <= limit && self.store.slots(class) as u64 == limit - left
    }

    /// Whether that is so of each class that is less.
    fn adds_up_below(&self, classes: u32) -> bool
        ensures { IsTrue result ↔ AddsUpBelow (tables_of self.now) classes }
    {
        if classes == 0 {
            return true;
        }
        self.adds_up_in(classes - 1) && self.adds_up_below(classes - 1)
    }

    /// Whether it is so of each class.
    pub fn adds_up(&self) -> bool
        ensures { IsTrue result ↔ AddsUp (tables_of self.now) }
    {
        self.adds_up_below(self.classes())
    }
}
