//! What is drawn, inserted, pinned, unpinned and released of handles.
ghost use Rattle.std.specs.Prelude.{◌≡◌, ◌≢◌, true};
ghost use Rattle.pt_tables.specs.Tables.{Agree};
ghost use Rattle.pt_rows.specs.Same.{IsSame};
ghost use Rattle.pt_tables.specs.Rows.{handle_rows, ChangesRow, EndsRow, Dies, Unpins};
ghost use Rattle.pt_rows.specs.Rows.{IsAmong};
ghost use Rattle.pt_tables.specs.Happens.{Happens};
ghost use Rattle.pt_tables.specs.Kept.{tables_of};

use crate::event::{KeptEvent, NewHandle};
use crate::reply::{EventRefusal, EventReply};
use crate::row::HandleRow;
use crate::tables::SessionTables;
use pt_rows::Pinned;

impl SessionTables {
    /// Puts the handle's row as it is now in its place.
    pub fn change_handle(&mut self, was: &HandleRow, now: HandleRow)
        requires among { IsAmong was.now self.old.store.handles }
        requires same { IsSame handle_rows.keyed was.now now }
        ensures { ChangesRow handle_rows (tables_of self.old) was.now now (tables_of self.new) }
    {
        self.store.replace_handle(was, now);
    }

    /// Ends the handle's row: its descriptor is to be closed.
    pub fn end_handle(&mut self, row: &HandleRow)
        requires { IsAmong row.now self.old.store.handles }
        ensures { EndsRow handle_rows (tables_of self.old) row.now (tables_of self.new) }
    {
        self.store.end_handle(row);
    }

    /// Lets a live handle die, and tells how many descriptors are to be closed for it.
    pub fn kill_handle(&mut self, row: &HandleRow) -> u64
        requires among { IsAmong row.now self.old.store.handles }
        requires live { row.now.live ≡ true }
        ensures { Dies handle_rows (tables_of self.old) row.now result (tables_of self.new) }
    {
        if row.pins == 0 {
            self.end_handle(row);
            1
        } else {
            self.store.bury_handle(row);
            0
        }
    }

    pub fn draw_handle(&mut self) -> EventReply
        ensures { Happens (tables_of self.old) KeptEvent.DrawHandle result (tables_of self.new) }
    {
        let handle = self.next_handle;
        if handle == u64::MAX {
            return EventReply::Refused(EventRefusal::Last);
        }
        self.next_handle += 1;
        EventReply::Drawn { number: handle }
    }

    pub fn insert_handle(&mut self, new: NewHandle) -> EventReply
        requires { Agree (tables_of self.old) }
        ensures { Happens (tables_of self.old) (KeptEvent.InsertHandle new) result (tables_of self.new) }
    {
        if new.era != self.era {
            return EventReply::Refused(EventRefusal::Overtaken);
        }
        if self.store.live_handle(new.handle).is_some() {
            return EventReply::Refused(EventRefusal::Live);
        }
        let serial = self.next_row;
        if serial == u64::MAX {
            return EventReply::Refused(EventRefusal::Last);
        }
        let row = HandleRow {
            serial,
            handle: new.handle,
            number: new.number,
            fd: new.fd,
            class: new.class,
            pins: 0,
            live: true,
        };
        if self.store.insert_handle(row).is_err() {
            return EventReply::Refused(EventRefusal::Memory);
        }
        self.next_row = serial + 1;
        EventReply::Inserted { number: new.handle }
    }

    pub fn pin_handle(&mut self, handle: u64, number: u64) -> EventReply
        ensures { Happens (tables_of self.old) (KeptEvent.PinHandle handle number) result (tables_of self.new) }
    {
        match self.store.handle_of(handle, number) {
            None => EventReply::Refused(EventRefusal::NotLive),
            Some(row) => {
                if row.pins == u64::MAX {
                    return EventReply::Refused(EventRefusal::Last);
                }
                self.change_handle(&row, row.with_pins(row.pins + 1));
                EventReply::Pinned {
                    row: row.serial,
                    fd: row.fd,
                }
            }
        }
    }

    pub fn unpin_handle(&mut self, serial: u64) -> EventReply
        ensures { Happens (tables_of self.old) (KeptEvent.UnpinHandle serial) result (tables_of self.new) }
    {
        match self.store.pinned_handle(serial) {
            None => EventReply::Refused(EventRefusal::NotLive),
            Some(row) => EventReply::Done {
                closings: self.release_handle_pin(&row),
            },
        }
    }

    /// Gives a pin of the row back, and tells how many descriptors are to be closed for it.
    fn release_handle_pin(&mut self, row: &HandleRow) -> u64
        requires among { IsAmong row.now self.old.store.handles }
        requires pinned { row.now.pins ≢ 0 }
        ensures { Unpins handle_rows (tables_of self.old) row.now result (tables_of self.new) }
    {
        let pins = row.pins - 1;
        if pins == 0 && !row.live {
            self.end_handle(row);
            return 1;
        }
        self.change_handle(row, row.with_pins(pins));
        0
    }

    pub fn release(&mut self, handle: u64, number: u64) -> EventReply
        ensures { Happens (tables_of self.old) (KeptEvent.Release handle number) result (tables_of self.new) }
    {
        match self.store.handle_of(handle, number) {
            None => EventReply::Refused(EventRefusal::NotLive),
            Some(row) => EventReply::Done {
                closings: self.kill_handle(&row),
            },
        }
    }
}
