//! What is pinned, unpinned and taken back.
ghost use Rattle.std.specs.Prelude.{◌≡◌, ◌≢◌, ◌≤◌, true};
ghost use Rattle.pt_tables.specs.Rows.{number_rows, Unpins};
ghost use Rattle.pt_rows.specs.Rows.{IsAmong};
ghost use Rattle.pt_tables.specs.Happens.{Happens, Falls, ForgetsOne};
ghost use Rattle.pt_tables.specs.Kept.{tables_of};

use crate::event::KeptEvent;
use crate::reply::{EventRefusal, EventReply, Resolved};
use crate::row::Row;
use crate::tables::SessionTables;
use pt_rows::Pinned;

impl SessionTables {
    pub fn resolve(&mut self, number: u64) -> EventReply
        ensures { Happens (tables_of self.old) (KeptEvent.Resolve number) result (tables_of self.new) }
    {
        match self.store.live(number) {
            None => EventReply::Refused(EventRefusal::NotLive),
            Some(row) => {
                if row.pins == u64::MAX {
                    return EventReply::Refused(EventRefusal::Last);
                }
                self.change(&row, row.with_pins(row.pins + 1));
                EventReply::Resolved(Resolved {
                    row: row.serial,
                    form: row.form,
                    ids: row.ids,
                    mode: row.mode,
                    class: row.class,
                })
            }
        }
    }

    pub fn unpin(&mut self, serial: u64) -> EventReply
        ensures { Happens (tables_of self.old) (KeptEvent.Unpin serial) result (tables_of self.new) }
    {
        match self.store.pinned(serial) {
            None => EventReply::Refused(EventRefusal::NotLive),
            Some(row) => EventReply::Done {
                closings: self.release_pin(&row),
            },
        }
    }

    /// Gives a pin of the row back, and tells how many descriptors are to be closed for it.
    fn release_pin(&mut self, row: &Row) -> u64
        requires among { IsAmong row.now self.old.store.rows }
        requires pinned { row.now.pins ≢ 0 }
        ensures { Unpins number_rows (tables_of self.old) row.now result (tables_of self.new) }
    {
        let pins = row.pins - 1;
        if pins == 0 && !row.live {
            self.end(row);
            return 1;
        }
        self.change(row, row.with_pins(pins));
        0
    }

    /// Lets the count of a live row fall, and tells how many descriptors are to be closed for it.
    fn fall(&mut self, row: &Row, amount: u64) -> u64
        requires among { IsAmong row.now self.old.store.rows }
        requires live { row.now.live ≡ true }
        ensures tables { Falls (tables_of self.old) row.now amount result (tables_of self.new) }
        ensures bound { result ≤ 1 }
    {
        if amount >= row.count {
            return self.kill(row);
        }
        self.change(row, row.with_count(row.count - amount));
        0
    }

    /// Takes one pair back, and tells how many descriptors are to be closed for it.
    pub fn forget_one(&mut self, number: u64, amount: u64) -> u64
        ensures tables { ForgetsOne (tables_of self.old) number amount result (tables_of self.new) }
        ensures bound { result ≤ 1 }
    {
        match self.store.live(number) {
            None => 0,
            Some(row) => self.fall(&row, amount),
        }
    }

    pub fn forget(&mut self, list: &[(u64, u64)]) -> EventReply
        ensures { Happens (tables_of self.old) (KeptEvent.Forget list.now) result (tables_of self.new) }
    {
        let mut closings: u64 = 0;
        for pair in list {
            closings += self.forget_one(pair.0, pair.1);
        }
        EventReply::Done { closings }
    }

    pub fn give_back(&mut self, era: u64, number: u64) -> EventReply
        ensures { Happens (tables_of self.old) (KeptEvent.GiveBack era number) result (tables_of self.new) }
    {
        if era != self.era {
            return EventReply::Refused(EventRefusal::Overtaken);
        }
        match self.store.live(number) {
            None => EventReply::Refused(EventRefusal::NotLive),
            Some(row) => EventReply::Done {
                closings: self.fall(&row, 1),
            },
        }
    }
}
