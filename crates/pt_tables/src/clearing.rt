//! How the session begins anew.
ghost use Rattle.std.specs.Prelude.{◌≡◌, ◌≤◌, ◌+◌, length};
ghost use Rattle.pt_tables.specs.Rows.{number_rows, handle_rows, AllDie};
ghost use Rattle.pt_tables.specs.Happens.{Happens};
ghost use Rattle.pt_tables.specs.Kept.{tables_of};

use crate::event::KeptEvent;
use crate::form::Negotiated;
use crate::reply::{EventRefusal, EventReply};
use crate::tables::SessionTables;

impl SessionTables {
    /// Lets all live numbers die, the least first, and tells how many descriptors are to be closed for them.
    fn kill_numbers(&mut self) -> u64
        ensures die { AllDie number_rows (tables_of self.old) result (tables_of self.new) }
        ensures bound { result ≤ length self.new.store.closing }
    {
        let mut closings: u64 = 0;
        while let Some(row) = self.store.least() {
            closings += self.kill(&row);
        }
        closings
    }

    /// Lets all live handles die, the least first, and tells how many descriptors are to be closed for them.
    fn kill_handles(&mut self) -> u64
        ensures die { AllDie handle_rows (tables_of self.old) result (tables_of self.new) }
        ensures bound { length self.old.store.closing + result ≤ u64.MAX }
    {
        let mut closings: u64 = 0;
        while let Some(row) = self.store.least_handle() {
            closings += self.kill_handle(&row);
        }
        closings
    }

    pub fn clear(&mut self) -> EventReply
        ensures { Happens (tables_of self.old) KeptEvent.Clear result (tables_of self.new) }
    {
        if self.era == u64::MAX {
            return EventReply::Refused(EventRefusal::Last);
        }
        let era = self.era + 1;
        let numbers = self.kill_numbers();
        let handles = self.kill_handles();
        self.era = era;
        self.negotiated = Negotiated::NONE;
        EventReply::Cleared {
            era,
            closings: numbers + handles,
        }
    }
}
