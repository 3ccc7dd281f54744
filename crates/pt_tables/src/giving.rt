//! How numbers are given.
ghost use Rattle.std.specs.Prelude.{◌≡◌, ◌<◌, OnOk, IfErr};
ghost use Rattle.pt_tables.specs.Change.{kept_claim};
ghost use Rattle.pt_tables.specs.Tables.{HasNumber, HasIds, Agree};
ghost use Rattle.pt_tables.specs.Rows.{NoRow};
ghost use Rattle.pt_tables.specs.Outcome.{Adds};
ghost use Rattle.pt_tables.specs.Happens.{Happens, with_row, new_row, agreed};
ghost use Rattle.pt_tables.specs.Kept.{tables_of, Matches};

use crate::event::{Claim, KeptEvent, NewRoot, NewRow};
use crate::form::{Negotiated, RowForm};
use crate::reply::{EventRefusal, EventReply, GivenNumber};
use crate::row::Row;
use crate::tables::SessionTables;
use pt_host::ObjIds;
use pt_rows::Pinned;

/// What became of a search for a row of an object, to give its number once more.
#[derive(Clone, Copy)]
pub enum Matching {
    /// It has no row.
    Nothing,
    /// The count of its row stands at its end.
    Full,
    Given(GivenNumber),
}

/// The object of a new row, and its class.
#[derive(Clone, Copy)]
struct NewObject<'a> {
    form: &'a RowForm,
    ids: ObjIds,
    mode: u32,
    class: u32,
}

impl SessionTables {
    fn give_again(&mut self, ids: ObjIds) -> Matching
        ensures { Matches (tables_of self.old) ids result (tables_of self.new) }
    {
        match self.store.object(ids) {
            None => Matching::Nothing,
            Some(row) => {
                if row.count == u64::MAX {
                    return Matching::Full;
                }
                self.change(&row, row.with_count(row.count + 1));
                Matching::Given(GivenNumber {
                    number: row.number,
                    class: row.class,
                })
            }
        }
    }

    /// Adds a row of a number and an object that have none, and keeps what was agreed on, if it is said.
    fn add(
        &mut self,
        number: u64,
        count: u64,
        new: &NewObject<'_>,
        negotiated: Option<Negotiated>,
    ) -> EventReply
        requires agree { Agree (tables_of self.old) }
        requires number { NoRow (tables_of self.old) (HasNumber number) }
        requires object { NoRow (tables_of self.old) (HasIds new.now.ids) }
        ensures { Adds (tables_of self.old) (EventReply.Inserted number)
            (agreed negotiated (with_row (tables_of self.old)
            (new_row (tables_of self.old) number new.now.form.now new.now.ids new.now.mode new.now.class count)))
            result (tables_of self.new) }
    {
        let serial = self.next_row;
        if serial == u64::MAX {
            return EventReply::Refused(EventRefusal::Last);
        }
        let row = Row {
            serial,
            number,
            form: new.form.copy(),
            ids: new.ids,
            mode: new.mode,
            class: new.class,
            count,
            pins: 0,
            live: true,
        };
        if self.store.insert(row).is_err() {
            return EventReply::Refused(EventRefusal::Memory);
        }
        self.next_row = serial + 1;
        self.agree(negotiated);
        EventReply::Inserted { number }
    }

    pub fn claim(&mut self, claim: &Claim<'_>) -> EventReply
        ensures { Happens (tables_of self.old) (KeptEvent.Claim (kept_claim claim.now)) result (tables_of self.new) }
    {
        if claim.era != self.era {
            return EventReply::Refused(EventRefusal::Overtaken);
        }
        match self.give_again(claim.ids) {
            Matching::Nothing => EventReply::Absent,
            Matching::Full => EventReply::Refused(EventRefusal::Last),
            Matching::Given(given) => EventReply::Claimed(given),
        }
    }

    pub fn insert(&mut self, new: &NewRow) -> EventReply
        requires { Agree (tables_of self.old) }
        ensures { Happens (tables_of self.old) (KeptEvent.Insert new.now) result (tables_of self.new) }
    {
        if new.era != self.era {
            return EventReply::Refused(EventRefusal::Overtaken);
        }
        match self.give_again(new.ids) {
            Matching::Full => EventReply::Refused(EventRefusal::Last),
            Matching::Given(given) => EventReply::Found(given),
            Matching::Nothing => {
                if self.store.live(new.number).is_some() {
                    return EventReply::Refused(EventRefusal::Live);
                }
                let object = NewObject {
                    form: &new.form,
                    ids: new.ids,
                    mode: new.mode,
                    class: new.class,
                };
                self.add(new.number, 1, &object, None)
            }
        }
    }

    pub fn insert_root(&mut self, new: &NewRoot) -> EventReply
        requires { Agree (tables_of self.old) }
        ensures { Happens (tables_of self.old) (KeptEvent.InsertRoot new.now) result (tables_of self.new) }
    {
        if new.era != self.era {
            return EventReply::Refused(EventRefusal::Overtaken);
        }
        if self.store.live(1).is_some() || self.store.object(new.ids).is_some() {
            return EventReply::Refused(EventRefusal::Live);
        }
        let object = NewObject {
            form: &new.form,
            ids: new.ids,
            mode: new.mode,
            class: 0,
        };
        self.add(1, 2, &object, new.negotiated)
    }
}
