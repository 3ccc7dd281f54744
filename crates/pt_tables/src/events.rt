//! Which part of the tables an event is for.
ghost use Rattle.pt_tables.specs.Change.{change_of};
ghost use Rattle.pt_tables.specs.Tables.{Agree};
ghost use Rattle.pt_tables.specs.Happens.{Happens};
ghost use Rattle.pt_tables.specs.Kept.{tables_of};

use crate::event::Event;
use crate::reply::EventReply;
use crate::tables::SessionTables;

impl SessionTables {
    pub fn event(&mut self, event: &Event<'_>) -> EventReply
        requires { Agree (tables_of self.old) }
        ensures { Happens (tables_of self.old) (change_of event.now) result (tables_of self.new) }
    {
        match event {
            Event::Begin => EventReply::Began {
                era: self.era,
                negotiated: self.negotiated,
            },
            Event::Resolve { number } => self.resolve(*number),
            Event::Unpin { row } => self.unpin(*row),
            Event::Claim(claim) => self.claim(claim),
            Event::TakeFd { class } => self.take_fd(*class),
            Event::GiveFd { class } => self.give_fd(*class),
            Event::DrawNode => self.draw_node(),
            Event::Insert(new) => self.insert(new),
            Event::InsertRoot(new) => self.insert_root(new),
            Event::Forget { list } => self.forget(list),
            Event::ForgetOne { number, count } => self.forget(&[(*number, *count)]),
            Event::GiveBack { era, number } => self.give_back(*era, *number),
            Event::DrawHandle => self.draw_handle(),
            Event::InsertHandle(new) => self.insert_handle(*new),
            Event::PinHandle { handle, number } => self.pin_handle(*handle, *number),
            Event::UnpinHandle { row } => self.unpin_handle(*row),
            Event::Release { handle, number } => self.release(*handle, *number),
            Event::Clear => self.clear(),
            Event::TakeClosing => self.take_closing(),
        }
    }
}
