//! The seam between a run and its tables: what makes the events of jobs, over a session that is a run's own or shared.

ghost use Rattle.std.specs.Prelude.{◌≡◌, ℕ, Option};
ghost use Rattle.pt_tables.specs.Change.{Change, change_of};
ghost use Rattle.pt_tables.specs.declared.reply.EventReply.{EventReply};
ghost use Rattle.pt_job.specs.Access.{HasSpare, FallsByOne};

use pt_session::{Event, EventReply, Session};

/// What makes the events of jobs.
pub trait SessionAccess {
    /// From this access an event may be answered so, and leaves that access.
    ghost makes: { Self → Change → EventReply → Self → Type 0 };

    /// For how many events it has room, where that is bounded.
    ghost spare_of: { Self → Option ℕ };

    /// One event, for which there is room.
    fn event(&mut self, event: &Event<'_>) -> EventReply
        requires { HasSpare (spare_of self.old) 1 }
        ensures made { makes self.old (change_of event.now) result self.new }
        ensures falls { FallsByOne (spare_of self.old) (spare_of self.new) };

    /// For how many events there is room. None where there is room for any.
    fn spare(&self) -> Option<u64>
        ensures { result ≡ spare_of self.now };
}

impl SessionAccess for Session {
    ghost use Rattle.std.specs.Prelude.{None};
    ghost use Rattle.pt_tables.specs.Happens.{Happens};

    ghost makes = { Happens };

    ghost spare_of = { λ session. None };

    fn event(&mut self, event: &Event<'_>) -> EventReply {
        Session::event(self, event)
    }

    fn spare(&self) -> Option<u64> {
        None
    }
}
