ghost use Rattle.std.specs.Prelude.{◌≡◌};

use crate::form::{Negotiated, RowForm};
use crate::row::Closing;
use pt_host::{Fd, ObjIds};

/// Why an event was refused. A refused event changes nothing.
#[derive(Clone, Copy)]
pub enum EventRefusal {
    /// No live row, no such pin, nothing to close, or no slot that is out.
    NotLive,
    /// The session began anew since the request began.
    Overtaken,
    /// No descriptor slot is left.
    NoSlot,
    /// A counter stands at its end.
    Last,
    /// The number or the object has a live row.
    Live,
    Memory,
}

/// What resolving a number tells: its row, which is pinned now, how its object is kept, its ids and mode,
/// and its class.
#[derive(Drop)]
pub struct Resolved {
    pub row: u64,
    pub form: RowForm,
    pub ids: ObjIds,
    pub mode: u32,
    pub class: u32,
}

/// A number that was given once more, and its class.
#[derive(Clone, Copy)]
pub struct GivenNumber {
    pub number: u64,
    pub class: u32,
}

impl Resolved {
    /// The same once more, which takes no memory.
    pub fn copy(&self) -> Resolved
        ensures { result ≡ self.now }
    {
        Resolved {
            row: self.row,
            form: self.form.copy(),
            ids: self.ids,
            mode: self.mode,
            class: self.class,
        }
    }
}

/// What an event is answered.
#[derive(Drop)]
pub enum EventReply {
    Began { era: u64, negotiated: Negotiated },
    Resolved(Resolved),
    /// So many descriptors were put on the closing list.
    Done { closings: u64 },
    Claimed(GivenNumber),
    Absent,
    Taken,
    Given,
    Drawn { number: u64 },
    Inserted { number: u64 },
    /// A row of this object was inserted meanwhile, and its number was given once more.
    Found(GivenNumber),
    Closing(Closing),
    /// A handle's row and its descriptor.
    Pinned { row: u64, fd: Fd },
    /// The session's new era, and how many descriptors were put on the closing list.
    Cleared { era: u64, closings: u64 },
    Refused(EventRefusal),
}

impl EventReply {
    /// The same reply once more, which takes no memory.
    pub fn copy(&self) -> EventReply
        ensures { result ≡ self.now }
    {
        match self {
            EventReply::Began { era, negotiated } => EventReply::Began {
                era: *era,
                negotiated: *negotiated,
            },
            EventReply::Resolved(resolved) => EventReply::Resolved(resolved.copy()),
            EventReply::Done { closings } => EventReply::Done {
                closings: *closings,
            },
            EventReply::Claimed(given) => EventReply::Claimed(*given),
            EventReply::Absent => EventReply::Absent,
            EventReply::Taken => EventReply::Taken,
            EventReply::Given => EventReply::Given,
            EventReply::Drawn { number } => EventReply::Drawn { number: *number },
            EventReply::Inserted { number } => EventReply::Inserted { number: *number },
            EventReply::Found(given) => EventReply::Found(*given),
            EventReply::Closing(first) => EventReply::Closing(*first),
            EventReply::Pinned { row, fd } => EventReply::Pinned { row: *row, fd: *fd },
            EventReply::Cleared { era, closings } => EventReply::Cleared {
                era: *era,
                closings: *closings,
            },
            EventReply::Refused(refusal) => EventReply::Refused(*refusal),
        }
    }
}
