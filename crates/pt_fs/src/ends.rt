ghost use Rattle.std.specs.Prelude.{◌≡◌, ◌≤◌, ◌<◌, [], ◌∷◌, ◌++◌, length, vec_capacity};
ghost use Rattle.pt_fs.specs.Each.{answer_of};
ghost use Rattle.pt_fs.specs.Trace.{seated};

use crate::room::push_within;
use pt_frame::Finish;
use pt_host::HostSeat;
use pt_iface::Answer;

/// A job that lost its seat is answered as one that is cut.
pub fn answered(finish: Finish) -> Answer
    ensures { result ≡ answer_of finish }
{
    match finish {
        Finish::Answer(answer) => answer,
        Finish::Lost(_) => Answer::Cut,
    }
}

/// A seat more, where there is one.
pub fn push_seat(seats: &mut Vec<HostSeat>, seat: Option<HostSeat>)
    requires { length seats.old.items < vec_capacity seats.old }
    ensures items { seats.new.items ≡ seats.old.items ++ seated (seat ∷ []) }
    ensures capacity { vec_capacity seats.old ≤ vec_capacity seats.new }
{
    if let Some(seat) = seat {
        push_within(seats, seat);
    }
}
