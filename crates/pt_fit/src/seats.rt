ghost use Rattle.std.specs.Prelude.{◌≡◌, ◌<◌, ◌^◌, List, ◌++◌, None};
ghost use Rattle.pt_host.specs.Seat.{IsStartingSeat};
ghost use Rattle.pt_host.specs.declared.seat.HostSeat.{HostSeat};
ghost use Rattle.pt_frame.specs.Deed.{Step};
ghost use Rattle.pt_frame.specs.Frame.{CutAfter};
ghost use Rattle.pt_frame.specs.Grammar.{Belongs};
ghost use Rattle.pt_frame.specs.Past.{past_of};
ghost use Rattle.pt_frame.specs.declared.finish.Finish.{Finish};
ghost use Rattle.pt_req.specs.declared.plan.Plan.{Plan};
ghost use Rattle.pt_job.specs.Pattern.{Asked, grammar_for};
ghost use Rattle.pt_law.specs.Told.{AllMayBeTold};
ghost use Rattle.pt_law.specs.Under.{IsSeated, AllSeatsAnswer};
ghost use Rattle.pt_fit.specs.Asker.{agreed_in, role_for};

/// Whatever a job asks, whole or cut: an object is made as whoever asks, by the host's ids, and under the umask of who
/// asks where access control lists were agreed on, a symbolic link aside; and all else but the seat's own calls under
/// the seat with which the job began, without `CAP_FSETID` exactly where the request drops it for that very call; it
/// ends with the seat with which it began. That holds until a step that restores the seat fails, and none of these is
/// refused before one fails. A seat's capabilities are 32 bits.
pub fn asked_seated()
    ensures whole { (plan : Plan) (seat : HostSeat) (asked : Asked) (steps : List Step) (end : Finish) →
        IsStartingSeat seat → seat.eff_caps.0 < 2 ^ 32 → AllMayBeTold steps → AllSeatsAnswer seat steps →
        Belongs (grammar_for plan seat asked) steps end →
        IsSeated (role_for plan seat (agreed_in steps) asked) seat steps }
    ensures cut { (plan : Plan) (seat : HostSeat) (asked : Asked) (so_far steps : List Step) (end : Finish) →
        IsStartingSeat seat → seat.eff_caps.0 < 2 ^ 32 → AllMayBeTold (so_far ++ steps) →
        AllSeatsAnswer seat (so_far ++ steps) →
        (past_of so_far).lost ≡ None → CutAfter seat (grammar_for plan seat asked) so_far steps end →
        IsSeated (role_for plan seat (agreed_in (so_far ++ steps)) asked) seat (so_far ++ steps) }
{}
