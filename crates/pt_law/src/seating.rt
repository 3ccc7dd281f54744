//! The seat of each job: which it is at each step, whatever the host and whatever other jobs do in between.

ghost use Rattle.std.specs.Prelude.{◌≡◌, List, [], ◌++◌, Option, None};
ghost use Rattle.pt_host.specs.declared.seat.HostSeat.{HostSeat};
ghost use Rattle.pt_tables.specs.Tables.{Tables};
ghost use Rattle.pt_frame.specs.Deed.{Deed, Step};
ghost use Rattle.pt_frame.specs.Frame.{CutAfter};
ghost use Rattle.pt_frame.specs.Grammar.{Belongs};
ghost use Rattle.pt_frame.specs.Made.{Made, RunsAlone};
ghost use Rattle.pt_frame.specs.Past.{past_of, KeepsGroups};
ghost use Rattle.pt_frame.specs.Seats.{seat_at, seat_by};
ghost use Rattle.pt_frame.specs.Tended.{Tends};
ghost use Rattle.pt_frame.specs.Tree.{RequestTree, grammar_of_tree};
ghost use Rattle.pt_frame.specs.declared.act.ActReply.{ActReply};
ghost use Rattle.pt_frame.specs.declared.finish.Finish.{Finish};
ghost use Rattle.pt_law.specs.Told.{AllMayBeTold};
ghost use Rattle.pt_law.specs.Under.{Role, IsSeated, SeatAnswers, AllSeatsAnswer};
ghost use Rattle.pt_law.specs.Wearing.{Seats};

use pt_host::Host;

/// The seat after a step, and after all steps of a job, is the fold of what each call leaves, over any host; and the
/// calls on it are answered by the rules for them.
pub fn steps_seated<H: Host>()
    ensures made { (deed : Option Deed) (told : ActReply) (host : H) (seat : HostSeat) (tables : Tables)
        (host_after : H) (seat_after : HostSeat) (tables_after : Tables) →
        Made H.does deed told host seat tables host_after seat_after tables_after →
        seat_after ≡ seat_by seat deed told }
    ensures alone { (steps : List Step) (host : H) (seat : HostSeat) (tables : Tables) (host_after : H)
        (seat_after : HostSeat) (tables_after : Tables) →
        RunsAlone H.does steps host seat tables host_after seat_after tables_after → seat_after ≡ seat_at seat steps }
    ensures answers { (deed : Option Deed) (told : ActReply) (host : H) (seat : HostSeat) (tables : Tables)
        (host_after : H) (seat_after : HostSeat) (tables_after : Tables) →
        Made H.does deed told host seat tables host_after seat_after tables_after → SeatAnswers seat deed told }
    ensures all_answer { (steps : List Step) (host : H) (seat : HostSeat) (tables : Tables) (host_after : H)
        (seat_after : HostSeat) (tables_after : Tables) →
        RunsAlone H.does steps host seat tables host_after seat_after tables_after → AllSeatsAnswer seat steps }
{}

/// Where a tree makes its calls under the right seats, the steps of its job are made so, whole or cut: an object as
/// whoever asks, and all else as the job began, less the capabilities that a call lacks; and the job ends with the
/// seat that it began with. That holds until a step that restores the seat fails.
pub fn seats_in_runs()
    ensures whole { (role : Role) (seat : HostSeat) (tree : RequestTree) (steps : List Step)
        (end : Finish) → KeepsGroups seat → Tends seat tree [] → Seats role seat tree [] seat →
        AllMayBeTold steps → AllSeatsAnswer seat steps → Belongs (grammar_of_tree seat tree) steps end →
        IsSeated role seat steps }
    ensures cut { (role : Role) (seat : HostSeat) (tree : RequestTree) (so_far steps : List Step)
        (end : Finish) → KeepsGroups seat → Tends seat tree [] → Seats role seat tree [] seat →
        AllMayBeTold (so_far ++ steps) → AllSeatsAnswer seat (so_far ++ steps) → (past_of so_far).lost ≡ None →
        CutAfter seat (grammar_of_tree seat tree) so_far steps end → IsSeated role seat (so_far ++ steps) }
{}
