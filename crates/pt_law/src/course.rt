ghost use Rattle.std.specs.Prelude.{◌⊎◌, List, [], ◌++◌, Option};
ghost use Rattle.pt_host.specs.declared.seat.HostSeat.{HostSeat};
ghost use Rattle.pt_tables.specs.Tables.{Tables};
ghost use Rattle.pt_frame.specs.Deed.{Deed, Step};
ghost use Rattle.pt_frame.specs.Frame.{CutAfter, CutInFull};
ghost use Rattle.pt_frame.specs.Grammar.{Belongs};
ghost use Rattle.pt_frame.specs.Made.{Made, RunsAlone};
ghost use Rattle.pt_frame.specs.Memory.{RanOut};
ghost use Rattle.pt_frame.specs.Tree.{RequestTree, grammar_of_tree};
ghost use Rattle.pt_frame.specs.declared.act.ActReply.{ActReply};
ghost use Rattle.pt_frame.specs.declared.finish.Finish.{Finish};
ghost use Rattle.pt_law.specs.Discipline.{idle, blank, ComesToEnd};
ghost use Rattle.pt_law.specs.Told.{StepMayBeTold, AllMayBeTold};
ghost use Rattle.pt_law.specs.Keeps.{Keeps};
ghost use Rattle.pt_law.specs.Branch.{TakesNone, IsLost, GaveUp, IsOfBranch};
ghost use Rattle.pt_law.specs.Settled.{HasSettled};

use pt_host::Host;

/// Whatever a job's tree is, where it keeps the discipline the job's steps keep it to their end, whole or cut. Where
/// it takes no memory of its own and no step lacked any, it had not given up before it was cut. One that is not cut
/// loses its seat, or gives up where its tree takes memory, or is answered by a branch of its tree. What a job was
/// given it gave back by its end, or its answer has it; and it gave nothing back before it was given.
pub fn any_course()
    ensures whole { (seat : HostSeat) (tree : RequestTree) (steps : List Step) (end : Finish) → Keeps tree [] [] blank →
        AllMayBeTold steps → Belongs (grammar_of_tree seat tree) steps end → ComesToEnd idle steps end }
    ensures cut { (seat : HostSeat) (tree : RequestTree) (so_far steps : List Step) (end : Finish) →
        Keeps tree [] [] blank → AllMayBeTold so_far → AllMayBeTold steps →
        CutAfter seat (grammar_of_tree seat tree) so_far steps end → ComesToEnd idle (so_far ++ steps) end }
    ensures full { (seat : HostSeat) (tree : RequestTree) (so_far steps : List Step) (end : Finish) → TakesNone tree →
        AllMayBeTold so_far → (RanOut so_far → ⊥) →
        CutAfter seat (grammar_of_tree seat tree) so_far steps end →
        CutInFull seat (grammar_of_tree seat tree) so_far steps end }
    ensures branch { (seat : HostSeat) (tree : RequestTree) (steps : List Step) (end : Finish) →
        Belongs (grammar_of_tree seat tree) steps end →
        IsLost end ⊎ (GaveUp tree steps end ⊎ IsOfBranch tree end steps) }
    ensures settled { (steps : List Step) (end : Finish) → ComesToEnd idle steps end → HasSettled steps end }
{}

/// What is made of any host and of the tables is told such replies as may come.
pub fn steps_told<H: Host>()
    ensures made { (deed : Option Deed) (told : ActReply) (host : H) (seat : HostSeat) (tables : Tables)
        (host_after : H) (seat_after : HostSeat) (tables_after : Tables) →
        Made H.does deed told host seat tables host_after seat_after tables_after → StepMayBeTold deed told }
    ensures alone { (steps : List Step) (host : H) (seat : HostSeat) (tables : Tables) (host_after : H)
        (seat_after : HostSeat) (tables_after : Tables) →
        RunsAlone H.does steps host seat tables host_after seat_after tables_after → AllMayBeTold steps }
{}
