//! What holds of every list of steps that a job may make, whatever its request.

ghost use Rattle.std.specs.Prelude.{◌≡◌, Bool, false, true, List, [], None};
ghost use Rattle.pt_host.specs.declared.seat.HostSeat.{HostSeat};
ghost use Rattle.pt_iface.specs.declared.answer.Answer.TheVariants.{Cut, NoMemory};
ghost use Rattle.pt_frame.specs.Deed.{Deed, Step};
ghost use Rattle.pt_frame.specs.Determined.{IsDetermined};
ghost use Rattle.pt_frame.specs.Frame.{cut, CutAfter, CutInFull};
ghost use Rattle.pt_frame.specs.Grammar.{Grammar, Do, Owed, Belongs, IsChosen, IsDo, owed_by};
ghost use Rattle.pt_frame.specs.Memory.{RanOut};
ghost use Rattle.pt_frame.specs.Past.{Past, no_past, past_from, is_restoring, KeepsGroups};
ghost use Rattle.pt_frame.specs.Sparing.{IsSparing};
ghost use Rattle.pt_frame.specs.Tended.{Tended, Tends, IsBack, IsFinish};
ghost use Rattle.pt_frame.specs.Tree.{RequestTree, grammar_of_tree};
ghost use Rattle.pt_frame.specs.declared.act.ActReply.{ActReply};
ghost use Rattle.pt_frame.specs.declared.finish.Finish.{Finish};
ghost use Rattle.pt_frame.specs.declared.finish.Finish.TheVariants.{Answer};

/// What belongs to a side that was chosen belongs to the choice, whole and cut.
pub fn choices_are_kept()
    ensures whole { (grammar chosen : Grammar) (steps : List Step) (end : Finish) → IsChosen grammar chosen →
        Belongs chosen steps end → Belongs grammar steps end }
    ensures cut { (seat : HostSeat) (grammar chosen : Grammar) (so_far steps : List Step) (end : Finish) →
        IsChosen grammar chosen → CutAfter seat chosen so_far steps end → CutAfter seat grammar so_far steps end }
{}

/// A job that was cut is answered `Cut`, whether it had given up for memory or not.
pub fn cut_says_no_more()
    ensures ends { (seat : HostSeat) (grammar : Grammar) (so_far steps : List Step) (end : Finish) →
        CutAfter seat grammar so_far steps end → end ≡ Answer Cut }
    ensures full { (seat : HostSeat) (grammar : Grammar) (so_far steps : List Step) (end : Finish) →
        CutInFull seat grammar so_far steps end → CutAfter seat grammar so_far steps end }
{}

/// A job has one outcome unless memory runs out.
pub fn jobs_are_determined()
    ensures { (seat : HostSeat) (tree : RequestTree) → IsDetermined (grammar_of_tree seat tree) }
{}

/// A job whose tree takes no memory of its own is answered `NoMemory` only where memory ran out at one of its steps.
pub fn memory_ran_out_at_a_step()
    ensures { (seat : HostSeat) (tree : RequestTree) (steps : List Step) → IsSparing false tree →
        Belongs (grammar_of_tree seat tree) steps (Answer NoMemory) → RanOut steps }
{}

/// A step is marked just where it restores the seat, and what is marked gives a scope back. At its end a job that
/// tends its seat has no scope open, also where it was cut before it lost its seat, and it tells what it lost.
pub fn losses_are_told()
    ensures mark { (seat : HostSeat) (was_cut : Bool) (deed : Deed) (owed : Owed) (next : ActReply → Grammar)
        (past : Past) → Tended seat was_cut (Do deed owed next) past →
        (owed.restores ≡ is_restoring past.worn deed) × IsBack seat owed.restores deed }
    ensures told { (seat : HostSeat) (was_cut : Bool) (grammar : Grammar) (past : Past) (steps : List Step)
        (end : Finish) → KeepsGroups seat → Tended seat was_cut grammar past → Belongs grammar steps end →
        ((past_from past steps).worn ≡ []) × IsFinish was_cut end (past_from past steps).lost }
    ensures cut { (seat : HostSeat) (grammar : Grammar) (past : Past) (so_far steps : List Step) (end : Finish) →
        KeepsGroups seat → Tended seat false grammar past → CutAfter seat grammar so_far steps end →
        (past_from past so_far).lost ≡ None → (past_from (past_from past so_far) steps).worn ≡ [] }
{}

/// A tree that opens its scopes rightly makes a job that restores its seat, whole and cut, and goes on so.
pub fn seats_are_tended()
    ensures whole { (seat : HostSeat) (tree : RequestTree) → Tends seat tree [] →
        Tended seat false (grammar_of_tree seat tree) no_past }
    ensures cut { (seat : HostSeat) (grammar : Grammar) (past : Past) → IsDo grammar → past.lost ≡ None →
        Tended seat false grammar past → Tended seat true (cut seat (owed_by grammar)) past }
    ensures chosen { (seat : HostSeat) (was_cut : Bool) (grammar chosen : Grammar) (past : Past) →
        Tended seat was_cut grammar past → IsChosen grammar chosen → Tended seat was_cut chosen past }
{}
