ghost use Rattle.std.specs.Prelude.{◌≡◌, ℕ, Bool, false, List, [], length, Some};
ghost use Rattle.pt_host.specs.declared.edit.Edit.{Edit};
ghost use Rattle.pt_host.specs.declared.seat.HostSeat.{HostSeat};
ghost use Rattle.pt_iface.specs.declared.answer.Answer.{Answer};
ghost use Rattle.pt_iface.specs.declared.answer.Answer.TheVariants as answer;
ghost use Rattle.pt_iface.specs.declared.entry.Entry.{Entry};
ghost use Rattle.pt_iface.specs.declared.flags.OpenOptions.{OpenOptions};
ghost use Rattle.pt_iface.specs.declared.request.Context.{Context};
ghost use Rattle.pt_iface.specs.declared.request.Extensions.{Extensions};
ghost use Rattle.pt_iface.specs.declared.request.Request.{Request};
ghost use Rattle.pt_iface.specs.declared.request.Request.TheVariants as request;
ghost use Rattle.pt_frame.specs.Deed.{Step};
ghost use Rattle.pt_frame.specs.Edit.{edit_grammar};
ghost use Rattle.pt_frame.specs.Frame.{CutAfter, CutInFull};
ghost use Rattle.pt_frame.specs.Grammar.{Belongs};
ghost use Rattle.pt_frame.specs.Memory.{RanOut};
ghost use Rattle.pt_frame.specs.declared.finish.Finish.{Finish};
ghost use Rattle.pt_frame.specs.declared.finish.Finish.TheVariants as finish;
ghost use Rattle.pt_job.specs.Pattern.{tree_of};
ghost use Rattle.pt_req.specs.declared.plan.Plan.{Plan};
ghost use Rattle.pt_job.specs.Pattern.{Asked, Requests, Edits, grammar_for, takes_memory_for};
ghost use Rattle.pt_law.specs.Discipline.{idle, ComesToEnd};
ghost use Rattle.pt_law.specs.Told.{AllMayBeTold};
ghost use Rattle.pt_law.specs.Agreed.{Decides};
ghost use Rattle.pt_law.specs.Laws.{BeginsFirst};
ghost use Rattle.pt_fit.specs.Cause.{asking, IsCausedBy};
ghost use Rattle.pt_fit.specs.Fit.{IsFit};
ghost use Rattle.pt_fit.specs.Decided.{decides};
ghost use Rattle.pt_fit.specs.Handled.{KeepsHandle};
ghost use Rattle.pt_fit.specs.Answered.{ComesToAnswer};
ghost use Rattle.pt_fit.specs.Entered.{name_asked};

/// Every request's tree is fit.
pub fn each_request()
    ensures { (plan : Plan) (seat : HostSeat) (who : Context) (asked : Request) →
        IsFit (asking plan who asked) (tree_of plan seat who asked) }
{}

/// Whatever a job asks, a request or an edit: where its replies are such as may come, its steps keep the discipline
/// to their end, whole or cut; where none lacked memory, and the job takes none of its own, it had not given up before
/// it was cut; a refusal has its cause; a handle that it inserted is its answer's, unless it was cut; its first step
/// begins it; and an entry is an answer to what asks for a name, and with a handle that of `create`.
pub fn asked_ends()
    ensures ends { (plan : Plan) (seat : HostSeat) (asked : Asked) (steps : List Step) (end : Finish) →
        AllMayBeTold steps → ComesToAnswer plan seat asked steps end → ComesToEnd idle steps end }
    ensures full { (plan : Plan) (seat : HostSeat) (asked : Asked) (so_far steps : List Step) (end : Finish) →
        takes_memory_for asked ≡ false → AllMayBeTold so_far → (RanOut so_far → ⊥) →
        CutAfter seat (grammar_for plan seat asked) so_far steps end →
        CutInFull seat (grammar_for plan seat asked) so_far steps end }
    ensures causes { (plan : Plan) (seat : HostSeat) (asked : Asked) (steps : List Step) (last : Answer) →
        AllMayBeTold steps → Belongs (grammar_for plan seat asked) steps (finish.Answer last) →
        IsCausedBy plan asked steps last }
    ensures handled { (plan : Plan) (seat : HostSeat) (asked : Asked) (steps : List Step) (last : Answer) →
        AllMayBeTold steps → Belongs (grammar_for plan seat asked) steps (finish.Answer last) →
        KeepsHandle steps last }
    ensures begins { (plan : Plan) (seat : HostSeat) (asked : Asked) (steps : List Step) (end : Finish) →
        ComesToAnswer plan seat asked steps end → BeginsFirst steps }
    ensures decides { (plan : Plan) (seat : HostSeat) (asked : Asked) (steps : List Step) (end : Finish) →
        ComesToAnswer plan seat asked steps end → Decides (decides plan asked) steps }
    ensures named { (plan : Plan) (seat : HostSeat) (asked : Asked) (steps : List Step) (entry : Entry) →
        AllMayBeTold steps → Belongs (grammar_for plan seat asked) steps (finish.Answer (answer.Entry entry)) →
        ((parent : ℕ) × (name : List ℕ) × (name_asked asked ≡ Some (parent, name))) }
    ensures created { (plan : Plan) (seat : HostSeat) (asked : Asked) (steps : List Step) (entry : Entry)
        (handle : ℕ) (options : OpenOptions) →
        AllMayBeTold steps →
        Belongs (grammar_for plan seat asked) steps (finish.Answer (answer.Created entry handle options)) →
        ((who : Context) × (parent : ℕ) × (name : List ℕ) × (mode : ℕ) × (kill : Bool) × (flags : ℕ) × (umask : ℕ)
        × (ext : Extensions) × (asked ≡ Requests who (request.Create parent name mode kill flags umask ext))) }
{}

/// An edit is one step. It keeps the discipline; it is refused exactly where its step was refused or failed; and one
/// that is left out has no step.
pub fn edit_ends()
    ensures one { (edit : Edit) (steps : List Step) (end : Finish) → Belongs (edit_grammar edit) steps end →
        length steps ≡ 1 }
    ensures ends { (edit : Edit) (steps : List Step) (end : Finish) → Belongs (edit_grammar edit) steps end →
        ComesToEnd idle steps end }
    ensures causes { (plan : Plan) (edit : Edit) (steps : List Step) (last : Answer) →
        Belongs (edit_grammar edit) steps (finish.Answer last) → IsCausedBy plan (Edits edit) steps last }
    ensures cut { (seat : HostSeat) (edit : Edit) (so_far steps : List Step) (end : Finish) →
        CutAfter seat (edit_grammar edit) so_far steps end →
        (so_far ≡ []) × (steps ≡ []) × (end ≡ finish.Answer answer.Cut) }
{}
