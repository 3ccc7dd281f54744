ghost use Rattle.std.specs.Prelude.{◌≡◌, ℕ, Bool, List, Some};
ghost use Rattle.pt_host.specs.declared.seat.HostSeat.{HostSeat};
ghost use Rattle.pt_iface.specs.declared.answer.Answer.TheVariants as answer;
ghost use Rattle.pt_iface.specs.declared.entry.Entry.{Entry};
ghost use Rattle.pt_iface.specs.declared.flags.OpenOptions.{OpenOptions};
ghost use Rattle.pt_iface.specs.declared.request.Context.{Context};
ghost use Rattle.pt_iface.specs.declared.request.Extensions.{Extensions};
ghost use Rattle.pt_iface.specs.declared.request.Request.TheVariants as request;
ghost use Rattle.pt_frame.specs.Grammar.{Belongs};
ghost use Rattle.pt_frame.specs.declared.finish.Finish.TheVariants as finish;
ghost use Rattle.pt_req.specs.declared.plan.Plan.{Plan};
ghost use Rattle.pt_job.specs.Pattern.{Asked, grammar_for, grammar_of};
ghost use Rattle.pt_law.specs.World.{World, Turn, Runs, steps_of};
ghost use Rattle.pt_law.specs.Laws.{Starts};
ghost use Rattle.pt_law.specs.Discipline.{AreDisciplined};
ghost use Rattle.pt_law.specs.Told.{AllMayBeTold};
ghost use Rattle.pt_fit.specs.Entered.{IsEntered, name_asked};
ghost use Rattle.pt_fit.specs.Created.{IsCreated};

/// Whatever is asked, a job that is answered with an entry was given its number for what the name led to that it asks
/// for, in the directory that its parent stood for; and the entry tells the status of that.
pub fn entry_opens()
    ensures { (limits : List ℕ) (bound : ℕ) (plan : Plan) (seat : HostSeat) (asked : Asked) (turns : List Turn)
        (start end : World) (job : ℕ) (entry : Entry) →
        Starts limits start → AreDisciplined bound turns → AllMayBeTold (steps_of job turns) →
        Belongs (grammar_for plan seat asked) (steps_of job turns) (finish.Answer (answer.Entry entry)) →
        ((parent : ℕ) × (name : List ℕ) × (name_asked asked ≡ Some (parent, name))
        × (Runs start turns end → IsEntered plan end (steps_of job turns) job parent name entry)) }
{}

/// So it is of `create` that is answered with an entry and a handle: that is the object that it made, or it made
/// nothing; and its handle is open on it.
pub fn create_opens()
    ensures { (limits : List ℕ) (bound : ℕ) (plan : Plan) (seat : HostSeat) (who : Context) (turns : List Turn)
        (start end : World) (job parent : ℕ) (name : List ℕ) (mode : ℕ) (kill : Bool) (flags umask : ℕ)
        (ext : Extensions) (entry : Entry) (handle : ℕ) (options : OpenOptions) →
        Starts limits start → AreDisciplined bound turns → Runs start turns end →
        Belongs (grammar_of plan seat who (request.Create parent name mode kill flags umask ext)) (steps_of job turns)
        (finish.Answer (answer.Created entry handle options)) →
        IsCreated plan end (steps_of job turns) job parent name entry handle }
{}
