ghost use Rattle.std.specs.Prelude.{◌≡◌, ◌⊎◌, ℕ, List};
ghost use Rattle.pt_host.specs.Errno.{ebadf};
ghost use Rattle.pt_host.specs.declared.seat.HostSeat.{HostSeat};
ghost use Rattle.pt_tables.specs.Tables.{Tables, HasNumber, empty_tables};
ghost use Rattle.pt_tables.specs.Rows.{NoRow};
ghost use Rattle.pt_iface.specs.declared.answer.Answer.TheVariants as answer;
ghost use Rattle.pt_iface.specs.declared.request.Context.{Context};
ghost use Rattle.pt_iface.specs.declared.request.Request.{Request};
ghost use Rattle.pt_frame.specs.Grammar.{Belongs};
ghost use Rattle.pt_frame.specs.declared.finish.Finish.{Finish};
ghost use Rattle.pt_frame.specs.declared.finish.Finish.TheVariants as finish;
ghost use Rattle.pt_req.specs.declared.plan.Plan.{Plan};
ghost use Rattle.pt_job.specs.Pattern.{grammar_of};
ghost use Rattle.pt_law.specs.Branch.{IsGivenUp};
ghost use Rattle.pt_law.specs.World.{Turn, TablesRun, steps_of};
ghost use Rattle.pt_law.specs.Ledger.{inserted};
ghost use Rattle.pt_fit.specs.Uses.{EndsBefore, IsOn};

/// A request on a number that is gone is answered EBADF for as long as it is not inserted again, unless it gives up,
/// loses its seat, or is an opening that could not drop its capability, and tells by which error.
pub fn gone_number()
    ensures { (limits : List ℕ) (job : ℕ) (plan : Plan) (seat : HostSeat) (who : Context) (what : Request)
        (turns later : List Turn) (was now : Tables) (number : ℕ) (end : Finish) →
        TablesRun (empty_tables limits) turns was → NoRow was (HasNumber number) → TablesRun was later now →
        inserted number later ≡ 0 → IsOn number what →
        Belongs (grammar_of plan seat who what) (steps_of job later) end →
        (end ≡ finish.Answer (answer.Refused ebadf)) ⊎ IsGivenUp end
        ⊎ EndsBefore plan seat what (steps_of job later) end }
{}
