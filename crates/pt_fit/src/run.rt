ghost use Rattle.std.specs.Prelude.{ℕ, List};
ghost use Rattle.pt_host.specs.declared.seat.HostSeat.{HostSeat};
ghost use Rattle.pt_tables.specs.Tables.{Tables};
ghost use Rattle.pt_frame.specs.declared.finish.Finish.{Finish};
ghost use Rattle.pt_req.specs.declared.plan.Plan.{Plan};
ghost use Rattle.pt_job.specs.Pattern.{Asked};
ghost use Rattle.pt_law.specs.World.{World, Turn, Runs, HostRuns};
ghost use Rattle.pt_law.specs.Discipline.{AreEnded};
ghost use Rattle.pt_fit.specs.Answered.{AreAnswered};

use pt_host::Host;

/// Where each job's steps come to its end by what was asked of it, they keep the discipline to that end: in a run
/// over any host, and in one of trees and tables.
pub fn all_answered<H: Host>()
    ensures hosts { (plan : Plan) (bound : ℕ) (seats : ℕ → HostSeat) (asked : ℕ → Asked) (ends : ℕ → Finish)
        (turns : List Turn) (host after : H) (tables tables_after : Tables) →
        HostRuns H.does turns host tables after tables_after →
        AreAnswered plan bound seats asked ends turns → AreEnded bound turns }
    ensures worlds { (plan : Plan) (bound : ℕ) (seats : ℕ → HostSeat) (asked : ℕ → Asked) (ends : ℕ → Finish)
        (turns : List Turn) (start end : World) → Runs start turns end →
        AreAnswered plan bound seats asked ends turns → AreEnded bound turns }
{}
