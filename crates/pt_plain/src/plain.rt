//! Requests that are served one after another, without steps.

ghost use Rattle.std.specs.Prelude.{ℕ, List, map};
ghost use Rattle.pt_host.specs.Words.{Each};
ghost use Rattle.pt_req.specs.declared.plan.Plan.{Plan};
ghost use Rattle.pt_law.specs.Discipline.{AreDisciplined};
ghost use Rattle.pt_law.specs.World.{World, Runs};
ghost use Rattle.pt_plain.specs.Plain.{PlainTree};
ghost use Rattle.pt_plain.specs.Run.{PlainJob, IsNew, turns_from, plain_start, ServesAll, EndsAs};
ghost use Rattle.pt_plain.specs.Whole.{IsAnswered};

/// Jobs that run whole, one after another, with no want of memory and no lost seat, are served by the plain file
/// system: their answers are its answers, and at the end it has the tree, the numbers with counts and the handles.
pub fn whole_jobs_are_plain()
    ensures { (plan : Plan) (limits : List ℕ) (bound : ℕ) (jobs : List PlainJob) (start end : World) →
        IsNew limits start →
        AreDisciplined bound (turns_from 0 jobs) → Each (IsAnswered plan) jobs → Runs start (turns_from 0 jobs) end →
        (after : PlainTree) × ServesAll plan (map (λ job. job.asked) jobs) (map (λ job. job.last) jobs)
        (plain_start start.tree) after × EndsAs end after }
{}
