//! Requests that are served one after another over the tree host, without steps.

ghost use Rattle.std.specs.Prelude.{ℕ, List, map};
ghost use Rattle.pt_host.specs.Words.{Each};
ghost use Rattle.pt_tables.specs.Tables.{Tables, empty_tables};
ghost use Rattle.pt_req.specs.declared.plan.Plan.{Plan};
ghost use Rattle.pt_law.specs.Discipline.{AreDisciplined};
ghost use Rattle.pt_rules.specs.State.{State};
ghost use Rattle.pt_plain.specs.Run.{PlainJob, turns_from};
ghost use Rattle.pt_filled.specs.Contents.{FilledTree};
ghost use Rattle.pt_filled.specs.Run.{EndsFilled, RunsWhole, ServesFilled, filled_start, seated_of};
ghost use Rattle.pt_filled.specs.Whole.{IsWhole};

/// Jobs that run whole over the tree host, one after another, with no want of memory and no lost seat, are served by
/// the plain file system: names, numbers, handles and contents.
pub fn whole_jobs_are_filled()
    ensures { (plan : Plan) (limits : List ℕ) (bound : ℕ) (jobs : List PlainJob) (start end : State) (tables : Tables) →
        AreDisciplined bound (turns_from 0 jobs) → Each (IsWhole plan) jobs →
        RunsWhole jobs start (empty_tables limits) end tables →
        (after : FilledTree)
        × ServesFilled plan (map seated_of jobs) (map (λ job. job.last) jobs) (filled_start start) after
        × EndsFilled limits jobs start end tables after }
{}
