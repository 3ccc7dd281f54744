//! What holds where the guest forgets no more than it holds.

ghost use Rattle.std.specs.Prelude.{◌<◌, ℕ, List};
ghost use Rattle.pt_host.specs.Words.{Each};
ghost use Rattle.pt_tables.specs.Tables.{Tables, empty_tables};
ghost use Rattle.pt_frame.specs.declared.finish.Finish.{Finish};
ghost use Rattle.pt_law.specs.Discipline.{ComesToEnd, idle};
ghost use Rattle.pt_law.specs.Polite.{IsPolite, CountsOutstanding, TakesOneEach};
ghost use Rattle.pt_law.specs.World.{Turn, TablesRun, steps_of};

/// Where the guest forgets no more than is outstanding, in whatever order the jobs take their steps: at the end a
/// number's count is its outstanding entries less what was asked of them, and each count that a job gave back was
/// taken, unless it was told that it was overtaken.
pub fn polite_guests()
    ensures counts { (limits : List ℕ) (bound : ℕ) (ends : ℕ → Finish) (turns : List Turn) (last : Tables) →
        Each (λ (turn : Turn). turn.job < bound) turns →
        ((j : ℕ) → j < bound → ComesToEnd idle (steps_of j turns) (ends j)) → IsPolite bound ends turns →
        TablesRun (empty_tables limits) turns last → CountsOutstanding bound ends turns last }
    ensures gives_back { (limits : List ℕ) (bound : ℕ) (ends : ℕ → Finish) (turns : List Turn) (last : Tables) →
        Each (λ (turn : Turn). turn.job < bound) turns →
        ((j : ℕ) → j < bound → ComesToEnd idle (steps_of j turns) (ends j)) → IsPolite bound ends turns →
        TablesRun (empty_tables limits) turns last → TakesOneEach turns }
{}
