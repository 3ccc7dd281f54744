//! Whatever jobs run, in whatever order their steps come: what holds after every step, and at the end.
//! The parts that speak of no object hold over any host; those that do, over one that tells its tree.

ghost use Rattle.std.specs.Prelude.{◌≡◌, ◌≢◌, ◌<◌, ◌≤◌, ℕ, List, ◌++◌, ◌∷◌, Option, Some};
ghost use Rattle.pt_host.specs.Tree.{IsOpenOn};
ghost use Rattle.pt_host.specs.declared.ids.Fd.{Fd};
ghost use Rattle.pt_tables.specs.Tables.{Tables, Agree, empty_tables};
ghost use Rattle.pt_tables.specs.declared.form.Negotiated.{Negotiated};
ghost use Rattle.pt_tables.specs.declared.row.Row.{Row};
ghost use Rattle.pt_tables.specs.declared.row.HandleRow.{HandleRow};
ghost use Rattle.pt_tables.specs.declared.event.NewHandle.{NewHandle};
ghost use Rattle.pt_tables.specs.declared.event.KeptEvent.TheVariants as change;
ghost use Rattle.pt_tables.specs.Rows.{IsRow, IsHandleRow};
ghost use Rattle.pt_frame.specs.Deed.{Changes};
ghost use Rattle.pt_frame.specs.declared.act.ActReply.{ActReply};
ghost use Rattle.pt_law.specs.Told.{AllMayBeTold};
ghost use Rattle.pt_law.specs.World.{made, World, Turn, turn_by, Runs, HostRuns, TablesGo, TablesRun, steps_of};
ghost use Rattle.pt_law.specs.Ledger.{given, inserted, handle_inserted, standing, summed, fd_given, fds_carried};
ghost use Rattle.pt_law.specs.Laws.{ObjectOf, Starts, AreDistinct, HasObject};
ghost use Rattle.pt_law.specs.Discipline.{AreDisciplined, AreEnded};
ghost use Rattle.pt_law.specs.Laws.{IsOpenAsResolved, IsCounted, IsStanding, HasEnded, SlotsAddUp, AreKept, NamesOpen};
ghost use Rattle.pt_law.specs.Laws.{IsHonoured, IsOvertaken, TellsOvertaken, TellsGiven, BeginsFirst, IsAtRest};
ghost use Rattle.pt_law.specs.Laws.{LeavesRows};
ghost use Rattle.pt_law.specs.Agreed.{agreed_after, Decides};
ghost use Rattle.pt_law.specs.Origins.{ComeFromNames};
ghost use Rattle.pt_law.specs.Reopened.{ReopensResolved};

use pt_host::Host;

/// What holds of the tables in every run, whatever host there is. `turns` are the steps so far, `more` those that are
/// still to come.
pub fn every_run()
    ensures cut { (turns more : List Turn) (start end : Tables) → TablesRun start (turns ++ more) end →
        ((now : Tables) × TablesRun start turns now × TablesRun now more end) }
    ensures agree { (limits : List ℕ) (turns : List Turn) (now : Tables) → TablesRun (empty_tables limits) turns now →
        Agree now }
    ensures era { (turns : List Turn) (start now : Tables) → TablesRun start turns now → start.era ≤ now.era }
    ensures counts { (limits : List ℕ) (turns : List Turn) (now : Tables) (number : ℕ) →
        TablesRun (empty_tables limits) turns now → IsCounted now number (given number turns) }
    ensures standing { (limits : List ℕ) (turns : List Turn) (now : Tables) (handle : ℕ) →
        TablesRun (empty_tables limits) turns now → IsStanding now handle (standing handle turns) }
    ensures ended { (turns : List Turn) (start now : Tables) (serial : ℕ) → TablesRun start turns now →
        HasEnded start serial → HasEnded now serial }
    ensures once { (limits : List ℕ) (bound : ℕ) (turns more : List Turn) (now : Tables) (number : ℕ) →
        AreDisciplined bound (turns ++ more) → TablesRun (empty_tables limits) turns now → number ≢ 1 →
        inserted number turns ≤ 1 }
    ensures handles_once { (limits : List ℕ) (bound : ℕ) (turns more : List Turn) (now : Tables) (handle : ℕ) →
        AreDisciplined bound (turns ++ more) → TablesRun (empty_tables limits) turns now →
        handle_inserted handle turns ≤ 1 }
    ensures slots { (limits : List ℕ) (bound : ℕ) (turns more : List Turn) (now : Tables) →
        AreDisciplined bound (turns ++ more) → TablesRun (empty_tables limits) turns now →
        SlotsAddUp limits bound turns now }
    ensures honoured { (limits : List ℕ) (bound : ℕ) (turns : List Turn) (turn : Turn) (more : List Turn)
        (now next : Tables) →
        AreDisciplined bound (turns ++ turn ∷ more) → TablesRun (empty_tables limits) turns now →
        TablesGo now turn.step.deed turn.step.reply next → IsHonoured turn.step.deed turn.step.reply }
    ensures overtaken { (limits : List ℕ) (bound : ℕ) (turns : List Turn) (turn : Turn) (more : List Turn)
        (now next : Tables) →
        AreDisciplined bound (turns ++ turn ∷ more) → TablesRun (empty_tables limits) turns now →
        TablesGo now turn.step.deed turn.step.reply next →
        TellsOvertaken turn.step.deed turn.step.reply → IsOvertaken turn.job turns }
    ensures shut_out { (limits : List ℕ) (bound : ℕ) (turns : List Turn) (turn : Turn) (more : List Turn)
        (now next : Tables) →
        BeginsFirst (steps_of turn.job (turns ++ turn ∷ more)) → AreDisciplined bound (turns ++ turn ∷ more) →
        TablesRun (empty_tables limits) turns now → TablesGo now turn.step.deed turn.step.reply next →
        IsOvertaken turn.job turns → TellsGiven turn.step.deed turn.step.reply → ⊥ }
    ensures agreed { (limits : List ℕ) (bound : ℕ) (decided : ℕ → Option Negotiated) (turns more : List Turn)
        (now : Tables) →
        ((job : ℕ) → job < bound → BeginsFirst (steps_of job (turns ++ more))) →
        ((job : ℕ) → job < bound → Decides (decided job) (steps_of job (turns ++ more))) →
        AreDisciplined bound (turns ++ more) → TablesRun (empty_tables limits) turns now →
        now.negotiated ≡ agreed_after decided turns }
    ensures disciplined { (bound : ℕ) (turns : List Turn) → AreEnded bound turns → AreDisciplined bound turns }
    ensures rest { (limits : List ℕ) (bound : ℕ) (turns : List Turn) (now : Tables) →
        AreEnded bound turns → TablesRun (empty_tables limits) turns now → IsAtRest limits bound turns now }
{}

/// What holds of objects and descriptors in every run over a host that tells its tree.
pub fn every_told_run()
    ensures tables { (turns : List Turn) (start now : World) → Runs start turns now →
        TablesRun start.tables turns now.tables }
    ensures cut { (turns more : List Turn) (start end : World) → Runs start (turns ++ more) end →
        ((now : World) × Runs start turns now × Runs now more end) }
    ensures told { (job : ℕ) (turns : List Turn) (start end : World) → Runs start turns end →
        AllMayBeTold (steps_of job turns) }
    ensures distinct { (limits : List ℕ) (bound : ℕ) (turns more : List Turn) (start now : World) →
        Starts limits start → AreDisciplined bound (turns ++ more) → Runs start turns now → AreDistinct now }
    ensures objects { (limits : List ℕ) (bound : ℕ) (turns more : List Turn) (start now : World) (row : Row) →
        Starts limits start → AreDisciplined bound (turns ++ more) → Runs start turns now → IsRow now.tables row →
        HasObject now row }
    ensures handles { (limits : List ℕ) (bound : ℕ) (turns more : List Turn) (start now : World) (row : HandleRow) →
        Starts limits start → AreDisciplined bound (turns ++ more) → Runs start turns now →
        IsHandleRow now.tables row → IsOpenAsResolved now row }
    ensures reopened { (limits : List ℕ) (bound : ℕ) (turns more : List Turn) (start now : World) →
        Starts limits start →
        AreDisciplined bound (turns ++ more) → Runs start turns now → ReopensResolved turns now }
    ensures origins { (limits : List ℕ) (bound : ℕ) (turns more : List Turn) (start now : World) →
        Starts limits start → AreDisciplined bound (turns ++ more) → Runs start turns now → ComeFromNames now }
    ensures descriptors { (limits : List ℕ) (bound : ℕ) (turns more : List Turn) (start now : World) →
        Starts limits start → AreDisciplined bound (turns ++ more) → Runs start turns now →
        AreKept start bound turns now }
    ensures named { (limits : List ℕ) (bound : ℕ) (turns : List Turn) (turn : Turn) (more : List Turn)
        (start now : World) →
        Starts limits start → AreDisciplined bound (turns ++ turn ∷ more) → Runs start turns now →
        NamesOpen now.tree turn.step.deed }
    ensures rest { (limits : List ℕ) (bound : ℕ) (turns : List Turn) (start end : World) →
        Starts limits start → AreEnded bound turns → Runs start turns end → LeavesRows start end }
{}

/// A descriptor that a job has, which it opened or took for closing, stays open on what it is open on while the job
/// neither closes it nor hands it to the tables, whatever other jobs do. So where it gets a handle for a number, that
/// is the object for which the job had resolved the number, or was given it.
pub fn carried_descriptor()
    ensures stays { (limits : List ℕ) (bound : ℕ) (turns between more : List Turn) (start was now : World) (job : ℕ)
        (fd : Fd)
        (object : ℕ) → Starts limits start → AreDisciplined bound (turns ++ (between ++ more)) → job < bound →
        Runs start turns was → Runs was between now → 0 < fds_carried fd.0 (steps_of job turns) →
        summed (fd_given fd.0) (steps_of job between) ≡ 0 → IsOpenOn was.tree fd object →
        IsOpenOn now.tree fd object }
    ensures handled { (limits : List ℕ) (bound : ℕ) (turns between more : List Turn) (start was now : World)
        (job object : ℕ)
        (new : NewHandle) (told : ActReply) → Starts limits start →
        AreDisciplined bound
        (turns ++ (between ++ turn_by job (made (Changes (change.InsertHandle new)) told) ∷ more)) →
        job < bound → Runs start turns was → Runs was between now → 0 < fds_carried new.fd.0 (steps_of job turns) →
        summed (fd_given new.fd.0) (steps_of job between) ≡ 0 → IsOpenOn was.tree new.fd object →
        now.past.resolved job new.number ≡ Some object }
{}

/// A run over any host is one of the tables, and where the host tells its tree one of trees and tables; what each job
/// is told is such as may come.
pub fn every_host<H: Host>()
    ensures tables { (turns : List Turn) (host after : H) (tables tables_after : Tables) →
        HostRuns H.does turns host tables after tables_after → TablesRun tables turns tables_after }
    ensures world { (turns : List Turn) (start : World) (host after : H) (tables_after : Tables) →
        H.tree host ≡ Some start.tree → HostRuns H.does turns host start.tables after tables_after →
        ((end : World) × (H.tree after ≡ Some end.tree) × (end.tables ≡ tables_after) × Runs start turns end) }
    ensures told { (job : ℕ) (turns : List Turn) (host after : H) (tables tables_after : Tables) →
        HostRuns H.does turns host tables after tables_after → AllMayBeTold (steps_of job turns) }
{}
