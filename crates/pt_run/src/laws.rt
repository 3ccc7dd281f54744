ghost use Rattle.pt_run.specs.Determined.{ReportsAreDetermined};
ghost use Rattle.pt_run.specs.Alike.{ReportsDetermineRuns};
ghost use Rattle.pt_run.specs.Counted.{CountsAreDetermined};

/// The script alone determines the bytes of its report where no reply and no answer of the run tells that memory ran
/// out.
pub fn script_determines_report()
    ensures { ReportsAreDetermined }
{}

/// The bytes of a report determine its run: two runs with one report have the same steps, answers, live numbers,
/// handles, slots and listing.
pub fn report_determines_run()
    ensures { ReportsDetermineRuns }
{}

/// A number of jobs and a seed alone determine what the jobs count where no reply and no answer of the run tells that
/// memory ran out.
pub fn seed_determines_counts()
    ensures { CountsAreDetermined }
{}
