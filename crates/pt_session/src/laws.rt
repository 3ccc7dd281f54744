//! What holds of every event of the table, as functions that do nothing.
ghost use Rattle.pt_tables.specs.Determined.{EventsAreDetermined};
ghost use Rattle.pt_tables.specs.Laws.{EventsKeepAgreement, NewTablesAgree, RefusalsChangeNothing};
ghost use Rattle.pt_tables.specs.Laws.{EventsAreAnswered, ClosingsArePaid, EventsHaveEffects, ClearingsClear};

/// An event leads from tables that agree to tables that agree, and new ones do.
pub fn events_keep_agreement()
    ensures kept { EventsKeepAgreement }
    ensures new { NewTablesAgree }
{}

pub fn refusals_change_nothing()
    ensures { RefusalsChangeNothing }
{}

pub fn events_are_answered()
    ensures { EventsAreAnswered }
{}

/// No event puts more descriptors on the closing list than there are rows for.
pub fn closings_are_paid()
    ensures { ClosingsArePaid }
{}

pub fn events_have_effects()
    ensures { EventsHaveEffects }
{}

/// After a clearing no number and no handle is live, and counters and slots are as they were.
pub fn clearings_clear()
    ensures { ClearingsClear }
{}

/// The tables and an event determine its reply and the tables after it unless memory runs out.
pub fn events_are_determined()
    ensures { EventsAreDetermined }
{}
