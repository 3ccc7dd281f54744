//! What holds of whole runs, as functions that do nothing.

ghost use Rattle.std.specs.Prelude.{◌≡◌, ℕ, List, Option, Some, slice_get};
ghost use Rattle.pt_host.specs.declared.seat.HostSeat.{HostSeat};
ghost use Rattle.pt_tables.specs.Tables.{Tables};
ghost use Rattle.pt_fs.specs.Determined.{TurnsAreDetermined};
ghost use Rattle.pt_fs.specs.Trace.{TraceRuns, steps_by};
ghost use Rattle.pt_fs.specs.declared.trace.TraceStep.{TraceStep};
ghost use Rattle.pt_frame.specs.Determined.{IsDeterminedHost};
ghost use Rattle.pt_frame.specs.Seats.{seat_at};

use pt_host::Host;

/// Jobs that run by one schedule have one outcome unless memory runs out, where their host has: one that loses a seat
/// loses it in each run.
pub fn turns_are_determined<H: Host>()
    ensures { IsDeterminedHost H.does → TurnsAreDetermined H.does H.faults }
{}

/// The seat of each job that has one is the fold of that job's steps, whatever other jobs did between them.
pub fn seats_follow<H: Host>()
    ensures { (trace : List TraceStep) (host host_after : H) (seats left : List (Option HostSeat))
        (tables tables_after : Tables) → TraceRuns H.does trace host seats tables host_after left tables_after →
        (job : ℕ) (seat : HostSeat) → slice_get seats job ≡ Some (Some seat) →
        slice_get left job ≡ Some (Some (seat_at seat (steps_by job trace))) }
{}
