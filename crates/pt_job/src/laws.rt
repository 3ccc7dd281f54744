//! What holds of every list of steps that a job may make.

ghost use Rattle.pt_job.specs.Laws.{JobsTend, JobsAreDetermined, NoMemoryIsCaused, RequestsSpare, RequestsTend};

/// Each request restores what it changes of its seat.
pub fn requests_tend()
    ensures { RequestsTend }
{}

/// A request that makes nothing takes no memory of its own, but for what its steps take.
pub fn requests_spare()
    ensures { RequestsSpare }
{}

/// A job restores what it changes of its seat.
pub fn jobs_tend()
    ensures { JobsTend }
{}

/// A request has one outcome unless memory runs out, and an edit has one always.
pub fn jobs_are_determined()
    ensures { JobsAreDetermined }
{}

/// A request that is answered `NoMemory` has a step at which memory ran out, or makes what takes memory.
pub fn no_memory_has_its_cause()
    ensures { NoMemoryIsCaused }
{}
