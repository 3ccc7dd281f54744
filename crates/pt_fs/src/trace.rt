use pt_frame::{ActReply, KeptAct};
use std::mem::size_of;

/// One step of a run, and the job that took it.
#[derive(Drop)]
pub struct TraceStep {
    pub job: u32,
    pub act: KeptAct,
    pub reply: ActReply,
}

// Room for every step is had before the first one, so this is what a job list costs.
const _: () = prove!(size_of::<TraceStep>() <= 512);
