//! What the jobs of a run share.

use pt_req::Plan;
use pt_session::Session;
use std::alloc::Global;

/// A run, its jobs aside: over which host and tables it goes on, by which plan, and where its steps are written down.
#[derive(Drop)]
pub struct Run<'a, 'w, H, R> {
    pub alloc: Global,
    pub plan: &'a Plan,
    pub host: &'a mut H,
    pub session: &'a mut Session,
    pub writer: &'w mut R,
}
