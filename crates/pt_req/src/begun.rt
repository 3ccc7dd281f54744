use pt_session::Negotiated;

/// What a request is told of its session at its first step.
#[derive(Clone, Copy)]
pub struct BegunSession {
    pub era: u64,
    pub agreed: Negotiated,
}
