//! The identity under which a host's calls are made: it is taken on for one call and then given back.
#![tactic(auto)]

mod calls;
mod caps;
mod credentials;
mod error;
mod guard;
mod umask;

pub use caps::{ScopedCaps, drop_effective_cap};
pub use credentials::{CredSteps, UnixCredentials};
pub use error::CredError;
pub use guard::UnixCredentialsGuard;
pub use umask::ScopedUmask;
