//! Who asks: the words that tell it, the steps by which it is taken on, and errors.

use handle_values::{Trouble, last, next};
use pt_creds::{CredError, UnixCredentials};
use pt_host::HostSeat;
use pt_show::{Text, Words};
use pt_text::push_text;
use std::alloc::AllocError;

/// The identity that the last words are: uid and gid, whether the extension is supported, and the group.
pub fn last_identity(words: &mut Words<'_>) -> Result<UnixCredentials, Trouble> {
    let uid: u32 = next(words)?;
    let gid: u32 = next(words)?;
    let is_supported: bool = next(words)?;
    let group: Option<u32> = last(words)?;
    Ok(UnixCredentials::new(uid, gid).supplementary_gid(is_supported, group))
}

/// The steps by which the identity is taken on from this seat, if they are asked for.
pub fn take_steps(
    seat: &HostSeat,
    name: &[u8],
    words: &mut Words<'_>,
    out: &mut Vec<u8>,
) -> Result<bool, Trouble> {
    if name != b"UnixCredentials::steps".as_slice() {
        return Ok(false);
    }
    let steps = last_identity(words)?.steps(seat);
    steps.groups.write(out)?;
    steps.egid.write(out)?;
    steps.euid.write(out)?;
    steps.raise.write(out)?;
    Ok(true)
}

/// Why an identity was not taken on, or not given back.
pub fn push_cred_error(out: &mut Vec<u8>, error: CredError) -> Result<(), AllocError> {
    match error {
        CredError::Host(errno) => {
            push_text(out, b" Err Host")?;
            errno.write(out)
        }
        CredError::Lost(errno) => {
            push_text(out, b" Err Lost")?;
            errno.write(out)
        }
    }
}
