ghost use Rattle.std.specs.Prelude.{◌≡◌, ◌≢◌, ◌++◌, ◌==◌, List, ℕ, not, OnErr, IfOk, IfErr, position};
ghost use Rattle.pt_handles.specs.Paths.{IsBehind};
ghost use Rattle.pt_handles.specs.Slashes.{behind_slashes};
ghost use Rattle.pt_handles.specs.declared.error.HandleError.TheVariants.{OutsidePrefix};

use crate::error::HandleError;

/// Where the first byte is that is no slash.
fn first_other(path: &[u8]) -> Option<usize>
    ensures { result ≡ position (λ byte. not (byte == 47)) path.now }
{
    path.iter().position(|byte| *byte != b'/')
}

/// The bytes behind the slashes at the front.
fn without_slashes(path: &[u8]) -> &[u8]
    ensures { result.now ≡ behind_slashes path.now }
{
    match first_other(path) {
        Some(place) => &path[place..],
        None => &path[path.len()..],
    }
}

/// What follows the prefix, and all slashes behind it, in a path. The prefix may end inside a name.
pub fn relative_path<'a>(path: &'a [u8], prefix: &[u8]) -> Result<&'a [u8], HandleError>
    ensures ok { IfOk result (λ rest. IsBehind path.now prefix.now rest.now) }
    ensures outside { OnErr result ((rest : List ℕ) → path.now ≢ prefix.now ++ rest) }
    ensures alone { IfErr result (λ why. why ≡ OutsidePrefix) }
{
    match path.strip_prefix(prefix) {
        Some(behind) => Ok(without_slashes(behind)),
        None => Err(HandleError::OutsidePrefix),
    }
}
