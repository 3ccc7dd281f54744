ghost use Rattle.std.specs.Prelude.{◌≡◌, ◌++◌, IfOk};
ghost use Rattle.std.specs.String.{string_bytes};
ghost use Rattle.pt_handles.specs.Texts.{errno_text};

use pt_host::{Bytes, Errno};
use std::alloc::{AllocError, Global};

/// The bytes of a text, which takes no memory.
pub(crate) fn from_string(text: String) -> Bytes
    ensures { result ≡ string_bytes text }
{
    Bytes::from_vec(text.into_bytes())
}

pub(crate) fn text_of(alloc: Global, text: &str) -> Result<Bytes, AllocError>
    ensures { IfOk result (λ bytes. bytes ≡ text.now) }
{
    Bytes::from_slice(alloc, text.as_bytes())
}

pub(crate) fn errno_text(alloc: Global, errno: Errno) -> Result<Bytes, AllocError>
    ensures { IfOk result (λ bytes. bytes ≡ errno_text errno) }
{
    let number = errno.0;
    Ok(from_string(format!(in alloc; "os error {number}")?))
}

/// A path between two texts.
pub(crate) fn around(
    alloc: Global,
    front: &str,
    path: &[u8],
    back: &str,
) -> Result<Bytes, AllocError>
    ensures { IfOk result (λ bytes. bytes ≡ front.now ++ (path.now ++ back.now)) }
{
    let mut bytes = Vec::new(alloc);
    bytes.extend_from_slice(front.as_bytes())?;
    bytes.extend_from_slice(path)?;
    bytes.extend_from_slice(back.as_bytes())?;
    Ok(Bytes::from_vec(bytes))
}
