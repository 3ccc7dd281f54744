ghost use Rattle.std.specs.Prelude.{◌≡◌, IfOk, Some, None};
ghost use Rattle.pt_words.specs.Handles.{open_in, opendir_in, handle_in, release_in, releasedir_in, read_in};

use crate::fields::{LineError, end, next_number, next_small, next_switch};
use pt_iface::Request;
use pt_text::Parts;

pub fn next_open(words: &mut Parts<'_>) -> Result<Request, LineError>
    ensures ok { IfOk result (λ request. open_in words.old ≡ Some request) }
    ensures bad { result ≡ Err LineError.Bad → open_in words.old ≡ None }
    ensures no_memory { result ≡ Err LineError.Memory → ⊥ }
{
    let inode = next_number(words)?;
    let kill = next_switch(words)?;
    let flags = next_small(words)?;
    end(words)?;
    Ok(Request::Open { inode, kill, flags })
}

pub fn next_opendir(words: &mut Parts<'_>) -> Result<Request, LineError>
    ensures ok { IfOk result (λ request. opendir_in words.old ≡ Some request) }
    ensures bad { result ≡ Err LineError.Bad → opendir_in words.old ≡ None }
    ensures no_memory { result ≡ Err LineError.Memory → ⊥ }
{
    let inode = next_number(words)?;
    let flags = next_small(words)?;
    end(words)?;
    Ok(Request::OpenDir { inode, flags })
}

/// An inode and its handle, and no more.
pub fn next_handle(words: &mut Parts<'_>) -> Result<(u64, u64), LineError>
    ensures ok { IfOk result (λ told. handle_in words.old ≡ Some told) }
    ensures bad { result ≡ Err LineError.Bad → handle_in words.old ≡ None }
    ensures no_memory { result ≡ Err LineError.Memory → ⊥ }
{
    let inode = next_number(words)?;
    let handle = next_number(words)?;
    end(words)?;
    Ok((inode, handle))
}

pub fn next_release(words: &mut Parts<'_>) -> Result<Request, LineError>
    ensures ok { IfOk result (λ request. release_in words.old ≡ Some request) }
    ensures bad { result ≡ Err LineError.Bad → release_in words.old ≡ None }
    ensures no_memory { result ≡ Err LineError.Memory → ⊥ }
{
    let (inode, handle) = next_handle(words)?;
    Ok(Request::Release { inode, handle })
}

pub fn next_releasedir(words: &mut Parts<'_>) -> Result<Request, LineError>
    ensures ok { IfOk result (λ request. releasedir_in words.old ≡ Some request) }
    ensures bad { result ≡ Err LineError.Bad → releasedir_in words.old ≡ None }
    ensures no_memory { result ≡ Err LineError.Memory → ⊥ }
{
    let (inode, handle) = next_handle(words)?;
    Ok(Request::ReleaseDir { inode, handle })
}

pub fn next_read(words: &mut Parts<'_>) -> Result<Request, LineError>
    ensures ok { IfOk result (λ request. read_in words.old ≡ Some request) }
    ensures bad { result ≡ Err LineError.Bad → read_in words.old ≡ None }
    ensures no_memory { result ≡ Err LineError.Memory → ⊥ }
{
    let inode = next_number(words)?;
    let handle = next_number(words)?;
    let size = next_small(words)?;
    let offset = next_number(words)?;
    end(words)?;
    Ok(Request::Read {
        inode,
        handle,
        size,
        offset,
    })
}
