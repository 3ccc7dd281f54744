ghost use Rattle.std.specs.Prelude.{◌≡◌, IfOk, Some, None};
ghost use Rattle.pt_words.specs.Xattrs.{readdir_in, setxattr_in, getxattr_in, listxattr_in, removexattr_in};

use crate::fields::{LineError, end, next_bytes, next_number, next_small};
use pt_iface::{Request, SetxattrFlags};
use pt_text::Parts;
use std::alloc::Global;

pub fn next_readdir(words: &mut Parts<'_>) -> Result<Request, LineError>
    ensures ok { IfOk result (λ request. readdir_in words.old ≡ Some request) }
    ensures bad { result ≡ Err LineError.Bad → readdir_in words.old ≡ None }
    ensures no_memory { result ≡ Err LineError.Memory → ⊥ }
{
    let inode = next_number(words)?;
    let handle = next_number(words)?;
    let size = next_small(words)?;
    let offset = next_number(words)?;
    end(words)?;
    Ok(Request::ReadDir {
        inode,
        handle,
        size,
        offset,
    })
}

pub fn next_setxattr(alloc: Global, words: &mut Parts<'_>) -> Result<Request, LineError>
    ensures ok { IfOk result (λ request. setxattr_in words.old ≡ Some request) }
    ensures bad { result ≡ Err LineError.Bad → setxattr_in words.old ≡ None }
{
    let inode = next_number(words)?;
    let name = next_bytes(alloc, words)?;
    let value = next_bytes(alloc, words)?;
    let flags = next_small(words)?;
    let extra = SetxattrFlags(next_small(words)?);
    end(words)?;
    Ok(Request::SetXattr {
        inode,
        name,
        value,
        flags,
        extra,
    })
}

pub fn next_getxattr(alloc: Global, words: &mut Parts<'_>) -> Result<Request, LineError>
    ensures ok { IfOk result (λ request. getxattr_in words.old ≡ Some request) }
    ensures bad { result ≡ Err LineError.Bad → getxattr_in words.old ≡ None }
{
    let inode = next_number(words)?;
    let name = next_bytes(alloc, words)?;
    let size = next_small(words)?;
    end(words)?;
    Ok(Request::GetXattr { inode, name, size })
}

pub fn next_listxattr(words: &mut Parts<'_>) -> Result<Request, LineError>
    ensures ok { IfOk result (λ request. listxattr_in words.old ≡ Some request) }
    ensures bad { result ≡ Err LineError.Bad → listxattr_in words.old ≡ None }
    ensures no_memory { result ≡ Err LineError.Memory → ⊥ }
{
    let inode = next_number(words)?;
    let size = next_small(words)?;
    end(words)?;
    Ok(Request::ListXattr { inode, size })
}

pub fn next_removexattr(alloc: Global, words: &mut Parts<'_>) -> Result<Request, LineError>
    ensures ok { IfOk result (λ request. removexattr_in words.old ≡ Some request) }
    ensures bad { result ≡ Err LineError.Bad → removexattr_in words.old ≡ None }
{
    let inode = next_number(words)?;
    let name = next_bytes(alloc, words)?;
    end(words)?;
    Ok(Request::RemoveXattr { inode, name })
}
