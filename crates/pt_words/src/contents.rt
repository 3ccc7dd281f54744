ghost use Rattle.std.specs.Prelude.{◌≡◌, IfOk, Some, None};
ghost use Rattle.pt_words.specs.Contents.{
  write_in,
  fallocate_in,
  lseek_in,
  copyfilerange_in,
  flush_in,
  sync_in,
  fsync_in,
  fsyncdir_in,
  syncfs_in,
};

use crate::fields::{LineError, end, next_bytes, next_number, next_small, next_switch};
use crate::handles::next_handle;
use pt_iface::Request;
use pt_text::Parts;
use std::alloc::Global;

pub fn next_write(alloc: Global, words: &mut Parts<'_>) -> Result<Request, LineError>
    ensures ok { IfOk result (λ request. write_in words.old ≡ Some request) }
    ensures bad { result ≡ Err LineError.Bad → write_in words.old ≡ None }
{
    let inode = next_number(words)?;
    let handle = next_number(words)?;
    let offset = next_number(words)?;
    let bytes = next_bytes(alloc, words)?;
    let delayed = next_switch(words)?;
    let kill = next_switch(words)?;
    let flags = next_small(words)?;
    end(words)?;
    Ok(Request::Write {
        inode,
        handle,
        offset,
        bytes,
        delayed,
        kill,
        flags,
    })
}

pub fn next_fallocate(words: &mut Parts<'_>) -> Result<Request, LineError>
    ensures ok { IfOk result (λ request. fallocate_in words.old ≡ Some request) }
    ensures bad { result ≡ Err LineError.Bad → fallocate_in words.old ≡ None }
    ensures no_memory { result ≡ Err LineError.Memory → ⊥ }
{
    let inode = next_number(words)?;
    let handle = next_number(words)?;
    let mode = next_small(words)?;
    let offset = next_number(words)?;
    let length = next_number(words)?;
    end(words)?;
    Ok(Request::Fallocate {
        inode,
        handle,
        mode,
        offset,
        length,
    })
}

pub fn next_lseek(words: &mut Parts<'_>) -> Result<Request, LineError>
    ensures ok { IfOk result (λ request. lseek_in words.old ≡ Some request) }
    ensures bad { result ≡ Err LineError.Bad → lseek_in words.old ≡ None }
    ensures no_memory { result ≡ Err LineError.Memory → ⊥ }
{
    let inode = next_number(words)?;
    let handle = next_number(words)?;
    let offset = next_number(words)?;
    let whence = next_small(words)?;
    end(words)?;
    Ok(Request::Lseek {
        inode,
        handle,
        offset,
        whence,
    })
}

pub fn next_copyfilerange(words: &mut Parts<'_>) -> Result<Request, LineError>
    ensures ok { IfOk result (λ request. copyfilerange_in words.old ≡ Some request) }
    ensures bad { result ≡ Err LineError.Bad → copyfilerange_in words.old ≡ None }
    ensures no_memory { result ≡ Err LineError.Memory → ⊥ }
{
    let inode = next_number(words)?;
    let handle = next_number(words)?;
    let offset = next_number(words)?;
    let inode2 = next_number(words)?;
    let handle2 = next_number(words)?;
    let offset2 = next_number(words)?;
    let length = next_number(words)?;
    let flags = next_number(words)?;
    end(words)?;
    Ok(Request::CopyFileRange {
        inode,
        handle,
        offset,
        inode2,
        handle2,
        offset2,
        length,
        flags,
    })
}

pub fn next_flush(words: &mut Parts<'_>) -> Result<Request, LineError>
    ensures ok { IfOk result (λ request. flush_in words.old ≡ Some request) }
    ensures bad { result ≡ Err LineError.Bad → flush_in words.old ≡ None }
    ensures no_memory { result ≡ Err LineError.Memory → ⊥ }
{
    let (inode, handle) = next_handle(words)?;
    Ok(Request::Flush { inode, handle })
}

/// An inode, its handle, and whether the data alone is meant; and no more.
fn next_sync(words: &mut Parts<'_>) -> Result<(u64, u64, bool), LineError>
    ensures ok { IfOk result (λ told. sync_in words.old ≡ Some told) }
    ensures bad { result ≡ Err LineError.Bad → sync_in words.old ≡ None }
    ensures no_memory { result ≡ Err LineError.Memory → ⊥ }
{
    let inode = next_number(words)?;
    let handle = next_number(words)?;
    let datasync = next_switch(words)?;
    end(words)?;
    Ok((inode, handle, datasync))
}

pub fn next_fsync(words: &mut Parts<'_>) -> Result<Request, LineError>
    ensures ok { IfOk result (λ request. fsync_in words.old ≡ Some request) }
    ensures bad { result ≡ Err LineError.Bad → fsync_in words.old ≡ None }
    ensures no_memory { result ≡ Err LineError.Memory → ⊥ }
{
    let (inode, handle, datasync) = next_sync(words)?;
    Ok(Request::Fsync {
        inode,
        handle,
        datasync,
    })
}

pub fn next_fsyncdir(words: &mut Parts<'_>) -> Result<Request, LineError>
    ensures ok { IfOk result (λ request. fsyncdir_in words.old ≡ Some request) }
    ensures bad { result ≡ Err LineError.Bad → fsyncdir_in words.old ≡ None }
    ensures no_memory { result ≡ Err LineError.Memory → ⊥ }
{
    let (inode, handle, datasync) = next_sync(words)?;
    Ok(Request::FsyncDir {
        inode,
        handle,
        datasync,
    })
}

pub fn next_syncfs(words: &mut Parts<'_>) -> Result<Request, LineError>
    ensures ok { IfOk result (λ request. syncfs_in words.old ≡ Some request) }
    ensures bad { result ≡ Err LineError.Bad → syncfs_in words.old ≡ None }
    ensures no_memory { result ≡ Err LineError.Memory → ⊥ }
{
    let inode = next_number(words)?;
    end(words)?;
    Ok(Request::SyncFs { inode })
}
