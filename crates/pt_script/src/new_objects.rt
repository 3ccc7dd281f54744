ghost use Rattle.std.specs.Prelude.{◌≡◌, IfOk, Some, None};
ghost use Rattle.pt_script.specs.NewObjects.{new_file_in, new_dir_in};

use pt_host::Bytes;
use pt_text::Parts;
use pt_words::{LineError, end, next_bytes, next_small};
use std::alloc::Global;

/// The fields of a new regular file: its path, its permissions, its owner and what it holds.
#[derive(Drop)]
pub struct NewFile {
    pub path: Bytes,
    pub mode: u32,
    pub uid: u32,
    pub gid: u32,
    pub bytes: Bytes,
}

/// The fields of a new directory: its path, its permissions and its owner.
#[derive(Drop)]
pub struct NewDir {
    pub path: Bytes,
    pub mode: u32,
    pub uid: u32,
    pub gid: u32,
}

/// The fields of a new file, to the last word.
pub fn next_new_file(alloc: Global, words: &mut Parts<'_>) -> Result<NewFile, LineError>
    ensures ok { IfOk result (λ file. new_file_in words.old ≡ Some file) }
    ensures bad { result ≡ Err LineError.Bad → new_file_in words.old ≡ None }
{
    let path = next_bytes(alloc, words)?;
    let mode = next_small(words)?;
    let uid = next_small(words)?;
    let gid = next_small(words)?;
    let bytes = next_bytes(alloc, words)?;
    end(words)?;
    Ok(NewFile {
        path,
        mode,
        uid,
        gid,
        bytes,
    })
}

/// The fields of a new directory, to the last word.
pub fn next_new_dir(alloc: Global, words: &mut Parts<'_>) -> Result<NewDir, LineError>
    ensures ok { IfOk result (λ dir. new_dir_in words.old ≡ Some dir) }
    ensures bad { result ≡ Err LineError.Bad → new_dir_in words.old ≡ None }
{
    let path = next_bytes(alloc, words)?;
    let mode = next_small(words)?;
    let uid = next_small(words)?;
    let gid = next_small(words)?;
    end(words)?;
    Ok(NewDir {
        path,
        mode,
        uid,
        gid,
    })
}
