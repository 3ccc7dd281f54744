ghost use Rattle.std.specs.Prelude.{◌≡◌, IfOk, Some, None};
ghost use Rattle.pt_script.specs.Edit.{unlink_in, rename_in, file_edit, dir_edit, write_in, edit_as, edit_in};

use crate::new_objects::{NewDir, NewFile, next_new_dir, next_new_file};
use pt_host::Edit;
use pt_text::{Parts, is_word};
use pt_words::{LineError, end, next_bytes, next_word};
use std::alloc::Global;

fn next_unlink(alloc: Global, words: &mut Parts<'_>) -> Result<Edit, LineError>
    ensures ok { IfOk result (λ edit. unlink_in words.old ≡ Some edit) }
    ensures bad { result ≡ Err LineError.Bad → unlink_in words.old ≡ None }
{
    let path = next_bytes(alloc, words)?;
    end(words)?;
    Ok(Edit::Unlink { path })
}

fn next_rename(alloc: Global, words: &mut Parts<'_>) -> Result<Edit, LineError>
    ensures ok { IfOk result (λ edit. rename_in words.old ≡ Some edit) }
    ensures bad { result ≡ Err LineError.Bad → rename_in words.old ≡ None }
{
    let old = next_bytes(alloc, words)?;
    let new = next_bytes(alloc, words)?;
    end(words)?;
    Ok(Edit::Rename { old, new })
}

fn file_edit(file: NewFile) -> Edit
    ensures { result ≡ file_edit file }
{
    Edit::File {
        path: file.path,
        mode: file.mode,
        uid: file.uid,
        gid: file.gid,
        bytes: file.bytes,
    }
}

fn dir_edit(dir: NewDir) -> Edit
    ensures { result ≡ dir_edit dir }
{
    Edit::Dir {
        path: dir.path,
        mode: dir.mode,
        uid: dir.uid,
        gid: dir.gid,
    }
}

fn next_write(alloc: Global, words: &mut Parts<'_>) -> Result<Edit, LineError>
    ensures ok { IfOk result (λ edit. write_in words.old ≡ Some edit) }
    ensures bad { result ≡ Err LineError.Bad → write_in words.old ≡ None }
{
    let path = next_bytes(alloc, words)?;
    let bytes = next_bytes(alloc, words)?;
    end(words)?;
    Ok(Edit::Write { path, bytes })
}

// The edit that begins with this word.
fn next_edit_as(alloc: Global, word: &[u8], words: &mut Parts<'_>) -> Result<Edit, LineError>
    ensures ok { IfOk result (λ edit. edit_as word.now words.old ≡ Some edit) }
    ensures bad { result ≡ Err LineError.Bad → edit_as word.now words.old ≡ None }
{
    if is_word(word, b"unlink") {
        next_unlink(alloc, words)
    } else if is_word(word, b"rename") {
        next_rename(alloc, words)
    } else if is_word(word, b"file") {
        Ok(file_edit(next_new_file(alloc, words)?))
    } else if is_word(word, b"dir") {
        Ok(dir_edit(next_new_dir(alloc, words)?))
    } else if is_word(word, b"write") {
        next_write(alloc, words)
    } else {
        Err(LineError::Bad)
    }
}

/// An edit and its fields. Its paths are judged when it is made.
pub fn next_edit(alloc: Global, words: &mut Parts<'_>) -> Result<Edit, LineError>
    ensures ok { IfOk result (λ edit. edit_in words.old ≡ Some edit) }
    ensures bad { result ≡ Err LineError.Bad → edit_in words.old ≡ None }
{
    let word = next_word(words)?;
    next_edit_as(alloc, word, words)
}
