ghost use Rattle.std.specs.Prelude.{◌≡◌, ◌∷◌, IfOk, Some, None};
ghost use Rattle.std.specs.Option.{option_map};
ghost use Rattle.pt_words.specs.Fields.{places_in, at_end};
ghost use Rattle.pt_script.specs.Line.{fault_in, job_in, edit_job_in, line_in, line_of};
ghost use Rattle.pt_script.specs.SettingLine.{setting_in};
ghost use Rattle.pt_script.specs.TreeLine.{tree_line_in};

use crate::edit::next_edit;
use crate::setting_line::next_setting;
use crate::settings::Setting;
use crate::tree_line::next_tree_line;
use pt_host::{Edit, Errno};
use pt_iface::{Context, Request};
use pt_text::{Parts, is_word};
use pt_tree::TreeLine;
use pt_words::{
    LineError, Places, end, next_errno, next_number, next_places, next_request, next_small,
    next_word,
};
use std::alloc::Global;

/// What a line asks that is a job.
#[derive(Drop)]
pub enum ScriptJob {
    /// A request, and who asks.
    Request(Context, Request),
    /// A change of the host's tree beside the requests.
    Edit(Edit),
}

/// A call of the host, by its number from 1, that is to fail with this error.
#[derive(Clone, Copy)]
pub struct PlannedFault {
    pub call: u64,
    pub errno: Errno,
}

/// A line of a script.
#[derive(Drop)]
pub enum Line {
    Set(Setting),
    Tree(TreeLine),
    Fault(PlannedFault),
    Job(ScriptJob),
    /// Places of the schedule.
    Order(Places),
    End,
}

/// A call of the host that is to fail, to the last word.
pub fn next_fault(words: &mut Parts<'_>) -> Result<PlannedFault, LineError>
    ensures ok { IfOk result (λ fault. fault_in words.old ≡ Some fault) }
    ensures bad { result ≡ Err LineError.Bad → fault_in words.old ≡ None }
    ensures no_memory { result ≡ Err LineError.Memory → ⊥ }
{
    let call = next_number(words)?;
    let errno = next_errno(words)?;
    end(words)?;
    Ok(PlannedFault { call, errno })
}

/// A job of a request, and who asks, to the last word.
pub fn next_job(alloc: Global, words: &mut Parts<'_>) -> Result<ScriptJob, LineError>
    ensures ok { IfOk result (λ job. job_in words.old ≡ Some job) }
    ensures bad { result ≡ Err LineError.Bad → job_in words.old ≡ None }
{
    let uid = next_small(words)?;
    let gid = next_small(words)?;
    let request = next_request(alloc, words)?;
    Ok(ScriptJob::Request(Context { uid, gid }, request))
}

fn next_set_line(alloc: Global, words: &mut Parts<'_>) -> Result<Line, LineError>
    ensures ok { IfOk result (λ line. option_map Line.Set (setting_in words.old) ≡ Some line) }
    ensures bad { result ≡ Err LineError.Bad → option_map Line.Set (setting_in words.old) ≡ None }
{
    Ok(Line::Set(next_setting(alloc, words)?))
}

fn next_job_line(alloc: Global, words: &mut Parts<'_>) -> Result<Line, LineError>
    ensures ok { IfOk result (λ line. option_map Line.Job (job_in words.old) ≡ Some line) }
    ensures bad { result ≡ Err LineError.Bad → option_map Line.Job (job_in words.old) ≡ None }
{
    Ok(Line::Job(next_job(alloc, words)?))
}

fn next_edit_line(alloc: Global, words: &mut Parts<'_>) -> Result<Line, LineError>
    ensures ok { IfOk result (λ line. option_map Line.Job (edit_job_in words.old) ≡ Some line) }
    ensures bad { result ≡ Err LineError.Bad → option_map Line.Job (edit_job_in words.old) ≡ None }
{
    Ok(Line::Job(ScriptJob::Edit(next_edit(alloc, words)?)))
}

fn next_order_line(alloc: Global, words: &mut Parts<'_>) -> Result<Line, LineError>
    ensures ok { IfOk result (λ line. option_map Line.Order (places_in words.old) ≡ Some line) }
    ensures bad { result ≡ Err LineError.Bad → option_map Line.Order (places_in words.old) ≡ None }
{
    Ok(Line::Order(next_places(alloc, words)?))
}

fn next_fault_line(words: &mut Parts<'_>) -> Result<Line, LineError>
    ensures ok { IfOk result (λ line. option_map Line.Fault (fault_in words.old) ≡ Some line) }
    ensures bad { result ≡ Err LineError.Bad → option_map Line.Fault (fault_in words.old) ≡ None }
{
    Ok(Line::Fault(next_fault(words)?))
}

fn next_end_line(words: &Parts<'_>) -> Result<Line, LineError>
    ensures ok { IfOk result (λ line. at_end words.now Line.End ≡ Some line) }
    ensures bad { result ≡ Err LineError.Bad → at_end words.now Line.End ≡ None }
{
    end(words)?;
    Ok(Line::End)
}

fn next_other_line(alloc: Global, word: &[u8], words: &mut Parts<'_>) -> Result<Line, LineError>
    ensures ok { IfOk result (λ line. option_map Line.Tree (tree_line_in word.now words.old) ≡ Some line) }
    ensures bad { result ≡ Err LineError.Bad → option_map Line.Tree (tree_line_in word.now words.old) ≡ None }
{
    Ok(Line::Tree(next_tree_line(alloc, word, words)?))
}

// The line that begins with this word.
fn next_line_as(alloc: Global, word: &[u8], words: &mut Parts<'_>) -> Result<Line, LineError>
    ensures ok { IfOk result (λ line. line_in (word.now ∷ words.old) ≡ Some line) }
    ensures bad { result ≡ Err LineError.Bad → line_in (word.now ∷ words.old) ≡ None }
{
    if is_word(word, b"set") {
        next_set_line(alloc, words)
    } else if is_word(word, b"job") {
        next_job_line(alloc, words)
    } else if is_word(word, b"edit") {
        next_edit_line(alloc, words)
    } else if is_word(word, b"order") {
        next_order_line(alloc, words)
    } else if is_word(word, b"fault") {
        next_fault_line(words)
    } else if is_word(word, b"end") {
        next_end_line(words)
    } else {
        next_other_line(alloc, word, words)
    }
}

/// The line that a text is.
pub fn read_line(alloc: Global, text: &[u8]) -> Result<Line, LineError>
    ensures ok { IfOk result (λ line. line_of text.now ≡ Some line) }
    ensures bad { result ≡ Err LineError.Bad → line_of text.now ≡ None }
{
    let mut words = Parts::words(text);
    let word = next_word(&mut words)?;
    next_line_as(alloc, word, &mut words)
}
