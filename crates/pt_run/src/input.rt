ghost use Rattle.std.specs.Prelude.{◌≡◌, ◌≢◌, ◌≤◌, ◌<◌, ◌+◌, List, ℕ, Option, IfOk, true, false, vec_len, OnErr};
ghost use Rattle.std.specs.Prelude.{OnOk};
ghost use Rattle.pt_host.specs.Promises.{HasRisen};
ghost use Rattle.pt_run.specs.Passing.{IsTakenFrom};
ghost use Rattle.pt_run.specs.Streams.{IsAtEnd, IsAll, IsLonger};

use crate::streams::Source;
use std::alloc::Global;

/// How many bytes a script has at most.
pub const MAX_SCRIPT: usize = 16_777_216;

const CHUNK: usize = 4096;

/// Why no script was read.
#[derive(Clone, Copy)]
pub enum InputError {
    Fault,
    /// There are more than `MAX_SCRIPT` bytes.
    TooLong,
    Memory,
}

/// All bytes of an input. It stops at the first failed reading and behind byte `MAX_SCRIPT` + 1.
pub fn read_script<I: Source>(alloc: Global, input: &mut I) -> Result<Vec<u8>, InputError>
    ensures whole { IfOk result (λ bytes. IsAll (I.left input.old) bytes.items) }
    ensures ended { OnOk result (IsAtEnd (I.left input.new)) }
    ensures short { IfOk result (λ bytes. vec_len bytes ≤ 16777216) }
    ensures too_long { result ≡ Err InputError.TooLong → IsLonger 16777216 (I.left input.old) }
    ensures fault { result ≡ Err InputError.Fault → HasRisen (I.faults input.old) (I.faults input.new) }
    ensures no_fault { result ≢ Err InputError.Fault → I.faults input.new ≡ I.faults input.old }
    ensures never_falls { I.faults input.old ≤ I.faults input.new }
{
    let mut bytes = Vec::new(alloc);
    while bytes.len() <= MAX_SCRIPT {
        if !read_more(input, &mut bytes)? {
            return Ok(bytes);
        }
    }
    Err(InputError::TooLong)
}

// Appends what one reading gives, up to one byte more than a script may have, and tells whether it gave any.
fn read_more<I: Source>(input: &mut I, bytes: &mut Vec<u8>) -> Result<bool, InputError>
    requires { vec_len bytes.old ≤ 16777216 }
    ensures taken { IfOk result (λ _. (whole : Option (List ℕ)) →
        IsTakenFrom whole bytes.old.items (I.left input.old) → IsTakenFrom whole bytes.new.items (I.left input.new)) }
    ensures ended { result ≡ Ok false → IsAtEnd (I.left input.new) }
    ensures same { result ≡ Ok false → bytes.new.items ≡ bytes.old.items }
    ensures more { result ≡ Ok true → vec_len bytes.old < vec_len bytes.new }
    ensures within { vec_len bytes.new ≤ 16777217 }
    ensures not_long { result ≡ Err InputError.TooLong → ⊥ }
    ensures fault { result ≡ Err InputError.Fault → HasRisen (I.faults input.old) (I.faults input.new) }
    ensures no_fault { result ≢ Err InputError.Fault → I.faults input.new ≡ I.faults input.old }
    ensures never_falls { I.faults input.old ≤ I.faults input.new }
{
    let mut chunk = [0; CHUNK];
    let room = (MAX_SCRIPT + 1 - bytes.len()).min(CHUNK);
    match input.pull(&mut chunk[..room]) {
        Ok(0) => Ok(false),
        Ok(count) => match bytes.extend_from_slice(&chunk[..count]) {
            Ok(()) => Ok(true),
            Err(_) => Err(InputError::Memory),
        },
        Err(_) => Err(InputError::Fault),
    }
}
