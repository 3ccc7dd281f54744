ghost use Rattle.std.specs.Prelude.{◌≡◌, IfOk, Some, None};
ghost use Rattle.pt_words.specs.Numbers.{init_in, lookup_in, forget_in, batch_forget_in};

use crate::fields::{LineError, end, next_number, next_pairs, next_small};
use crate::naming::next_name;
use pt_iface::{ForgetList, FsOptions, Request};
use pt_text::Parts;
use std::alloc::Global;

pub fn next_init(words: &mut Parts<'_>) -> Result<Request, LineError>
    ensures ok { IfOk result (λ request. init_in words.old ≡ Some request) }
    ensures bad { result ≡ Err LineError.Bad → init_in words.old ≡ None }
    ensures no_memory { result ≡ Err LineError.Memory → ⊥ }
{
    let capable = FsOptions(next_small(words)?);
    end(words)?;
    Ok(Request::Init { capable })
}

pub fn next_lookup(alloc: Global, words: &mut Parts<'_>) -> Result<Request, LineError>
    ensures ok { IfOk result (λ request. lookup_in words.old ≡ Some request) }
    ensures bad { result ≡ Err LineError.Bad → lookup_in words.old ≡ None }
{
    let (parent, name) = next_name(alloc, words)?;
    Ok(Request::Lookup { parent, name })
}

pub fn next_forget(words: &mut Parts<'_>) -> Result<Request, LineError>
    ensures ok { IfOk result (λ request. forget_in words.old ≡ Some request) }
    ensures bad { result ≡ Err LineError.Bad → forget_in words.old ≡ None }
    ensures no_memory { result ≡ Err LineError.Memory → ⊥ }
{
    let inode = next_number(words)?;
    let count = next_number(words)?;
    end(words)?;
    Ok(Request::Forget { inode, count })
}

pub fn next_batch_forget(alloc: Global, words: &mut Parts<'_>) -> Result<Request, LineError>
    ensures ok { IfOk result (λ request. batch_forget_in words.old ≡ Some request) }
    ensures bad { result ≡ Err LineError.Bad → batch_forget_in words.old ≡ None }
{
    let count = next_number(words)?;
    let list = ForgetList::from_vec(next_pairs(alloc, count, words)?);
    end(words)?;
    Ok(Request::BatchForget { list })
}
