//! What a request is read by: a plain function over all that its job was told, which is read from its beginning each
//! time. Each step takes the next reply, or stops the function where none is told yet.

ghost use Rattle.std.specs.Prelude.{◌≡◌, ℕ, true, false, List, IfOk, IfErr, IfSome, IfNone, Some, None, Ok, Err};
ghost use Rattle.std.specs.Prelude.{slice_get};
ghost use Rattle.pt_frame.specs.Deed.{deed_of, Calls};
ghost use Rattle.pt_frame.specs.Machine.Walk.{IsRead, IsWithEntries, Reads, entries_in, reply_in};
ghost use Rattle.pt_frame.specs.Tree.{RequestTree, Asks, Opens, Bares, Brackets, Shuts, make_bytes, make_entries};
ghost use Rattle.pt_frame.specs.declared.product.Product.TheVariants as product;
ghost use Rattle.pt_frame.specs.declared.told.Heard.TheVariants as heard;
ghost use Rattle.pt_iface.specs.declared.directory.DirEntry.{DirEntry};
ghost use Rattle.pt_frame.specs.declared.act.ActReply.{ActReply};
ghost use Rattle.pt_host.specs.Call.{call_of};

use crate::act::{Act, ActReply};
use crate::hold::Hold;
use crate::product::Product;
use crate::told::{Brings, Heard, Moved, act_may, is_same};
use pt_host::{Bytes, Errno, HostOp};
use pt_iface::Answer;

/// Where a request stops.
#[derive(Drop)]
pub enum Stop<'a> {
    /// It asks for this act.
    Wants(Act<'a>),
    /// It asks for this call on the seat, and where that is Ok its scope is open.
    Opens(Act<'a>, Hold),
    Gives(Answer),
    /// It is answered with the bytes of the reply at this place.
    Moves(Moved, usize),
    /// This reply is answered as a refusal.
    Refuses(&'a ActReply),
    /// The open scopes end.
    Bares,
    /// A bracket begins.
    Brackets,
    /// The innermost bracket ends, and the last hold of all may pass its end.
    Shuts(bool),
    /// It made this, which is kept for it.
    Makes(Product),
    /// Memory ran out for what it makes.
    GivesUp,
}

/// What a step or a part of a request hands on, or where the request stops in it.
pub type Asked<'a, T> = Result<T, Stop<'a>>;

/// What comes next of what was told, if anything does.
#[tactic(auto, using(crate::proofs::Reading::read_some, crate::proofs::Reading::read_none))]
fn next<'a>(told: &'a [Heard], at: &mut usize) -> Option<&'a Heard>
    ensures none { IfNone result (IsRead told.now at.old at.new None) }
    ensures some { IfSome result (λ heard. IsRead told.now at.old at.new (Some heard.now)) }
{
    match told.get(*at) {
        None => None,
        Some(heard) => {
            *at += 1;
            Some(heard)
        }
    }
}

/// One step: the reply to this act.
#[tactic(auto, using(crate::proofs::Reading::wants, crate::proofs::Reading::heard, crate::proofs::Reading::strays, crate::proofs::Reading::strays_other, crate::proofs::Reading::read_place))]
pub fn ask<'a>(told: &'a [Heard], at: &mut usize, act: Act<'a>) -> Asked<'a, &'a ActReply>
    ensures reads { (more : ActReply → RequestTree) →
        Reads told.now at.old at.new result (Asks (deed_of act.entry) more) (λ reply. more reply.now) }
    ensures place { IfOk result (λ reply. reply_in (slice_get told.now at.old) ≡ Some reply.now) }
{
    match next(told, at) {
        None => Err(Stop::Wants(act)),
        Some(Heard::Reply { reply, may }) => {
            if is_same(*may, act_may(&act)) {
                Ok(reply)
            } else {
                Err(Stop::Gives(Answer::Refused(Errno::EIO)))
            }
        }
        Some(_) => Err(Stop::Gives(Answer::Refused(Errno::EIO))),
    }
}

/// One step that is a call on the seat: the reply to it. Where that is Ok, this scope is open.
#[tactic(auto, using(crate::proofs::Reading::opens, crate::proofs::Reading::heard_open, crate::proofs::Reading::strays_open, crate::proofs::Reading::strays_other_open))]
pub fn open<'a>(
    told: &'a [Heard],
    at: &mut usize,
    op: HostOp<'a>,
    scope: Hold,
) -> Asked<'a, &'a ActReply>
    ensures { (more : ActReply → RequestTree) →
        Reads told.now at.old at.new result (Opens (call_of op.entry) scope more) (λ reply. more reply.now) }
{
    match next(told, at) {
        None => Err(Stop::Opens(Act::Host(op), scope)),
        Some(Heard::Reply { reply, may }) => {
            if is_same(*may, Brings::Hold) {
                Ok(reply)
            } else {
                Err(Stop::Gives(Answer::Refused(Errno::EIO)))
            }
        }
        Some(_) => Err(Stop::Gives(Answer::Refused(Errno::EIO))),
    }
}

/// The scopes that are open end.
#[tactic(auto, using(crate::proofs::Reading::bares_stop, crate::proofs::Reading::bares_past, crate::proofs::Reading::bares_stray))]
pub fn bares<'a>(told: &'a [Heard], at: &mut usize) -> Asked<'a, ()>
    ensures { (next : RequestTree) → Reads told.now at.old at.new result (Bares next) (λ done. next) }
{
    match next(told, at) {
        None => Err(Stop::Bares),
        Some(Heard::Bares) => Ok(()),
        Some(_) => Err(Stop::Gives(Answer::Refused(Errno::EIO))),
    }
}

/// A bracket begins.
#[tactic(auto, using(crate::proofs::Reading::brackets_stop, crate::proofs::Reading::brackets_past, crate::proofs::Reading::brackets_stray))]
pub fn brackets<'a>(told: &'a [Heard], at: &mut usize) -> Asked<'a, ()>
    ensures { (next : RequestTree) → Reads told.now at.old at.new result (Brackets next) (λ done. next) }
{
    match next(told, at) {
        None => Err(Stop::Brackets),
        Some(Heard::Brackets) => Ok(()),
        Some(_) => Err(Stop::Gives(Answer::Refused(Errno::EIO))),
    }
}

/// The innermost bracket ends, and the last hold of all may pass its end.
#[tactic(auto, using(crate::proofs::Reading::shuts_stop, crate::proofs::Reading::shuts_past, crate::proofs::Reading::shuts_stray))]
pub fn shuts<'a>(told: &'a [Heard], at: &mut usize, passes: bool) -> Asked<'a, ()>
    ensures { (next : RequestTree) → Reads told.now at.old at.new result (Shuts passes next) (λ done. next) }
{
    match next(told, at) {
        None => Err(Stop::Shuts(passes)),
        Some(Heard::Shuts) => Ok(()),
        Some(_) => Err(Stop::Gives(Answer::Refused(Errno::EIO))),
    }
}

/// The bytes that the request made at this place, which are kept; none where they are not made yet.
#[tactic(auto, using(crate::proofs::Reading::bytes_lie))]
pub fn kept_bytes<'a>(told: &'a [Heard], at: &mut usize) -> Asked<'a, Option<&'a Bytes>>
    ensures none { IfOk result (λ it. IfNone it (IsRead told.now at.old at.new None)) }
    ensures some { IfOk result (λ it. IfSome it (λ bytes. (made : List ℕ) (next : List ℕ → RequestTree) →
        Reads told.now at.old at.new (Ok bytes.now) (make_bytes made next) next)) }
    ensures stray { IfErr result (λ stop. (made : List ℕ) (next : List ℕ → RequestTree) →
        Reads {T = List ℕ} told.now at.old at.new (Err stop) (make_bytes made next) next) }
    ensures place { IfOk result (λ it. IfSome it (λ bytes.
        slice_get told.now at.old ≡ Some (heard.Kept (product.Bytes bytes.now)))) }
{
    match next(told, at) {
        None => Ok(None),
        Some(Heard::Kept(product)) => match product {
            Product::Bytes(bytes) => Ok(Some(bytes)),
            Product::Entries(_) => Err(Stop::Gives(Answer::Refused(Errno::EIO))),
        },
        Some(_) => Err(Stop::Gives(Answer::Refused(Errno::EIO))),
    }
}

/// Whether the request made the entries of a listing at this place, which are kept then.
#[tactic(auto, using(crate::proofs::Reading::entries_lie))]
pub fn kept_entries<'a>(told: &'a [Heard], at: &mut usize) -> Asked<'a, bool>
    ensures none { IfOk result (λ made. made ≡ false → IsRead told.now at.old at.new None) }
    ensures some { IfOk result (λ made. made ≡ true → (entries : List DirEntry) (next : List DirEntry → RequestTree) →
        Reads told.now at.old at.new (Ok (entries_in (slice_get told.now at.old))) (make_entries entries next) next) }
    ensures stray { IfErr result (λ stop. (entries : List DirEntry) (next : List DirEntry → RequestTree) →
        Reads {T = List DirEntry} told.now at.old at.new (Err stop) (make_entries entries next) next) }
    ensures place { IfOk result (λ made. made ≡ true → IsWithEntries (slice_get told.now at.old)) }
{
    match next(told, at) {
        None => Ok(false),
        Some(Heard::Kept(product)) => match product {
            Product::Entries(_) => Ok(true),
            Product::Bytes(_) => Err(Stop::Gives(Answer::Refused(Errno::EIO))),
        },
        Some(_) => Err(Stop::Gives(Answer::Refused(Errno::EIO))),
    }
}
