ghost use Rattle.std.specs.Prelude.{◌≡◌, IfOk, OnErr};
ghost use Rattle.std.specs.Option.{option_copied};
ghost use Rattle.pt_tables.specs.Change.{change_of, kept_claim, HoldsList};

use crate::form::{Negotiated, RowForm};
use pt_host::{Fd, FileHandle, ObjIds};
use std::alloc::{AllocError, Global};
use std::marker::Model;

/// Numbers with the counts that are taken back of them.
#[derive(Drop)]
pub struct ForgetPairs {
    pairs: Vec<(u64, u64)>,
}

impl Model for ForgetPairs {
    ghost use Rattle.std.specs.Prelude.{List, ℕ};

    ghost Value = { List (ℕ × ℕ) };

    ghost view = { λ list. list.pairs.items };
}

impl ForgetPairs {
    pub fn from_vec(pairs: Vec<(u64, u64)>) -> Self
        ensures { result ≡ pairs.items }
    {
        ForgetPairs { pairs }
    }

    pub fn as_slice(&self) -> &[(u64, u64)]
        ensures { result.now ≡ self.now }
    {
        self.pairs.as_slice()
    }
}

/// An object whose number is to be given once more, and the era in which its request began.
#[derive(Clone, Copy)]
pub struct Claim<'a> {
    pub era: u64,
    pub handle: Option<&'a FileHandle>,
    pub ids: ObjIds,
}

/// A claim that owns its handle.
#[derive(Drop)]
pub struct KeptClaim {
    pub era: u64,
    pub handle: Option<FileHandle>,
    pub ids: ObjIds,
}

/// A row that is to be inserted for a number, unless its object has one.
#[derive(Drop)]
pub struct NewRow {
    pub era: u64,
    pub number: u64,
    pub form: RowForm,
    pub ids: ObjIds,
    pub mode: u32,
    pub class: u32,
}

/// The row of number 1, whose class is 0, with what was agreed on, where that is said.
#[derive(Drop)]
pub struct NewRoot {
    pub era: u64,
    pub form: RowForm,
    pub ids: ObjIds,
    pub mode: u32,
    pub negotiated: Option<Negotiated>,
}

/// A handle that is to be inserted, with the number that it was opened for and its class.
#[derive(Clone, Copy)]
pub struct NewHandle {
    pub era: u64,
    pub handle: u64,
    pub number: u64,
    pub fd: Fd,
    pub class: u32,
}

/// One change of the tables. A number is the guest's, a row is named by its serial.
#[derive(Drop)]
pub enum Event<'a> {
    /// A request begins.
    Begin,
    /// Pins the row of a live number.
    Resolve { number: u64 },
    Unpin { row: u64 },
    /// Gives the number of a live row of this object once more.
    Claim(Claim<'a>),
    /// Takes a descriptor slot of this class.
    TakeFd { class: u32 },
    GiveFd { class: u32 },
    /// Draws a number that was never given.
    DrawNode,
    Insert(NewRow),
    /// Inserts number 1, and says what was agreed on, or leaves it.
    InsertRoot(NewRoot),
    Forget { list: &'a [(u64, u64)] },
    /// The same, of this number alone.
    ForgetOne { number: u64, count: u64 },
    /// Takes back one of what this request was given.
    GiveBack { era: u64, number: u64 },
    /// Draws a handle that was never given.
    DrawHandle,
    InsertHandle(NewHandle),
    /// Pins the row of a live handle of this number.
    PinHandle { handle: u64, number: u64 },
    UnpinHandle { row: u64 },
    /// Ends a handle of this number.
    Release { handle: u64, number: u64 },
    /// Begins the session anew: no number and no handle stays live.
    Clear,
    /// Takes the first descriptor that is to be closed.
    TakeClosing,
}

/// An event that owns its list.
#[derive(Drop)]
pub enum KeptEvent {
    Begin,
    Resolve { number: u64 },
    Unpin { row: u64 },
    Claim(KeptClaim),
    TakeFd { class: u32 },
    GiveFd { class: u32 },
    DrawNode,
    Insert(NewRow),
    InsertRoot(NewRoot),
    Forget { list: ForgetPairs },
    GiveBack { era: u64, number: u64 },
    DrawHandle,
    InsertHandle(NewHandle),
    PinHandle { handle: u64, number: u64 },
    UnpinHandle { row: u64 },
    Release { handle: u64, number: u64 },
    Clear,
    TakeClosing,
}

fn kept_handle(handle: Option<&FileHandle>) -> Option<FileHandle>
    ensures { result ≡ option_copied handle.entry }
{
    match handle {
        None => None,
        Some(handle) => Some(handle.copy()),
    }
}

impl<'a> Claim<'a> {
    /// The same claim with a handle of its own, which takes no memory.
    fn keep(&self) -> KeptClaim
        ensures { result ≡ kept_claim self.now }
    {
        KeptClaim {
            era: self.era,
            handle: kept_handle(self.handle),
            ids: self.ids,
        }
    }
}

impl KeptClaim {
    /// The same claim, whose handle is lent.
    fn lend(&self) -> Claim<'_>
        ensures { kept_claim result ≡ self.now }
    {
        Claim {
            era: self.era,
            handle: self.handle.as_ref(),
            ids: self.ids,
        }
    }
}

impl NewRow {
    /// The same row once more, which takes no memory.
    pub fn copy(&self) -> NewRow
        ensures { result ≡ self.now }
    {
        NewRow {
            era: self.era,
            number: self.number,
            form: self.form.copy(),
            ids: self.ids,
            mode: self.mode,
            class: self.class,
        }
    }
}

impl NewRoot {
    /// The same row once more, which takes no memory.
    pub fn copy(&self) -> NewRoot
        ensures { result ≡ self.now }
    {
        NewRoot {
            era: self.era,
            form: self.form.copy(),
            ids: self.ids,
            mode: self.mode,
            negotiated: self.negotiated,
        }
    }
}

impl<'a> Event<'a> {
    /// The same event with a list of its own. Only a list takes memory.
    pub fn keep(&self, alloc: Global) -> Result<KeptEvent, AllocError>
        ensures ok { IfOk result (λ kept. kept ≡ change_of self.now) }
        ensures err { OnErr result (HoldsList (change_of self.now)) }
    {
        match self {
            Event::Begin => Ok(KeptEvent::Begin),
            Event::Resolve { number } => Ok(KeptEvent::Resolve { number: *number }),
            Event::Unpin { row } => Ok(KeptEvent::Unpin { row: *row }),
            Event::Claim(claim) => Ok(KeptEvent::Claim(claim.keep())),
            Event::TakeFd { class } => Ok(KeptEvent::TakeFd { class: *class }),
            Event::GiveFd { class } => Ok(KeptEvent::GiveFd { class: *class }),
            Event::DrawNode => Ok(KeptEvent::DrawNode),
            Event::Insert(new) => Ok(KeptEvent::Insert(new.copy())),
            Event::InsertRoot(new) => Ok(KeptEvent::InsertRoot(new.copy())),
            Event::Forget { list } => {
                let pairs = list.to_vec(alloc)?;
                let list = ForgetPairs::from_vec(pairs);
                Ok(KeptEvent::Forget { list })
            }
            Event::ForgetOne { number, count } => {
                let pairs = [(*number, *count)].to_vec(alloc)?;
                let list = ForgetPairs::from_vec(pairs);
                Ok(KeptEvent::Forget { list })
            }
            Event::GiveBack { era, number } => Ok(KeptEvent::GiveBack {
                era: *era,
                number: *number,
            }),
            Event::DrawHandle => Ok(KeptEvent::DrawHandle),
            Event::InsertHandle(new) => Ok(KeptEvent::InsertHandle(*new)),
            Event::PinHandle { handle, number } => Ok(KeptEvent::PinHandle {
                handle: *handle,
                number: *number,
            }),
            Event::UnpinHandle { row } => Ok(KeptEvent::UnpinHandle { row: *row }),
            Event::Release { handle, number } => Ok(KeptEvent::Release {
                handle: *handle,
                number: *number,
            }),
            Event::Clear => Ok(KeptEvent::Clear),
            Event::TakeClosing => Ok(KeptEvent::TakeClosing),
        }
    }
}

impl KeptEvent {
    /// The same event, whose list is lent.
    pub fn lend(&self) -> Event<'_>
        ensures { change_of result ≡ self.now }
    {
        match self {
            KeptEvent::Begin => Event::Begin,
            KeptEvent::Resolve { number } => Event::Resolve { number: *number },
            KeptEvent::Unpin { row } => Event::Unpin { row: *row },
            KeptEvent::Claim(claim) => Event::Claim(claim.lend()),
            KeptEvent::TakeFd { class } => Event::TakeFd { class: *class },
            KeptEvent::GiveFd { class } => Event::GiveFd { class: *class },
            KeptEvent::DrawNode => Event::DrawNode,
            KeptEvent::Insert(new) => Event::Insert(new.copy()),
            KeptEvent::InsertRoot(new) => Event::InsertRoot(new.copy()),
            KeptEvent::Forget { list } => Event::Forget {
                list: list.as_slice(),
            },
            KeptEvent::GiveBack { era, number } => Event::GiveBack {
                era: *era,
                number: *number,
            },
            KeptEvent::DrawHandle => Event::DrawHandle,
            KeptEvent::InsertHandle(new) => Event::InsertHandle(*new),
            KeptEvent::PinHandle { handle, number } => Event::PinHandle {
                handle: *handle,
                number: *number,
            },
            KeptEvent::UnpinHandle { row } => Event::UnpinHandle { row: *row },
            KeptEvent::Release { handle, number } => Event::Release {
                handle: *handle,
                number: *number,
            },
            KeptEvent::Clear => Event::Clear,
            KeptEvent::TakeClosing => Event::TakeClosing,
        }
    }
}
