ghost use Rattle.std.specs.Prelude.{◌≡◌, ◌<◌, ◌≤◌, ◌+◌, length, ◌++◌, ◌∷◌, [], true, MatchOption, OnOk, OnErr};
ghost use Rattle.std.specs.VecDeque.{deque_capacity};
ghost use Rattle.pt_host.specs.Words.{Each, Takes, Replaces};
ghost use Rattle.pt_tables.specs.Tables.{closing_of, closing_of_handle, HasNumber, HasIds, HasHandle, IsHandle};
ghost use Rattle.pt_tables.specs.Rows.{number_rows, handle_rows};
ghost use Rattle.pt_rows.specs.Rows.{IsAmong, NoneOf, IsPinned, IsLeast};
ghost use Rattle.pt_rows.specs.Same.{IsSame};
ghost use Rattle.pt_tables.specs.Pending.{row_slots, handle_slots, closing_slots};
ghost use Rattle.pt_tables.specs.LiveAfter.{IsLiveAfter, IsHandleAfter};

use crate::objects::{Objects, enter_object, leave_object, object_key};
use crate::row::{Closing, HandleRow, Row};
use pt_host::ObjIds;
use pt_rows::{Pinned, Rows};
use std::alloc::{AllocError, Global};
use std::collections::{BTreeMap, VecDeque};
use std::marker::Model;

/// The rows and what is to be closed.
#[derive(Drop)]
pub struct RowStore {
    numbers: Rows<Row>,
    objects: Objects,
    handles: Rows<HandleRow>,
    /// Has room for the descriptor of each row.
    closing: VecDeque<Closing>,
}

impl Model for RowStore {
    ghost use Rattle.std.specs.VecDeque.{deque_capacity};
    ghost use Rattle.pt_tables.specs.Store.{Stored};
    ghost use Rattle.pt_tables.specs.Index.{by_object, IsSoundStore};

    ghost Value = { Stored };

    ghost view = { λ store. record {
      rows = store.numbers;
      handles = store.handles;
      closing = store.closing.items;
    } };

    ghost invariant = { λ store.
        IsSoundStore store.numbers (by_object store.objects) store.handles store.closing.items
        (deque_capacity store.closing) };
}

/// Gets room on the closing list for one more row than there are, and for all of those.
fn reserve(closing: &mut VecDeque<Closing>, rows: usize, handles: usize) -> Result<(), AllocError>
    requires { rows + handles + length closing.old.items ≤ deque_capacity closing.old }
    ensures items { closing.new.items ≡ closing.old.items }
    ensures kept { deque_capacity closing.old ≤ deque_capacity closing.new }
    ensures room { OnOk result (rows + 1 + handles + length closing.new.items ≤ deque_capacity closing.new) }
{
    closing.reserve(rows + handles + 1)
}

/// How many slots of this class go back with what is to be closed.
fn slots_of(closing: &VecDeque<Closing>, class: u32) -> usize
    ensures same { result ≡ closing_slots class closing.now.items }
    ensures bound { result ≤ length closing.now.items }
{
    closing
        .iter()
        .filter(|entry| entry.slot && entry.class == class)
        .count()
}

impl RowStore {
    pub fn new(alloc: Global) -> RowStore
        ensures rows { result.rows ≡ [] }
        ensures handles { result.handles ≡ [] }
        ensures closing { result.closing ≡ [] }
    {
        RowStore {
            numbers: Rows::new(alloc),
            objects: BTreeMap::new(alloc),
            handles: Rows::new(alloc),
            closing: VecDeque::new(alloc),
        }
    }

    /// The live row of this number.
    pub fn live(&self, number: u64) -> Option<Row>
        ensures { MatchOption result (NoneOf (HasNumber number) self.now.rows) (λ row. HasNumber number row
            × IsAmong row self.now.rows) }
    {
        self.numbers.live(number)
    }

    /// The live row of this object.
    pub fn object(&self, ids: ObjIds) -> Option<Row>
        ensures { MatchOption result (NoneOf (HasIds ids) self.now.rows) (λ row. HasIds ids row
            × IsAmong row self.now.rows) }
    {
        match self.objects.get(&object_key(ids)) {
            None => None,
            Some(serial) => self.numbers.at(*serial),
        }
    }

    /// Adds a row that is newer than all others, with the room that its closing will want.
    pub fn insert(&mut self, row: Row) -> Result<(), AllocError>
        requires live { row.live ≡ true }
        requires newest { Each (λ other. other.serial < row.serial) self.old.rows }
        requires number { NoneOf (HasNumber row.number) self.old.rows }
        requires object { NoneOf (HasIds row.ids) self.old.rows }
        ensures ok { OnOk result (self.new.rows ≡ row ∷ self.old.rows) }
        ensures err { OnErr result (self.new.rows ≡ self.old.rows) }
        ensures handles { self.new.handles ≡ self.old.handles }
        ensures closing { self.new.closing ≡ self.old.closing }
    {
        reserve(&mut self.closing, self.numbers.len(), self.handles.len())?;
        let ids = row.ids;
        enter_object(&mut self.objects, ids, row.serial)?;
        match self.numbers.insert(row) {
            Ok(()) => Ok(()),
            Err(_) => {
                leave_object(&mut self.objects, true, ids);
                Err(AllocError)
            }
        }
    }

    /// The least live number above the given one, or the least of all, with its count.
    pub fn live_after(&self, above: Option<u64>) -> Option<(u64, u64)>
        ensures { IsLiveAfter self.now.rows above result }
    {
        match self.numbers.next(above) {
            None => None,
            Some(row) => Some((row.number, row.count)),
        }
    }

    /// The live row of this handle.
    pub fn live_handle(&self, handle: u64) -> Option<HandleRow>
        ensures { MatchOption result (NoneOf (HasHandle handle) self.now.handles) (λ row. HasHandle handle row
            × IsAmong row self.now.handles) }
    {
        self.handles.live(handle)
    }

    /// The live row of this handle, if it was opened for this number.
    pub fn handle_of(&self, handle: u64, number: u64) -> Option<HandleRow>
        ensures { MatchOption result (NoneOf (IsHandle handle number) self.now.handles) (λ row.
            IsHandle handle number row × IsAmong row self.now.handles) }
    {
        match self.handles.live(handle) {
            None => None,
            Some(row) => {
                if row.number != number {
                    return None;
                }
                Some(row)
            }
        }
    }

    /// Adds a handle's row that is newer than all others, with the room that its closing will want.
    pub fn insert_handle(&mut self, row: HandleRow) -> Result<(), AllocError>
        requires live { row.live ≡ true }
        requires newest { Each (λ other. other.serial < row.serial) self.old.handles }
        requires handle { NoneOf (HasHandle row.handle) self.old.handles }
        ensures ok { OnOk result (self.new.handles ≡ row ∷ self.old.handles) }
        ensures err { OnErr result (self.new.handles ≡ self.old.handles) }
        ensures rows { self.new.rows ≡ self.old.rows }
        ensures closing { self.new.closing ≡ self.old.closing }
    {
        reserve(&mut self.closing, self.numbers.len(), self.handles.len())?;
        self.handles.insert(row)
    }

    /// The least live handle above the given one, or the least of all, with its number.
    pub fn handle_after(&self, above: Option<u64>) -> Option<(u64, u64)>
        ensures { IsHandleAfter self.now.handles above result }
    {
        match self.handles.next(above) {
            None => None,
            Some(row) => Some((row.handle, row.number)),
        }
    }

    /// Takes the first descriptor that is to be closed.
    pub fn take_closing(&mut self) -> Option<Closing>
        ensures { MatchOption result (self.old.closing ≡ []
            × self.new ≡ self.old) (λ closing. self.old.closing ≡ closing ∷ self.new.closing
            × self.new.rows ≡ self.old.rows × self.new.handles ≡ self.old.handles) }
    {
        self.closing.pop_front()
    }

    /// How many rows and closing entries there are. Each has its room, so that they can be counted.
    pub fn pending(&self) -> usize
        ensures { result ≡ length self.now.rows + length self.now.handles + length self.now.closing }
    {
        self.numbers.len() + self.handles.len() + self.closing.len()
    }

    /// How many slots of this class the rows and the closing list hold.
    pub fn slots(&self, class: u32) -> usize
        ensures { result ≡ row_slots class self.now.rows + handle_slots class self.now.handles
            + closing_slots class self.now.closing }
    {
        self.numbers.of_class(class) + self.handles.of_class(class) + slots_of(&self.closing, class)
    }
}

/// The rows of numbers, as their events find, change and end them.
impl RowStore {
    /// The row of this serial, if it has a pin.
    pub fn pinned(&self, serial: u64) -> Option<Row>
        ensures { MatchOption result (NoneOf (IsPinned number_rows.keyed serial) self.now.rows) (λ row.
            IsPinned number_rows.keyed serial row × IsAmong row self.now.rows) }
    {
        self.numbers.pinned(serial)
    }

    /// The live row of the least number.
    pub fn least(&self) -> Option<Row>
        ensures least { MatchOption result (NoneOf (λ row. row.live ≡ true) self.now.rows) (λ row.
            IsLeast number_rows.keyed self.now.rows row) }
        ensures few { length self.now.rows + length self.now.closing ≤ usize.MAX }
    {
        self.numbers.next(None)
    }

    /// Puts the row as it is now in its place.
    pub fn replace(&mut self, was: &Row, now: Row)
        requires among { IsAmong was.now self.old.rows }
        requires same { IsSame number_rows.keyed was.now now }
        requires object { now.ids ≡ was.now.ids }
        ensures rows { Replaces was.now now self.old.rows self.new.rows }
        ensures handles { self.new.handles ≡ self.old.handles }
        ensures closing { self.new.closing ≡ self.old.closing }
    {
        self.numbers.replace(was, now);
    }

    /// Lets a live row die that stays for its pins.
    pub fn bury(&mut self, row: &Row)
        requires among { IsAmong row.now self.old.rows }
        requires live { row.now.live ≡ true }
        ensures rows { Replaces row.now (number_rows.keyed.dead row.now) self.old.rows self.new.rows }
        ensures handles { self.new.handles ≡ self.old.handles }
        ensures closing { self.new.closing ≡ self.old.closing }
    {
        self.numbers.bury(row);
        leave_object(&mut self.objects, true, row.ids);
    }

    /// Takes the row out, and puts its descriptor on the closing list.
    pub fn end(&mut self, row: &Row)
        requires { IsAmong row.now self.old.rows }
        ensures rows { Takes row.now self.old.rows self.new.rows }
        ensures handles { self.new.handles ≡ self.old.handles }
        ensures closing { self.new.closing ≡ self.old.closing ++ closing_of row.now ∷ [] }
    {
        self.numbers.remove(row);
        leave_object(&mut self.objects, row.live, row.ids);
        self.closing.push_back_reserved(row.closing());
    }
}

/// The same of the rows of handles.
impl RowStore {
    pub fn pinned_handle(&self, serial: u64) -> Option<HandleRow>
        ensures { MatchOption result (NoneOf (IsPinned handle_rows.keyed serial) self.now.handles) (λ row.
            IsPinned handle_rows.keyed serial row × IsAmong row self.now.handles) }
    {
        self.handles.pinned(serial)
    }

    pub fn least_handle(&self) -> Option<HandleRow>
        ensures least { MatchOption result (NoneOf (λ row. row.live ≡ true) self.now.handles) (λ row.
            IsLeast handle_rows.keyed self.now.handles row) }
        ensures few { length self.now.handles + length self.now.closing ≤ usize.MAX }
    {
        self.handles.next(None)
    }

    pub fn replace_handle(&mut self, was: &HandleRow, now: HandleRow)
        requires among { IsAmong was.now self.old.handles }
        requires same { IsSame handle_rows.keyed was.now now }
        ensures handles { Replaces was.now now self.old.handles self.new.handles }
        ensures rows { self.new.rows ≡ self.old.rows }
        ensures closing { self.new.closing ≡ self.old.closing }
    {
        self.handles.replace(was, now);
    }

    pub fn bury_handle(&mut self, row: &HandleRow)
        requires among { IsAmong row.now self.old.handles }
        requires live { row.now.live ≡ true }
        ensures handles { Replaces row.now (handle_rows.keyed.dead row.now) self.old.handles self.new.handles }
        ensures rows { self.new.rows ≡ self.old.rows }
        ensures closing { self.new.closing ≡ self.old.closing }
    {
        self.handles.bury(row);
    }

    pub fn end_handle(&mut self, row: &HandleRow)
        requires { IsAmong row.now self.old.handles }
        ensures handles { Takes row.now self.old.handles self.new.handles }
        ensures rows { self.new.rows ≡ self.old.rows }
        ensures closing { self.new.closing ≡ self.old.closing ++ closing_of_handle row.now ∷ [] }
    {
        self.handles.remove(row);
        self.closing.push_back_reserved(row.closing());
    }
}
