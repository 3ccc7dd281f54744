//! The rows of one keyed, found by serial and by key.
ghost use Rattle.std.specs.Prelude.{◌≡◌, ◌<◌, ◌∷◌, [], true, None, Some, MatchOption, OnOk, OnErr, IsSome};
ghost use Rattle.std.specs.Prelude.{◌≤◌, length};
ghost use Rattle.std.specs.Ordering.{nat_cmp};
ghost use Rattle.std.specs.Map.{set_value, values_of};
ghost use Rattle.std.specs.BTreeMap.{is_at};
ghost use Rattle.pt_host.specs.Words.{Each, Takes, Replaces};
ghost use Rattle.pt_rows.specs.Rows.{IsAmong, NoneOf, HasKey, IsPinned, of_class};
ghost use Rattle.pt_rows.specs.Same.{IsSame, IsNextRow};
ghost use Rattle.pt_rows.specs.Index.{row_at, by_key, Puts, SameAt, Leaves, IsNextIn};

use crate::pinned::Pinned;
use std::alloc::{AllocError, Global};
use std::collections::BTreeMap;
use std::marker::Model;
use std::ops::Bound;

/// The serial of each live row, by its key.
type Keys = BTreeMap<u64, u64>;

/// Rows of one kind.
#[derive(Drop)]
pub struct Rows<R: Pinned> {
    /// By serial, so the oldest row comes first.
    rows: BTreeMap<u64, R>,
    keys: Keys,
}

impl<R: Pinned> Model for Rows<R> {
    ghost use Rattle.std.specs.Prelude.{List, reverse};
    ghost use Rattle.std.specs.Map.{values_of};
    ghost use Rattle.pt_rows.specs.Index.{by_key, IsSoundRows};

    ghost Value = { List R };

    ghost view = { λ store. reverse (values_of store.rows.entries) };

    ghost invariant = { λ store. IsSoundRows R.keyed store.rows.entries (by_key store.keys) };
}

fn row_of<R: Pinned>(rows: &BTreeMap<u64, R>, serial: u64) -> Option<R>
    ensures { result ≡ row_at rows.now.entries serial }
{
    match rows.get(&serial) {
        None => None,
        Some(row) => Some(row.copy()),
    }
}

/// How many of the rows are of this class.
fn class_count<R: Pinned>(rows: &BTreeMap<u64, R>, class: u32) -> usize
    ensures { result ≡ of_class R.keyed class (values_of rows.now.entries) }
{
    rows.values().filter(|row| row.class() == class).count()
}

/// Puts a row in the place of the one that its serial has.
fn put<R: Pinned>(rows: &mut BTreeMap<u64, R>, serial: u64, now: R)
    requires { IsSome (row_at rows.old.entries serial) }
    ensures entries { rows.new.entries ≡ set_value (is_at (nat_cmp serial)) rows.old.entries now }
    ensures puts { Puts serial (Some now) (row_at rows.old.entries) (row_at rows.new.entries) }
{
    if let Some(row) = rows.get_mut(&serial) {
        *row = now;
    }
}

/// Enters a row into the index, or leaves that as it is.
fn enter(keys: &mut Keys, key: u64, serial: u64) -> Result<(), AllocError>
    ensures ok { OnOk result (Puts key (Some serial) (by_key keys.old) (by_key keys.new)) }
    ensures err { OnErr result (SameAt (by_key keys.old) (by_key keys.new)) }
{
    if keys.insert(key, serial).is_err() {
        return Err(AllocError);
    }
    Ok(())
}

/// Takes a row out of the index, where it is live.
fn leave(keys: &mut Keys, live: bool, key: u64)
    ensures { Leaves live key (by_key keys.old) (by_key keys.new) }
{
    if live {
        let _ = keys.remove(&key);
    }
}

/// The least key above the given one, or the least of all, with its row's serial.
fn next_key(keys: &Keys, above: Option<u64>) -> Option<(u64, u64)>
    ensures { IsNextIn (by_key keys.now) above result }
{
    let next = match above {
        None => keys.first_key_value(),
        Some(below) => {
            let range = (Bound::Excluded(below), Bound::Unbounded);
            keys.range(range).next()
        }
    };
    match next {
        None => None,
        Some((key, serial)) => Some((*key, *serial)),
    }
}

impl<R: Pinned> Rows<R> {
    pub fn new(alloc: Global) -> Rows<R>
        ensures { result ≡ [] }
    {
        Rows {
            rows: BTreeMap::new(alloc),
            keys: BTreeMap::new(alloc),
        }
    }

    pub fn len(&self) -> usize
        ensures { result ≡ length self.now }
    {
        self.rows.len()
    }

    /// How many rows are of this class.
    pub fn of_class(&self, class: u32) -> usize
        ensures same { result ≡ of_class R.keyed class self.now }
        ensures bound { result ≤ length self.now }
    {
        class_count(&self.rows, class)
    }

    /// The row of this serial.
    pub fn at(&self, serial: u64) -> Option<R>
        ensures found { MatchOption result (NoneOf (λ row. R.keyed.serial row ≡ serial) self.now) (λ row.
            R.keyed.serial row ≡ serial × IsAmong row self.now) }
        ensures alone { MatchOption result (Unit {0}) (λ row.
            Each (λ other. R.keyed.serial other ≡ serial → other ≡ row) self.now) }
    {
        row_of(&self.rows, serial)
    }

    /// The live row of this key.
    pub fn live(&self, key: u64) -> Option<R>
        ensures found { MatchOption result (NoneOf (HasKey R.keyed key) self.now) (λ row. HasKey R.keyed key row
            × IsAmong row self.now) }
        ensures alone { MatchOption result (Unit {0}) (λ row.
            Each (λ other. HasKey R.keyed key other → other ≡ row) self.now) }
    {
        match self.keys.get(&key) {
            None => None,
            Some(serial) => row_of(&self.rows, *serial),
        }
    }

    /// The row of this serial, if it has a pin.
    pub fn pinned(&self, serial: u64) -> Option<R>
        ensures { MatchOption result (NoneOf (IsPinned R.keyed serial) self.now) (λ row. IsPinned R.keyed serial row
            × IsAmong row self.now) }
    {
        match row_of(&self.rows, serial) {
            None => None,
            Some(row) => {
                if row.pins() == 0 {
                    return None;
                }
                Some(row)
            }
        }
    }

    /// The live row of the least key above the given one, or of the least of all.
    pub fn next(&self, above: Option<u64>) -> Option<R>
        ensures { IsNextRow R.keyed self.now above result }
    {
        match next_key(&self.keys, above) {
            None => None,
            Some((_, serial)) => row_of(&self.rows, serial),
        }
    }

    /// Puts the row as it is now in its place.
    pub fn replace(&mut self, was: &R, now: R)
        requires among { IsAmong was.now self.old }
        requires same { IsSame R.keyed was.now now }
        ensures { Replaces was.now now self.old self.new }
    {
        put(&mut self.rows, was.serial(), now);
    }

    /// Lets a live row die that stays for its pins.
    pub fn bury(&mut self, row: &R)
        requires among { IsAmong row.now self.old }
        requires live { R.keyed.live row.now ≡ true }
        ensures rows { Replaces row.now (R.keyed.dead row.now) self.old self.new }
        ensures gone { NoneOf (λ other. R.keyed.serial other ≡ R.keyed.serial row.now
            × R.keyed.live other ≡ true) self.new }
    {
        put(&mut self.rows, row.serial(), row.dead());
        leave(&mut self.keys, row.is_live(), row.key());
    }

    /// Takes the row out.
    pub fn remove(&mut self, row: &R)
        requires { IsAmong row.now self.old }
        ensures rows { Takes row.now self.old self.new }
        ensures gone { NoneOf (λ other. R.keyed.serial other ≡ R.keyed.serial row.now) self.new }
    {
        let _ = self.rows.remove(&row.serial());
        leave(&mut self.keys, row.is_live(), row.key());
    }

    /// Adds a row that is newer than all others.
    pub fn insert(&mut self, row: R) -> Result<(), AllocError>
        requires live { R.keyed.live row ≡ true }
        requires newest { Each (λ other. R.keyed.serial other < R.keyed.serial row) self.old }
        requires free { NoneOf (HasKey R.keyed (R.keyed.key row)) self.old }
        ensures ok { OnOk result (self.new ≡ row ∷ self.old) }
        ensures err { OnErr result (self.new ≡ self.old) }
    {
        let serial = row.serial();
        let key = row.key();
        enter(&mut self.keys, key, serial)?;
        match self.rows.insert(serial, row) {
            Ok(_) => Ok(()),
            Err(_) => {
                leave(&mut self.keys, true, key);
                Err(AllocError)
            }
        }
    }
}
