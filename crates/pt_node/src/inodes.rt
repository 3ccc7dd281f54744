ghost use Rattle.std.specs.Prelude.{
  ℕ,
  ◌≡◌,
  ◌+◌,
  ◌++◌,
  ◌∷◌,
  [],
  ◌-◌,
  ◌==◌,
  ◌<◌,
  ◌^◌,
  IfOk,
  SomeIff,
  OnErr,
  OnOk,
  length,
  nat_lt,
  position,
  slice_index,
  take,
  Some,
};
ghost use Rattle.pt_host.specs.Words.{set_at};
ghost use Rattle.pt_node.specs.Slots.{least_free, put_at};
ghost use Rattle.pt_node.specs.declared.slots.Slot.TheVariants.{Open};
ghost use Rattle.pt_node.specs.FreeNumbers.{given_numbers};
ghost use Rattle.pt_node.specs.Numbers.{
  freed,
  given_up,
  given_up_where,
  having,
  lowered,
  passed,
  released,
  released_where,
  swapped,
  table_in,
  weight,
};

use crate::slots::{Descriptors, OpenFile};
use pt_host::OpenFlags;
use std::alloc::{AllocError, Global};

/// The inode numbers of a device, each open on the object that has it.
#[derive(Drop)]
pub struct NumberTable {
    pub dev: u64,
    pub numbers: Descriptors,
}

/// Which objects live, and the inode numbers that they have.
#[derive(Drop)]
pub struct Inodes {
    /// How often each object is held: the root by its mount, each by its names and its descriptors.
    pub holds: Vec<usize>,
    /// How many names each object has.
    pub names: Vec<usize>,
    /// How many directories there are in each object: so a status need not go over the names.
    pub directories: Vec<usize>,
    pub tables: Vec<NumberTable>,
}

/// The inode number of the object at this place.
fn having(object: usize) -> OpenFile
    ensures { result ≡ having object }
{
    OpenFile {
        object,
        flags: OpenFlags(0),
        position: 0,
    }
}

fn place_of(tables: &[NumberTable], dev: u64) -> Option<usize>
    ensures { result ≡ position (λ table. table.dev == dev) tables.now }
{
    tables.iter().position(|table| table.dev == dev)
}

/// The place of the device's table, which is put there where there is none.
fn table_for(alloc: Global, tables: &mut Vec<NumberTable>, dev: u64) -> Result<usize, AllocError>
    ensures place { IfOk result (λ place. position (λ table. table.dev == dev) tables.new.items ≡ Some place) }
    ensures same { (other : ℕ) → table_in tables.new.items other ≡ table_in tables.old.items other }
{
    if let Some(place) = place_of(tables, dev) {
        return Ok(place);
    }
    let numbers = Descriptors::from_one(alloc)?;
    let place = tables.len();
    tables.push(NumberTable { dev, numbers })?;
    Ok(place)
}

/// A number of the device is free.
fn free_number(tables: &mut [NumberTable], dev: u64, number: u64)
    ensures { (other : ℕ) → table_in tables.new other ≡ freed dev number (table_in tables.old) other }
{
    if let Some(place) = place_of(tables, dev) {
        tables[place].numbers.close(number as usize);
    }
}

/// The least free number of the device is open on the object.
fn give_number(
    alloc: Global,
    tables: &mut Vec<NumberTable>,
    dev: u64,
    object: usize,
) -> Result<u64, AllocError>
    ensures number { IfOk result (λ number. number ≡ least_free (table_in tables.old.items dev)) }
    ensures tables { IfOk result (λ number. (other : ℕ) →
        table_in tables.new.items other
        ≡ set_at dev (put_at number (Open (having object)) (table_in tables.old.items dev))
        (table_in tables.old.items) other) }
    ensures same { OnErr result ((other : ℕ) → table_in tables.new.items other ≡ table_in tables.old.items other) }
{
    let place = table_for(alloc, tables, dev)?;
    let number = tables[place].numbers.open(having(object))?;
    Ok(u64::from(number.0))
}

impl Inodes {
    /// With no object.
    pub fn new(alloc: Global) -> Inodes
        ensures holds { result.holds.items ≡ [] }
        ensures names { result.names.items ≡ [] }
        ensures directories { result.directories.items ≡ [] }
        ensures tables { result.tables.items ≡ [] }
    {
        Inodes {
            holds: Vec::new(alloc),
            names: Vec::new(alloc),
            directories: Vec::new(alloc),
            tables: Vec::new(alloc),
        }
    }

    /// One object more, which is held once, has so many names and no directory in it, and has the least number of the
    /// device that is free.
    pub fn add(
        &mut self,
        alloc: Global,
        dev: u64,
        object: usize,
        names: usize,
    ) -> Result<u64, AllocError>
        ensures number { IfOk result (λ number. number ≡ least_free (table_in self.old.tables.items dev)) }
        ensures holds { IfOk result (λ number. self.new.holds.items ≡ self.old.holds.items ++ 1 ∷ []) }
        ensures names { IfOk result (λ number. self.new.names.items ≡ self.old.names.items ++ names ∷ []) }
        ensures directories { IfOk result (λ number.
            self.new.directories.items ≡ self.old.directories.items ++ 0 ∷ []) }
        ensures tables { IfOk result (λ number. (other : ℕ) →
            table_in self.new.tables.items other
            ≡ set_at dev (put_at number (Open (having object)) (table_in self.old.tables.items dev))
            (table_in self.old.tables.items) other) }
        ensures same_holds { OnErr result (self.new.holds.items ≡ self.old.holds.items) }
        ensures same_names { OnErr result (self.new.names.items ≡ self.old.names.items) }
        ensures same_directories { OnErr result (self.new.directories.items ≡ self.old.directories.items) }
        ensures same_tables { OnErr result ((other : ℕ) →
            table_in self.new.tables.items other ≡ table_in self.old.tables.items other) }
    {
        self.holds.reserve(1)?;
        self.names.reserve(1)?;
        self.directories.reserve(1)?;
        let number = give_number(alloc, &mut self.tables, dev, object)?;
        let _ = self.holds.push(1);
        let _ = self.names.push(names);
        let _ = self.directories.push(0);
        Ok(number)
    }

    /// Takes the addition of the last object back.
    pub fn take_back(&mut self, dev: u64, number: u64)
        ensures holds { self.new.holds.items ≡ take (length self.old.holds.items - 1) self.old.holds.items }
        ensures names { self.new.names.items ≡ take (length self.old.names.items - 1) self.old.names.items }
        ensures directories { self.new.directories.items
            ≡ take (length self.old.directories.items - 1) self.old.directories.items }
        ensures tables { (other : ℕ) →
            table_in self.new.tables.items other ≡ freed dev number (table_in self.old.tables.items) other }
    {
        let _ = self.holds.pop();
        let _ = self.names.pop();
        let _ = self.directories.pop();
        free_number(&mut self.tables, dev, number);
    }

    /// Whether the object lives.
    pub fn is_held(&self, object: usize) -> bool
        ensures { result ≡ nat_lt 0 (slice_index self.now.holds.items object) }
    {
        match self.holds.get(object) {
            None => false,
            Some(held) => *held > 0,
        }
    }

    /// How many objects of the device live: each has a number.
    pub fn living(&self, dev: u64) -> usize
        ensures { result ≡ given_numbers (table_in self.now.tables.items dev) }
    {
        match place_of(&self.tables, dev) {
            None => 0,
            Some(place) => self.tables[place].numbers.taken().saturating_sub(1),
        }
    }

    /// How often the object is held after one hold more, where that can be counted.
    pub fn one_more(&self, object: usize) -> Option<usize>
        ensures { SomeIff result ((object < length self.now.holds.items)
            × (slice_index self.now.holds.items object + 1 < 2 ^ 64)) (slice_index self.now.holds.items object + 1) }
    {
        match self.holds.get(object) {
            None => None,
            Some(held) => held.checked_add(1),
        }
    }

    /// How many names the object has after one more, where that can be counted.
    pub fn one_name_more(&self, object: usize) -> Option<usize>
        ensures { SomeIff result ((object < length self.now.names.items)
            × (slice_index self.now.names.items object + 1 < 2 ^ 64)) (slice_index self.now.names.items object + 1) }
    {
        match self.names.get(object) {
            None => None,
            Some(names) => names.checked_add(1),
        }
    }

    /// How many directories there are in this one after the object, which is one or not, came into it, where that can
    /// be counted.
    pub fn directories_with(&self, dir: usize, is_directory: bool) -> Option<usize>
        ensures { SomeIff result ((dir < length self.now.directories.items)
            × (slice_index self.now.directories.items dir + weight is_directory < 2 ^ 64))
            (slice_index self.now.directories.items dir + weight is_directory) }
    {
        match self.directories.get(dir) {
            None => None,
            Some(directories) => directories.checked_add(usize::from(is_directory)),
        }
    }

    /// The object, which is a directory or not, is in this directory no more.
    pub fn lose_directory(&mut self, dir: usize, is_directory: bool)
        ensures directories { self.new.directories.items
            ≡ lowered dir (weight is_directory) self.old.directories.items }
        ensures holds { self.new.holds.items ≡ self.old.holds.items }
        ensures names { self.new.names.items ≡ self.old.names.items }
        ensures tables { self.new.tables.items ≡ self.old.tables.items }
    {
        if let Some(directories) = self.directories.get_mut(dir) {
            *directories = directories.saturating_sub(usize::from(is_directory));
        }
    }

    /// A directory goes from this one to the other.
    fn pass_directory(&mut self, from: usize, to: usize) -> Result<(), AllocError>
        ensures ok { OnOk result (self.new.directories.items ≡ passed from to self.old.directories.items) }
        ensures err { OnErr result (self.new.directories.items ≡ self.old.directories.items) }
        ensures holds { self.new.holds.items ≡ self.old.holds.items }
        ensures names { self.new.names.items ≡ self.old.names.items }
        ensures tables { self.new.tables.items ≡ self.old.tables.items }
    {
        let Some(directories) = self.directories_with(to, true) else {
            return Err(AllocError);
        };
        self.directories[to] = directories;
        self.lose_directory(from, true);
        Ok(())
    }

    /// An object of the one directory and one of the other, each of which is a directory or not, change places.
    pub fn swap_directories(
        &mut self,
        from: usize,
        to: usize,
        moved: bool,
        back: bool,
    ) -> Result<(), AllocError>
        ensures ok { OnOk result (self.new.directories.items
            ≡ swapped from to moved back self.old.directories.items) }
        ensures err { OnErr result (self.new.directories.items ≡ self.old.directories.items) }
        ensures holds { self.new.holds.items ≡ self.old.holds.items }
        ensures names { self.new.names.items ≡ self.old.names.items }
        ensures tables { self.new.tables.items ≡ self.old.tables.items }
    {
        match (moved, back) {
            (true, false) => self.pass_directory(from, to),
            (false, true) => self.pass_directory(to, from),
            _ => Ok(()),
        }
    }

    /// The object has one name less.
    pub fn lose_name(&mut self, object: usize)
        ensures names { self.new.names.items ≡ released object self.old.names.items }
        ensures holds { self.new.holds.items ≡ self.old.holds.items }
        ensures directories { self.new.directories.items ≡ self.old.directories.items }
        ensures tables { self.new.tables.items ≡ self.old.tables.items }
    {
        if let Some(names) = self.names.get_mut(object) {
            *names = names.saturating_sub(1);
        }
    }

    /// The same where there is such an object.
    pub fn lose_name_where(&mut self, object: Option<usize>)
        ensures names { self.new.names.items ≡ released_where object self.old.names.items }
        ensures holds { self.new.holds.items ≡ self.old.holds.items }
        ensures directories { self.new.directories.items ≡ self.old.directories.items }
        ensures tables { self.new.tables.items ≡ self.old.tables.items }
    {
        if let Some(object) = object {
            self.lose_name(object);
        }
    }

    /// One hold of the object, which has this number of the device, ends; with the last one its number is free.
    pub fn release(&mut self, object: usize, dev: u64, number: u64)
        ensures holds { self.new.holds.items ≡ released object self.old.holds.items }
        ensures names { self.new.names.items ≡ self.old.names.items }
        ensures directories { self.new.directories.items ≡ self.old.directories.items }
        ensures tables { (other : ℕ) →
            table_in self.new.tables.items other
            ≡ given_up dev number object self.old.holds.items (table_in self.old.tables.items) other }
    {
        let Some(held) = self.holds.get_mut(object) else {
            return;
        };
        let last = *held == 1;
        *held = held.saturating_sub(1);
        if last {
            free_number(&mut self.tables, dev, number);
        }
    }

    /// The same where there is such an object.
    pub fn release_where(&mut self, object: Option<usize>, dev: u64, number: u64)
        ensures holds { self.new.holds.items ≡ released_where object self.old.holds.items }
        ensures names { self.new.names.items ≡ self.old.names.items }
        ensures directories { self.new.directories.items ≡ self.old.directories.items }
        ensures tables { (other : ℕ) →
            table_in self.new.tables.items other
            ≡ given_up_where dev number object self.old.holds.items (table_in self.old.tables.items) other }
    {
        if let Some(object) = object {
            self.release(object, dev, number);
        }
    }
}
