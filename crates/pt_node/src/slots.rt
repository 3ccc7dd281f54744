ghost use Rattle.std.specs.Prelude.{◌≡◌, ◌<◌, ◌-◌, IfOk, OnErr, is_some, length, position, true};
ghost use Rattle.pt_node.specs.FreeNumbers.{taken};
ghost use Rattle.pt_node.specs.Slots.{
  open_at,
  least_free,
  placed_at,
  put_at,
  taken_back,
  closed,
  no_files,
  no_numbers,
};
ghost use Rattle.pt_node.specs.declared.slots.Slot.TheVariants.{Open};

use pt_host::{Fd, OpenFlags};
use std::alloc::{AllocError, Global};
use std::cmp::Reverse;
use std::collections::BinaryHeap;
use std::marker::Model;

/// What a descriptor is open on, and how.
#[derive(Clone, Copy)]
pub struct OpenFile {
    /// The object's place.
    pub object: usize,
    pub flags: OpenFlags,
    /// Where it goes on.
    pub position: u64,
}

/// What stands at a descriptor's number.
#[derive(Clone, Copy)]
pub enum Slot {
    /// A descriptor of the process that is no file of the tree.
    Reserved,
    Free,
    Open(OpenFile),
}

/// A table of numbers, each of which is free or open on an object: of descriptors, or of inode numbers.
#[derive(Drop)]
pub struct Descriptors {
    slots: Vec<Slot>,
    /// The free numbers, the least on top, with room for those that are open: so a close takes no memory.
    free: BinaryHeap<Reverse<usize>>,
}

impl Model for Descriptors {
    ghost use Rattle.std.specs.Prelude.{List};
    ghost use Rattle.std.specs.BinaryHeap.{heap_items, heap_capacity};
    ghost use Rattle.pt_node.specs.FreeNumbers.{IsTable};
    ghost use Rattle.pt_node.specs.declared.slots.Slot.{Slot};

    ghost Value = { List Slot };

    ghost view = { λ descriptors. descriptors.slots.items };

    ghost invariant = { λ descriptors.
        IsTable descriptors.slots.items (heap_items descriptors.free) (heap_capacity descriptors.free) };
}

impl Descriptors {
    /// With no file open.
    pub fn new(alloc: Global) -> Result<Descriptors, AllocError>
        ensures { IfOk result (λ descriptors. descriptors ≡ no_files) }
    {
        let slots = vec![in alloc; Slot::Reserved, Slot::Reserved, Slot::Reserved]?;
        Ok(Descriptors {
            slots,
            free: BinaryHeap::new(alloc),
        })
    }

    /// A table whose numbers are taken from 1 on.
    pub fn from_one(alloc: Global) -> Result<Descriptors, AllocError>
        ensures { IfOk result (λ table. table ≡ no_numbers) }
    {
        let slots = vec![in alloc; Slot::Reserved]?;
        Ok(Descriptors {
            slots,
            free: BinaryHeap::new(alloc),
        })
    }

    pub fn get(&self, fd: Fd) -> Option<OpenFile>
        ensures { result ≡ open_at self.now fd.0 }
    {
        file_at(&self.slots, fd.0 as usize)
    }

    /// Opens the least number that is free.
    pub fn open(&mut self, file: OpenFile) -> Result<Fd, AllocError>
        ensures fd { IfOk result (λ fd. fd.0 ≡ least_free self.old) }
        ensures ok { IfOk result (λ fd. self.new ≡ put_at fd.0 (Open file) self.old) }
        ensures err { OnErr result (self.new ≡ self.old) }
    {
        match self.free.pop() {
            Some(least) => {
                let place = least.0;
                self.slots[place] = Slot::Open(file);
                Ok(Fd(place as u32))
            }
            None => {
                let place = self.slots.len();
                let Ok(fd) = u32::try_from(place) else {
                    return Err(AllocError);
                };
                self.free.reserve(place + 1)?;
                self.slots.push(Slot::Open(file))?;
                Ok(Fd(fd))
            }
        }
    }

    /// How many numbers there are.
    pub fn len(&self) -> usize
        ensures { result ≡ length self.now }
    {
        self.slots.len()
    }

    /// How many numbers are not free.
    pub fn taken(&self) -> usize
        ensures { result ≡ taken self.now }
    {
        self.slots.len() - self.free.len()
    }

    /// Takes back the opening of this descriptor, before which there were so many numbers.
    pub fn take_back(&mut self, fd: Fd, before: usize)
        requires { before < length self.old → is_some (open_at self.old (length self.old - 1)) ≡ true }
        ensures { self.new ≡ taken_back fd.0 before self.old }
    {
        if self.slots.len() > before {
            let _ = self.slots.pop();
        } else {
            self.close(fd.0 as usize);
        }
    }

    /// The descriptor goes on at another place, where it is open.
    pub fn go_to(&mut self, fd: Fd, position: u64)
        ensures { self.new ≡ placed_at fd.0 position self.old }
    {
        let number = fd.0 as usize;
        if let Some(file) = file_at(&self.slots, number) {
            let placed = OpenFile { position, ..file };
            self.slots[number] = Slot::Open(placed);
        }
    }

    /// The number is free again, where it was open.
    pub fn close(&mut self, number: usize)
        ensures { self.new ≡ closed number self.old }
    {
        if file_at(&self.slots, number).is_some() {
            self.slots[number] = Slot::Free;
            let _ = self.free.push(Reverse(number));
        }
    }
}

fn file_at(slots: &[Slot], number: usize) -> Option<OpenFile>
    ensures { result ≡ open_at slots.now number }
{
    match slots.get(number) {
        Some(Slot::Open(file)) => Some(*file),
        _ => None,
    }
}
