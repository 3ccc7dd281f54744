use crate::trouble::Trouble;
use pt_host::{Caps, HostSeat};
use std::alloc::{AllocError, Global};

#[derive(Drop)]
struct NamedSeat {
    name: Vec<u8>,
    seat: HostSeat,
}

/// The seats of a case by their names. The last one makes the calls.
#[derive(Drop)]
pub struct Seats {
    alloc: Global,
    named: Vec<NamedSeat>,
}

impl Seats {
    /// The superuser alone, as `root`.
    pub fn new(alloc: Global) -> Result<Self, AllocError> {
        let mut seats = Seats {
            alloc,
            named: Vec::new(alloc),
        };
        seats.begin(b"root", HostSeat::new(0, 0, Caps::ALL))?;
        Ok(seats)
    }

    /// A new seat of this name makes the calls, in place of an earlier one of that name.
    pub fn begin(&mut self, name: &[u8], seat: HostSeat) -> Result<(), AllocError> {
        self.named.retain(|named| named.name.as_slice() != name);
        let name = name.to_vec(self.alloc)?;
        self.named.push(NamedSeat { name, seat })?;
        Ok(())
    }

    /// The seat of this name makes the calls, which is bad where there is none.
    pub fn resume(&mut self, name: &[u8]) -> Result<(), Trouble> {
        match self
            .named
            .iter()
            .position(|named| named.name.as_slice() == name)
        {
            Some(place) => {
                let named = self.named.remove(place);
                self.named.push(named)?;
                Ok(())
            }
            None => Err(Trouble::Bad),
        }
    }

    /// The seat that makes the calls.
    pub fn current(&mut self) -> Result<&mut HostSeat, Trouble> {
        match self.named.last_mut() {
            Some(named) => Ok(&mut named.seat),
            None => Err(Trouble::Bad),
        }
    }
}
