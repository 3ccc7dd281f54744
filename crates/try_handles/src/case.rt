//! What a case has made so far.

use crate::maps::Maps;
use handle_calls::Made;
use handle_values::Trouble;
use pt_host::{Bytes, Caps, HostSeat};
use pt_script::{Identity, PlannedFault};
use pt_tree::{SpecError, TreeHost, TreeLine, TreeSpec};
use std::alloc::{AllocError, Global};
use std::mem;

/// What calls are made with.
#[derive(Drop)]
pub struct Called {
    pub made: Made,
    pub maps: Maps,
}

/// A case: the lines of its tree and who makes its calls, and then what is made of them.
#[derive(Drop)]
pub struct Case {
    pub alloc: Global,
    who: Option<Identity>,
    lines: Vec<TreeLine>,
    /// The number of the first line of the tree.
    first_line: u64,
    called: Option<Called>,
    /// The call on which the last fault falls that was planned.
    last_fault: Option<u64>,
    /// Faults may no longer be planned.
    has_calls: bool,
}

fn root_mount(alloc: Global) -> Result<TreeLine, AllocError> {
    let path = Bytes::from_slice(alloc, b"/")?;
    Ok(TreeLine::Mount {
        id: 1,
        dev: 1,
        path,
        handles: true,
    })
}

impl Case {
    pub fn new(alloc: Global) -> Self {
        Case {
            alloc,
            who: None,
            lines: Vec::new(alloc),
            first_line: 0,
            called: None,
            last_fault: None,
            has_calls: false,
        }
    }

    /// Who makes the calls, which is bad to tell behind anything else.
    pub fn set_seat(&mut self, who: Identity) -> Result<(), Trouble> {
        if self.called.is_some() || self.who.is_some() || !self.lines.is_empty() {
            return Err(Trouble::Bad);
        }
        self.who = Some(who);
        Ok(())
    }

    /// Puts the line of this number behind those of the tree, which is bad where that was made.
    pub fn take_tree_line(&mut self, line: TreeLine, number: u64) -> Result<(), Trouble> {
        if self.called.is_some() {
            return Err(Trouble::Bad);
        }
        if self.lines.is_empty() {
            self.first_line = number;
        }
        self.lines.push(line)?;
        Ok(())
    }

    /// The tree of the lines; of none, a root alone.
    fn tree(&mut self) -> Result<TreeHost, Trouble> {
        if self.lines.is_empty() {
            let line = root_mount(self.alloc)?;
            self.lines.push(line)?;
        }
        // no memory holds so many lines
        if self.lines.len() >= 1 << 32 {
            return Err(Trouble::Memory);
        }
        let lines = mem::replace(&mut self.lines, Vec::new(self.alloc));
        match TreeHost::from_spec(self.alloc, &TreeSpec::from_vec(lines)) {
            Ok(host) => Ok(host),
            Err(SpecError::NotATree(line)) => {
                let behind = u64::from(line.saturating_sub(1));
                Err(Trouble::At(self.first_line.saturating_add(behind)))
            }
            Err(SpecError::Memory) => Err(Trouble::Memory),
        }
    }

    fn seat(&self) -> HostSeat {
        match self.who {
            Some(who) => HostSeat::new(who.uid, who.gid, who.caps),
            None => HostSeat::new(0, 0, Caps::ALL),
        }
    }

    /// What calls are made with, which is made of the lines where that was not done.
    fn called(&mut self) -> Result<&mut Called, Trouble> {
        if self.called.is_none() {
            let host = self.tree()?;
            let made = Made::new(host, self.seat());
            let maps = Maps::new(self.alloc);
            self.called = Some(Called { made, maps });
        }
        match &mut self.called {
            Some(called) => Ok(called),
            None => Err(Trouble::Bad),
        }
    }

    /// The same, for a call, behind which no fault is planned.
    pub fn calls(&mut self) -> Result<&mut Called, Trouble> {
        self.has_calls = true;
        self.called()
    }

    /// Plans a fault, which is bad behind a call or a fault of the same or a later call.
    pub fn plan(&mut self, fault: PlannedFault) -> Result<(), Trouble> {
        let is_late = match self.last_fault {
            Some(last) => fault.call <= last,
            None => false,
        };
        if self.has_calls || is_late {
            return Err(Trouble::Bad);
        }
        self.last_fault = Some(fault.call);
        match self.called()?.made.host.plan_fault(fault.call, fault.errno) {
            Ok(()) => Ok(()),
            Err(_) => Err(Trouble::Memory),
        }
    }
}
