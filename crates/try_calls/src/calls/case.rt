use crate::calls::seats::Seats;
use crate::trouble::Trouble;
use pt_host::{Bytes, Edit, Host, HostReply, KeptHostOp};
use pt_script::PlannedFault;
use pt_tree::{SpecError, TreeHost, TreeLine, TreeSpec};
use std::alloc::{AllocError, Global};
use std::mem;

/// The tree of a case.
#[derive(Drop)]
enum Tree {
    /// Its lines, which are still to be read.
    Lines(Vec<TreeLine>),
    Made(TreeHost),
    /// There is none, as its lines were no tree.
    Refused,
}

/// What a case has made so far.
#[derive(Drop)]
pub struct Case {
    alloc: Global,
    tree: Tree,
    pub seats: Seats,
}

impl Case {
    /// A case whose tree has no line yet.
    pub fn new(alloc: Global) -> Result<Self, AllocError> {
        let seats = Seats::new(alloc)?;
        let tree = Tree::Lines(Vec::new(alloc));
        Ok(Case { alloc, tree, seats })
    }

    /// No case, so that no line may stand.
    pub fn none(alloc: Global) -> Result<Self, AllocError> {
        let seats = Seats::new(alloc)?;
        let tree = Tree::Refused;
        Ok(Case { alloc, tree, seats })
    }

    /// Puts a line behind those of the tree, which is bad where that was made.
    pub fn take_tree_line(&mut self, line: TreeLine) -> Result<(), Trouble> {
        match &mut self.tree {
            Tree::Lines(lines) => {
                lines.push(line)?;
                Ok(())
            }
            _ => Err(Trouble::Bad),
        }
    }

    /// Makes the tree where that was not done, and answers the place of the line that is none of a tree.
    pub fn make_tree(&mut self) -> Result<Option<u32>, AllocError> {
        let lines = match mem::replace(&mut self.tree, Tree::Refused) {
            Tree::Lines(lines) => lines,
            other => {
                self.tree = other;
                return Ok(None);
            }
        };
        // no memory holds so many lines
        if lines.len() >= 1 << 32 {
            return Err(AllocError);
        }
        match TreeHost::from_spec(self.alloc, &TreeSpec::from_vec(lines)) {
            Ok(host) => {
                self.tree = Tree::Made(host);
                Ok(None)
            }
            Err(SpecError::NotATree(place)) => Ok(Some(place)),
            Err(SpecError::Memory) => Err(AllocError),
        }
    }

    // The host, which is bad to ask for where there is no tree; so are the calls below.
    fn host(&mut self) -> Result<&mut TreeHost, Trouble> {
        match &mut self.tree {
            Tree::Made(host) => Ok(host),
            _ => Err(Trouble::Bad),
        }
    }

    /// What the call of the current seat is answered.
    pub fn call(&mut self, call: &KeptHostOp) -> Result<HostReply, Trouble> {
        let Tree::Made(host) = &mut self.tree else {
            return Err(Trouble::Bad);
        };
        let seat = self.seats.current()?;
        Ok(host.call(seat, &call.lend()))
    }

    /// What the edit is answered.
    pub fn edit(&mut self, edit: &Edit) -> Result<HostReply, Trouble> {
        Ok(self.host()?.edit(edit))
    }

    pub fn plan(&mut self, fault: PlannedFault) -> Result<(), Trouble> {
        match self.host()?.plan_fault(fault.call, fault.errno) {
            Ok(()) => Ok(()),
            Err(_) => Err(Trouble::Memory),
        }
    }

    /// The listing of the tree.
    pub fn listing(&mut self) -> Result<Bytes, Trouble> {
        let alloc = self.alloc;
        match self.host()?.listing(alloc) {
            Ok(listing) => Ok(listing),
            Err(_) => Err(Trouble::Memory),
        }
    }
}
