ghost use Rattle.std.specs.Prelude.{◌≡◌, ◌↔◌, Some, OnOk, IfErr};
ghost use Rattle.pt_host.specs.Call.{call_of};
ghost use Rattle.pt_host.specs.Tree.{IsWellFormed};
ghost use Rattle.pt_host.specs.declared.ids.Errno.{Errno};
ghost use Rattle.pt_host.specs.declared.op.KeptHostOp.TheVariants as call;
ghost use Rattle.pt_host.specs.declared.seat.HostSeat.{HostSeat};
ghost use Rattle.pt_host.specs.declared.reply.HostReply.TheVariants.{Fault};
ghost use Rattle.pt_rules.specs.Beside.{KeepsAll, LeavesBeside};
ghost use Rattle.pt_rules.specs.State.{contents_of, tree_of};
ghost use Rattle.pt_rules.specs.Does.{Does};
ghost use Rattle.pt_rules.specs.Faults.{failure_of, faults_with, planned};
ghost use Rattle.pt_rules.specs.Unchanged.{IsNotOk, tree_left};
ghost use Rattle.pt_rules.specs.Laws.Lawful.{does_lawful};
ghost use Rattle.pt_rules.specs.Laws.Promised.{does_promised};
ghost use Rattle.pt_tree.specs.declared.spec.SpecError.TheVariants.{Memory};

use crate::spec::SpecError;
use pt_host::{Edit, Errno, Host, HostOp, HostReply, HostSeat};
use pt_store::store::Store;
use std::marker::Model;

/// A host that holds a directory tree in memory.
#[derive(Drop)]
pub struct TreeHost {
    pub(crate) store: Store,
}

impl Model for TreeHost {
    ghost use Rattle.pt_rules.specs.State.{State};
    ghost use Rattle.pt_store.specs.StoreState.{IsKeptBy, state_of};

    ghost Value = { State };

    ghost view = { λ host. state_of host.store };

    ghost invariant = { λ host. IsKeptBy host.store };
}

impl TreeHost {
    /// The call `Edit`, for which no seat matters.
    pub fn edit(&mut self, edit: &Edit) -> HostReply
        ensures does { (seat : HostSeat) → Does self.old seat (call.Edit edit.now) result self.new seat }
        ensures fails { (errno : Errno) →
            (result ≡ Fault errno) ↔ (failure_of self.old (call.Edit edit.now) ≡ Some errno) }
        ensures faults { self.new.faults ≡ faults_with result self.old.faults }
        ensures tree { IsNotOk result → tree_of self.new ≡ tree_of self.old }
        ensures contents { IsNotOk result →
            KeepsAll (tree_of self.old) (contents_of self.old) (tree_of self.new) (contents_of self.new) }
        ensures well_formed { IsWellFormed (tree_of self.new) }
    {
        self.store.make_edit(edit)
    }

    /// The call of this number, from 1 since the host was made, is to fail with this error; a later plan for the same
    /// call replaces this one, and one for a call that was answered is dropped.
    pub fn plan_fault(&mut self, call: u64, errno: Errno) -> Result<(), SpecError>
        ensures ok { OnOk result (self.new ≡ planned self.old call errno) }
        ensures err { IfErr result (λ error. (error ≡ Memory) × (self.new ≡ self.old)) }
    {
        match self.store.plan(call, errno) {
            Ok(()) => Ok(()),
            Err(_) => Err(SpecError::Memory),
        }
    }
}

impl Host for TreeHost {
    ghost tree = { λ host. Some (tree_of host) };

    ghost contents = { λ host. contents_of host };

    ghost faults = { λ host. host.faults };

    ghost does = { Does };

    fn call(&mut self, seat: &mut HostSeat, op: &HostOp<'_>) -> HostReply
        ensures does { Does self.old seat.old (call_of op.now) result self.new seat.new }
        ensures fails { (errno : Errno) → (result ≡ Fault errno) ↔ (failure_of self.old (call_of op.now) ≡ Some errno) }
        ensures faults { self.new.faults ≡ faults_with result self.old.faults }
        ensures tree { IsNotOk result → tree_of self.new ≡ tree_left (tree_of self.old) (call_of op.now) }
        ensures contents { IsNotOk result →
            KeepsAll (tree_of self.old) (contents_of self.old) (tree_of self.new) (contents_of self.new) }
        ensures beside { LeavesBeside (tree_of self.old) (contents_of self.old) (call_of op.now) result
            (tree_of self.new) (contents_of self.new) }
        ensures seat { IsNotOk result → seat.new ≡ seat.old }
        ensures well_formed { IsWellFormed (tree_of self.new) }
    {
        self.store.call(seat, op)
    }

    ghost promised = { does_promised };

    ghost lawful = { does_lawful };
}
