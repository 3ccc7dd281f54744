ghost use Rattle.std.specs.Prelude.{◌≡◌, ◌≢◌, ◌+◌, ◌<◌, ◌≤◌, ℕ, List, [], ◌∷◌, length, true, false, Some, None};
ghost use Rattle.std.specs.Prelude.{IfSome, IfNone};
ghost use Rattle.pt_host.specs.declared.seat.HostSeat.{HostSeat};
ghost use Rattle.pt_frame.specs.Frame.{answered, front, behind};
ghost use Rattle.pt_host.specs.declared.ids.Errno.{Errno};
ghost use Rattle.std.specs.Prelude.{Option};
ghost use Rattle.pt_frame.specs.Past.{or_first};
ghost use Rattle.pt_frame.specs.Tree.{RequestTree};
ghost use Rattle.pt_frame.specs.Machine.Left.{Stays, Tells, end_of, given_left, is_above, is_giving_scope, is_over};
ghost use Rattle.pt_frame.specs.Machine.Left.{is_ready, mode_counts, mode_left, passes_at, tops};
ghost use Rattle.pt_frame.specs.Machine.Room.{most_holds};
ghost use Rattle.pt_frame.specs.declared.hold.Hold.{Hold};
ghost use Rattle.pt_frame.specs.declared.machine.mode.Mode.TheVariants.{Body};

use crate::finish::Finish;
use crate::hold::{Hold, Holds};
use crate::machine::giving::{is_scope, passes_with, restored};
use crate::marks::Marks;
use pt_host::Errno;
use pt_iface::Answer;

/// What the frame is at.
#[derive(Drop)]
pub enum Mode {
    /// The request asks for an act.
    Body,
    /// Its open scopes end.
    Bares,
    /// Its innermost bracket ends, and the last hold of all may pass its end.
    Shuts(bool),
    /// All is given back but the hold that passes with the answer, which is the last one.
    Out(Answer),
    Leave(Finish),
}

/// Whether a scope lies on top.
pub fn tops(holds: &Holds) -> bool
    ensures { result ≡ tops holds.now }
{
    match holds.next(false) {
        Some(hold) => is_scope(hold),
        None => false,
    }
}

/// Whether the last hold passes what is given back next.
pub fn passes_at(mode: &Mode) -> bool
    ensures { result ≡ passes_at mode.now }
{
    match mode {
        Mode::Shuts(passes) => *passes,
        Mode::Out(_) => true,
        Mode::Body | Mode::Bares | Mode::Leave(_) => false,
    }
}

/// Whether the hold that is given back next is a scope.
pub fn is_giving_scope(mode: &Mode, holds: &Holds) -> bool
    ensures { result ≡ is_giving_scope mode.now holds.now }
{
    if let Mode::Body = mode {
        return false;
    }
    match holds.next(passes_at(mode)) {
        Some(hold) => is_scope(hold),
        None => false,
    }
}

/// Whether nothing is left but the end.
pub fn is_over(mode: &Mode, holds: &Holds) -> bool
    ensures { result ≡ is_over mode.now holds.now }
{
    match mode {
        Mode::Body | Mode::Bares | Mode::Shuts(_) => false,
        Mode::Out(_) | Mode::Leave(_) => match holds.next(passes_at(mode)) {
            Some(_) => false,
            None => true,
        },
    }
}

/// How a mode ends in which nothing is left.
pub fn end_of(mode: Mode) -> Finish
    ensures { result ≡ end_of mode }
{
    match mode {
        Mode::Leave(last) => last,
        Mode::Out(answer) => Finish::Answer(answer),
        Mode::Body | Mode::Bares | Mode::Shuts(_) => Finish::Answer(Answer::NoMemory),
    }
}

/// Takes the hold that is given back next.
pub fn take_next(passes: bool, holds: &mut Holds) -> Option<Hold>
    requires { length holds.old ≤ most_holds }
    ensures some { IfSome result (λ one. behind passes holds.old ≡ one ∷ behind passes holds.new) }
    ensures none { IfNone result (behind passes holds.old ≡ []) }
    ensures same { IfNone result (holds.new ≡ holds.old) }
    ensures front { front passes holds.new ≡ front passes holds.old }
    ensures length { IfSome result (λ one. length holds.new + 1 ≡ length holds.old) }
{
    if !passes {
        return holds.pop();
    }
    match holds.pop() {
        Some(top) => {
            let one = holds.pop();
            holds.push(top);
            one
        }
        None => None,
    }
}

/// A request is answered: all is given back, but what passes with the answer.
pub fn answered(answer: Answer, holds: &Holds) -> Mode
    ensures left { (seat : HostSeat) (tree : RequestTree) (marks : List ℕ) →
        mode_left seat result tree holds.now marks ≡ answered seat answer holds.now }
    ensures ready { (marks : List ℕ) → is_ready result holds.now marks ≡ true }
    ensures tells { Tells result None }
    ensures counts { (count : ℕ) → mode_counts result count ≡ 0 }
    ensures stays { (acts told : ℕ) → Stays result acts told }
{
    match holds.next(false) {
        Some(_) if passes_with(&answer) => Mode::Out(answer),
        _ => Mode::Leave(Finish::Answer(answer)),
    }
}

/// Whether a bracket has holds above its mark.
pub fn is_above(passes: bool, holds: &Holds, marks: &Marks) -> bool
    ensures { result ≡ is_above passes holds.now marks.now }
{
    let there = holds.len();
    if passes && there > 0 {
        marks.innermost() < there - 1
    } else {
        marks.innermost() < there
    }
}

/// Goes on in another mode.
pub fn go_to(mode: &mut Mode, next: Mode)
    ensures { mode.new ≡ next }
{
    *mode = next;
}

/// What a mode becomes in which the seat was lost.
pub fn lost(mode: Mode, errno: Errno) -> Mode
    requires other { mode ≢ Body }
    ensures left { (seat : HostSeat) (tree : RequestTree) (holds : List Hold) (marks : List ℕ) →
        mode_left seat result tree holds marks ≡ given_left seat mode (Some errno) tree holds marks }
    ensures ready { (holds : List Hold) (marks : List ℕ) → is_ready result holds marks ≡ true }
    ensures tells { (lost : Option Errno) → Tells mode lost → Tells result (or_first (Some errno) lost) }
    ensures counts { (count : ℕ) → mode_counts result count ≡ 0 }
    ensures stays { (acts told : ℕ) → Stays result acts told }
{
    match mode {
        Mode::Leave(last) => Mode::Leave(restored(last, Some(errno))),
        Mode::Body | Mode::Bares | Mode::Shuts(_) | Mode::Out(_) => {
            Mode::Leave(Finish::Lost(errno))
        }
    }
}
