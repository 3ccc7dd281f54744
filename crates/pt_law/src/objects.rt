//! What jobs find, whatever other jobs do in between: what their names lead to, what their numbers were given for, and
//! what their handles are open on.

ghost use Rattle.std.specs.Prelude.{◌≡◌, ◌⊎◌, ◌<◌, ℕ, List, ◌++◌, Some};
ghost use Rattle.pt_law.specs.Discipline.{AreDisciplined};
ghost use Rattle.pt_law.specs.Findings.{IsGiven, IsHandled, IsOpening};
ghost use Rattle.pt_law.specs.Laws.{Starts};
ghost use Rattle.pt_law.specs.Story.{Giving, Handling, Opening};
ghost use Rattle.pt_law.specs.World.{World, Turn, Runs};

/// Every name that a job opened it opened in the very directory for which the number stood that it had resolved last.
/// A number that it was given stood for the object to which the name led that it had opened last. And a handle that it
/// inserted is open on what its number stood for when it was resolved last, or given: on the object for which it was
/// given, unless it is the root's.
pub fn every_finding()
    ensures opened { (limits : List ℕ) (bound : ℕ) (turns more : List Turn) (start now : World) (job : ℕ)
        (opening : Opening) →
        Starts limits start → AreDisciplined bound (turns ++ more) → Runs start turns now → job < bound →
        ((now.story.found job).latest ≡ Some opening) ⊎ ((now.story.found job).making ≡ Some opening) →
        IsOpening opening }
    ensures given { (limits : List ℕ) (bound : ℕ) (turns more : List Turn) (start now : World) (job : ℕ)
        (giving : Giving) →
        Starts limits start → AreDisciplined bound (turns ++ more) → Runs start turns now → job < bound →
        (now.story.found job).given ≡ Some giving → IsGiven now giving }
    ensures handled { (limits : List ℕ) (bound : ℕ) (turns more : List Turn) (start now : World) (job : ℕ)
        (handling : Handling) →
        Starts limits start → AreDisciplined bound (turns ++ more) → Runs start turns now → job < bound →
        (now.story.found job).handled ≡ Some handling → IsHandled now handling }
{}
