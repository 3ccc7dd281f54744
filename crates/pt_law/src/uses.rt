//! What a guest may rely on, whatever other requests do in between.

ghost use Rattle.std.specs.Prelude.{◌≡◌, ◌≢◌, ◌⊎◌, ◌<◌, ◌≤◌, ℕ, List, [], ◌∷◌, ◌++◌};
ghost use Rattle.pt_host.specs.Words.{Each};
ghost use Rattle.pt_tables.specs.Tables.{Tables, Agree, HasNumber, empty_tables};
ghost use Rattle.pt_tables.specs.Rows.{NoRow};
ghost use Rattle.pt_tables.specs.Happens.{Happens};
ghost use Rattle.pt_tables.specs.declared.event.KeptEvent.TheVariants as change;
ghost use Rattle.pt_tables.specs.declared.reply.EventReply.{EventReply};
ghost use Rattle.pt_tables.specs.declared.reply.EventReply.TheVariants as event;
ghost use Rattle.pt_tables.specs.declared.reply.EventRefusal.TheVariants.{NotLive};
ghost use Rattle.pt_law.specs.World.{World, Turn, Runs, TablesRun};
ghost use Rattle.pt_law.specs.Ledger.{inserted};
ghost use Rattle.pt_law.specs.Laws.{Starts, IsLive, ObjectOf};
ghost use Rattle.pt_law.specs.Discipline.{AreDisciplined};
ghost use Rattle.pt_law.specs.Findings.{WasGiven};
ghost use Rattle.pt_law.specs.Uses.{StaysLive, amount_asked};

/// While a number stays live its object stays, and every other live number that stands for that object is this one.
pub fn one_number()
    ensures stays { (turns : List Turn) (start now : World) (number object : ℕ) →
        StaysLive start turns number → Runs start turns now → ObjectOf start number object →
        ObjectOf now number object }
    ensures one { (limits : List ℕ) (bound : ℕ) (turns between more : List Turn) (start first second : World)
        (number other object : ℕ) →
        Starts limits start → AreDisciplined bound ((turns ++ between) ++ more) → Runs start turns first →
        Runs first between second →
        StaysLive first between number → ObjectOf first number object → IsLive second.tables other →
        ObjectOf second other object → other ≡ number }
{}

/// Two lookups of one object, in whatever order their steps come, give one number, where the number that was given
/// first lives until the other is given.
pub fn two_lookups()
    ensures { (limits : List ℕ) (bound : ℕ) (turns between more : List Turn) (start first second : World)
        (job number another object : ℕ) → Starts limits start → AreDisciplined bound ((turns ++ between) ++ more) →
        Runs start turns first → Runs first between second → StaysLive first between number →
        WasGiven (turns ++ between) job another → ObjectOf first number object → ObjectOf second another object →
        another ≡ number }
{}

/// A forget of at least the count removes the number, and no row of a handle; the number is not live and not inserted
/// again, unless it is the root's. To resolve it is refused.
pub fn forgotten_number()
    ensures gone { (before after : Tables) (list : List (ℕ × ℕ)) (closings number : ℕ) →
        Agree before → Happens before (change.Forget list) (event.Done closings) after →
        Each (λ row. HasNumber number row → row.count ≤ amount_asked number list) before.rows →
        NoRow after (HasNumber number) }
    ensures handles { (before after : Tables) (list : List (ℕ × ℕ)) (closings : ℕ) →
        Happens before (change.Forget list) (event.Done closings) after → after.handles ≡ before.handles }
    ensures never_again { (limits : List ℕ) (bound : ℕ) (turns later more : List Turn) (was now : Tables) (number : ℕ) →
        number ≢ 1 →
        AreDisciplined bound ((turns ++ later) ++ more) → TablesRun (empty_tables limits) turns was →
        TablesRun was later now →
        0 < inserted number turns → NoRow was (HasNumber number) →
        NoRow now (HasNumber number) × (inserted number later ≡ 0) }
    ensures refused { (before after : Tables) (number : ℕ) (told : EventReply) →
        NoRow before (HasNumber number) → Happens before (change.Resolve number) told after →
        (told ≡ event.Refused NotLive) × (after ≡ before) }
{}

/// A forget of an unknown number, or of none of it, changes nothing.
pub fn forgotten_nothing()
    ensures { (before after : Tables) (number amount : ℕ) (told : EventReply) → Agree before →
        NoRow before (HasNumber number) ⊎ (amount ≡ 0) →
        Happens before (change.Forget ((number, amount) ∷ [])) told after → (told ≡ event.Done 0) × (after ≡ before) }
{}
