ghost use Rattle.std.specs.Prelude.{
  ◌≡◌,
  ◌==◌,
  ◌<◌,
  ◌+◌,
  ◌^◌,
  [],
  IfSome,
  OnOk,
  OnErr,
  drop,
  is_some,
  length,
  option_map,
  slice_get,
  true,
  unwrap_or,
  Ok,
  Some,
};
ghost use Rattle.std.specs.BTreeMap.{IsOrdered, is_at};
ghost use Rattle.std.specs.Cmp.Lexicographic.{slice_cmp};
ghost use Rattle.std.specs.Map.{lookup, set_value};
ghost use Rattle.std.specs.Ordering.{nat_cmp};
ghost use Rattle.pt_node.specs.Laws.NameOrder.{seen};
ghost use Rattle.pt_node.specs.Names.{found, named, unnamed};
ghost use Rattle.pt_node.specs.Stops.{IsStop};

use std::alloc::{AllocError, Global};
use std::collections::BTreeMap;
use std::collections::btree_map::Range;
use std::marker::Model;

/// The longest name of a file.
pub const NAME_MAX: usize = 255;

/// Where a listing stopped: at this name, which stands at this place.
#[derive(Drop)]
pub struct Stop {
    place: usize,
    name: Vec<u8>,
}

/// The names of a directory, each with the object that it leads to.
#[derive(Drop)]
pub struct Names {
    pub kept: BTreeMap<Vec<u8>, usize>,
    /// Where the last listing stopped, unless a name came or went since: so the next one need not pass over what was
    /// listed before.
    stop: Option<Stop>,
}

impl Model for Names {
    ghost use Rattle.std.specs.Prelude.{List, ℕ, map};

    ghost Value = { List (List ℕ × ℕ) };

    ghost use Rattle.pt_node.specs.Stops.{IsStop};

    ghost view = { λ names. map (λ entry. (entry.0.items, entry.1)) names.kept.entries };

    ghost invariant = { λ names. IsStop names.stop names.kept.entries };
}

/// Leads a name that is there elsewhere.
fn lead_in(kept: &mut BTreeMap<Vec<u8>, usize>, name: &[u8], object: usize)
    requires { is_some (lookup (is_at (λ key. slice_cmp nat_cmp name.now key.items)) kept.old.entries) ≡ true }
    ensures entries { kept.new.entries
        ≡ set_value (is_at (λ key. slice_cmp nat_cmp name.now key.items)) kept.old.entries object }
    ensures ordered { IsOrdered (λ one other. slice_cmp nat_cmp one.items other.items) kept.old }
{
    if let Some(led) = kept.get_mut(name) {
        *led = object;
    }
}

/// The name at this place.
fn name_at(kept: &BTreeMap<Vec<u8>, usize>, place: usize) -> Option<&Vec<u8>>
    ensures { option_map (λ name. name.now) result ≡ option_map (λ entry. entry.0) (slice_get kept.now.entries place) }
{
    let (name, _) = kept.iter().nth(place)?;
    Some(name)
}

/// The same, where a listing may have stopped at it.
fn first_from<'a>(
    kept: &'a BTreeMap<Vec<u8>, usize>,
    stop: &'a Option<Stop>,
    place: usize,
) -> Option<&'a Vec<u8>>
    requires { IsStop stop.now kept.now.entries }
    ensures { option_map (λ name. name.now.items) result
        ≡ option_map (λ entry. entry.0.items) (slice_get kept.now.entries place) }
{
    match stop {
        Some(stop) if stop.place == place => Some(&stop.name),
        _ => name_at(kept, place),
    }
}

impl Names {
    pub fn new(alloc: Global) -> Names
        ensures { result ≡ [] }
    {
        Names {
            kept: BTreeMap::new(alloc),
            stop: None,
        }
    }

    pub fn is_empty(&self) -> bool
        ensures { result ≡ (length self.now == 0) }
    {
        self.kept.is_empty()
    }

    /// The object that the name leads to.
    pub fn get(&self, name: &[u8]) -> Option<usize>
        ensures { result ≡ found name.now self.now }
    {
        self.kept.get(name).copied()
    }

    /// One more name, or the name led elsewhere.
    pub fn insert(&mut self, name: Vec<u8>, object: usize) -> Result<(), AllocError>
        ensures ok { OnOk result (self.new ≡ named name.items object self.old) }
        ensures err { OnErr result (self.new ≡ self.old) }
    {
        self.stop = None;
        self.kept.insert(name, object)?;
        Ok(())
    }

    /// The name, which is there, leads elsewhere. This takes no memory.
    pub fn lead(&mut self, name: &[u8], object: usize)
        requires { is_some (found name.now self.old) ≡ true }
        ensures { self.new ≡ named name.now object self.old }
    {
        self.stop = None;
        lead_in(&mut self.kept, name, object);
    }

    /// The name leads nowhere any more.
    pub fn remove(&mut self, name: &[u8])
        ensures { self.new ≡ unnamed name.now self.old }
    {
        self.stop = None;
        let _ = self.kept.remove(name);
    }

    /// The names from a place on, where there are any.
    pub fn from(&self, place: usize) -> Option<Range<'_, Vec<u8>, usize>>
        ensures names { unwrap_or (option_map seen result) [] ≡ drop place self.now }
        ensures few { IfSome result (λ rest. place + length rest < 2 ^ 64) }
    {
        if place >= self.kept.len() {
            return None;
        }
        match first_from(&self.kept, &self.stop, place) {
            None => None,
            Some(first) => Some(self.kept.range(first..)),
        }
    }

    /// A listing stopped at this name, which stands at this place.
    pub fn stop_at(&mut self, place: usize, name: Vec<u8>)
        requires { option_map (λ entry. entry.0) (slice_get self.old place) ≡ Some name.items }
        ensures { self.new ≡ self.old }
    {
        self.stop = Some(Stop { place, name });
    }
}
