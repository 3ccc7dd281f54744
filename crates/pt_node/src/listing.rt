ghost use Rattle.std.specs.Prelude.{
  ◌≡◌,
  ◌<◌,
  ◌+◌,
  ◌^◌,
  [],
  IfSome,
  Some,
  drop,
  length,
  option_map,
  slice_get,
  unwrap_or,
};
ghost use Rattle.pt_node.specs.Laws.NameOrder.{seen};
ghost use Rattle.pt_node.specs.Node.{names_in};
ghost use Rattle.pt_node.specs.Reading.{after_reading};

use crate::node::{Content, Node};
use pt_host::Time;
use std::collections::btree_map::Range;

impl Content {
    /// The names from a place on, where this is a directory and has any there.
    pub fn names_from(&self, place: usize) -> Option<Range<'_, Vec<u8>, usize>>
        ensures names { unwrap_or (option_map seen result) [] ≡ drop place (names_in self.now) }
        ensures few { IfSome result (λ rest. place + length rest < 2 ^ 64) }
    {
        match self {
            Content::Directory(names) => names.from(place),
            Content::Regular(_) | Content::Link(_) | Content::Special(_) => None,
        }
    }

    /// A listing of the directory stopped at this name, which stands at this place.
    fn stop_at(&mut self, place: usize, name: Vec<u8>)
        requires { option_map (λ entry. entry.0) (slice_get (names_in self.old) place) ≡ Some name.items }
        ensures { self.new ≡ self.old }
    {
        if let Content::Directory(names) = self {
            names.stop_at(place, name);
        }
    }
}

impl Node {
    /// The directory was listed up to a place, at which this name stands, if it was met.
    pub fn list_to(&mut self, now: Time, place: usize, next: Option<Vec<u8>>)
        requires { IfSome next (λ name.
            option_map (λ entry. entry.0) (slice_get (names_in self.old.content) place) ≡ Some name.items) }
        ensures { self.new ≡ after_reading now self.old }
    {
        self.atime = now;
        if let Some(name) = next {
            self.content.stop_at(place, name);
        }
    }
}
