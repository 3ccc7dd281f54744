ghost use Rattle.std.specs.Prelude.{◌≡◌};
ghost use Rattle.pt_maps.specs.Rule.{range_end, holds, meets};
ghost use Rattle.pt_maps.specs.Index.{last_of};

/// So many ids from the first one on.
#[derive(Clone, Copy)]
pub(crate) struct IdRange {
    pub start: u32,
    pub count: u32,
}

impl IdRange {
    /// The first id behind it.
    pub fn end(self) -> u64
        ensures { result ≡ range_end self }
    {
        u64::from(self.start) + u64::from(self.count)
    }

    /// The last id of a range that has any, or the last one of all where it goes past that.
    pub fn last(self) -> u32
        ensures { result ≡ last_of self }
    {
        self.start.saturating_add(self.count.saturating_sub(1))
    }

    pub fn holds(self, id: u32) -> bool
        ensures { result ≡ holds self id }
    {
        self.start <= id && u64::from(id) < self.end()
    }

    /// Whether some id lies in both.
    pub fn meets(self, other: IdRange) -> bool
        ensures { result ≡ meets self other }
    {
        u64::from(self.start.max(other.start)) < self.end().min(other.end())
    }
}
