use std::alloc::AllocError;

/// Why a map is refused, an id or a name.
#[derive(Clone, Copy, Debug)]
pub enum MapError {
    /// The rule at this place, counted from 0, says something of an id of which an earlier rule says something in the
    /// same direction.
    Overlap(u64),
    /// A range of the rule at this place goes past the last id, and does not overlap.
    PastEnd(u64),
    /// The guest may not use this id.
    Forbidden(u32),
    /// No rule meets the name.
    Unmet,
    Memory,
}

impl From<AllocError> for MapError {
    ghost use Rattle.std.specs.Prelude.{◌≡◌};
    ghost use Rattle.pt_maps.specs.declared.error.MapError.TheVariants.{Memory};

    ghost from_gives = { λ _ error. error ≡ Memory };

    fn from(_: AllocError) -> Self {
        MapError::Memory
    }
}
