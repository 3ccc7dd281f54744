ghost use Rattle.pt_handles.specs.Laws.{HaveOneReading};

/// Bytes are the records of one list of entries at most.
pub fn listings_have_one_reading()
    ensures { HaveOneReading }
{}
