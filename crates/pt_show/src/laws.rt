ghost use Rattle.pt_show.specs.Laws.{TextsTellValues};

/// Two values with one text are equal, and where a text ends is told by itself.
pub fn texts_tell_values()
    ensures { TextsTellValues }
{}
