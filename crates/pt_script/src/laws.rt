ghost use Rattle.pt_script.specs.FirstBad.{NamesFirstBad};

/// What the number of a bad line means: the lines up to it are the fewest that begin no script.
pub fn first_bad_line()
    ensures { NamesFirstBad }
{}
