// Laws of pieces, which the crates above cite: the contract of each function is the law, and it does nothing.
ghost use Rattle.cc_body.specs.Law.{FetchesAreFew, PiecesAreLight, PlacersAreFew, TakersAreFew};

/// Law: the pieces of a function are lines under every namespace, and are light: those of its cuts, those with which
/// calls begin, and those that fetch arguments, restore frames, and go on with divisions. A call needs few that take
/// arguments or fetch them, and no frame has more places than there are light pieces that put a value to one.
pub fn pieces_are_light()
    ensures bodies { PiecesAreLight }
    ensures few { TakersAreFew }
    ensures few_fetches { FetchesAreFew }
    ensures few_placers { PlacersAreFew }
{}
