// A law of trees, which the crates above cite: the contract of the function is the law, and it does nothing.
ghost use Rattle.cc_entries.specs.Law.{EntriesTell, NamesTell};

/// Law: a piece is told by its name, unless it is of a function with a number that other pieces have in their names; and
/// the frames below are told by their tree, where the pieces that follow are told by their names.
pub fn entries_tell()
    ensures names { NamesTell }
    ensures entries { EntriesTell }
{}
