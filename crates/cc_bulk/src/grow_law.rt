// Laws of growing memory, which the crates above cite: the contract of each function is the law, and it does nothing.
ghost use Rattle.cc_bulk.specs.GrowLaw.{GrowerIsLines, GrowsAreLines, GrowsAreTold, PagesAreAppended};

/// Law: a step of growing puts the number of pages that stand into its place, and tells how many are missing; where the memory
/// may not have so many, it puts -1, and none is missing.
pub fn grows_are_told()
    ensures { GrowsAreTold }
{}

/// Law: the grower appends as many pages of zeros as are missing, at most 32; where none is missing any more, the piece is next
/// that follows.
pub fn pages_are_appended()
    ensures { PagesAreAppended }
{}

/// Law: both are lines under every namespace, and weigh at most so much.
pub fn grows_are_lines()
    ensures steps { GrowsAreLines }
    ensures grower { GrowerIsLines }
{}
