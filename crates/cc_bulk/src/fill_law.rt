// Laws of filling and copying, which the crates above cite: the contract of each function is the law, and it does nothing.
ghost use Rattle.cc_bulk.specs.FillLaw.{CopiesAreLines, CopiesGoOn, FillsAreLines, FillsGoOn, ReachesAreLines, ReachesAreTested};

/// Law: the test of so many bytes from an address on leads on where all of them lie within the memory; else it records the trap,
/// and ends its list.
pub fn reaches_are_tested()
    ensures { ReachesAreTested }
{}

/// Law: a byte of a fill is written as by a step of the reduction, and the operands are those that it leaves.
pub fn fills_go_on()
    ensures { FillsGoOn }
{}

/// Law: a byte of a copy is copied as by a step of the reduction, and the operands are those that it leaves.
pub fn copies_go_on()
    ensures { CopiesGoOn }
{}

/// Law: all these are lines under every namespace, and weigh at most so much.
pub fn fills_are_lines()
    ensures reaches { ReachesAreLines }
    ensures fills { FillsAreLines }
    ensures copies { CopiesAreLines }
{}
