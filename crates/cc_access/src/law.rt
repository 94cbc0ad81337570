// Laws of accesses, which the crates above cite: the contract of each function is the law, and it does nothing.
ghost use Rattle.cc_access.specs.Law.{LoadsAreDone, LoadsAreLines, StoresAreDone, StoresAreLines};

/// Law: a load leaves what the reduction's load gives, from the place of its address on; where not all of its bytes lie within
/// the memory it records the trap, and ends its list.
pub fn loads_are_done()
    ensures { LoadsAreDone }
{}

/// Law: a store leaves the memory as the reduction's store leaves it; where not all of its bytes lie within the memory it writes
/// nothing, records the trap, and ends its list.
pub fn stores_are_done()
    ensures { StoresAreDone }
{}

/// Law: loads and stores are lines under every namespace, and weigh at most so much.
pub fn accesses_are_lines()
    ensures loads { LoadsAreLines }
    ensures stores { StoresAreLines }
{}
