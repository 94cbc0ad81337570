// Laws of accesses to memory, which the crates above cite: the contract of each function is the law, and it does nothing.
ghost use Rattle.cc_mem.specs.Law.{AddressesAreFound, BytesWeigh, LoadsAreDone, LoadsAreLines, SizesAreLines};
ghost use Rattle.cc_mem.specs.Law.{SizesAreTold, StoresAreDone, StoresAreLines, WordsWeigh};

/// Law: an access finds the page, the word and the byte of its address, and makes that page the window; where the byte isn't
/// within the memory it records the trap.
pub fn addresses_are_found()
    ensures { AddressesAreFound }
{}

/// Law: a load of an i32 puts what the reduction's load gives into its place, whatever the alignment, over words and pages; where
/// not all of its bytes lie within the memory it records the trap, and ends its list.
pub fn loads_are_done()
    ensures { LoadsAreDone }
{}

/// Law: a store of an i32 leaves the memory as the reduction's store leaves it; where not all of its bytes lie within the
/// memory it writes nothing, records the trap, and ends its list.
pub fn stores_are_done()
    ensures { StoresAreDone }
{}

/// Law: the size of the memory, in pages, is put into a place.
pub fn sizes_are_told()
    ensures { SizesAreTold }
{}

/// Law: accesses are lines under every namespace, and weigh at most so much.
pub fn accesses_are_lines()
    ensures loads { LoadsAreLines }
    ensures stores { StoresAreLines }
    ensures sizes { SizesAreLines }
{}

/// Law: what accesses to the window weigh, of a whole word and of a byte, where address, value and result are scores.
pub fn window_accesses_weigh()
    ensures words { WordsWeigh }
    ensures bytes { BytesWeigh }
{}
