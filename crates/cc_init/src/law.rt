// The law of instantiation, which the crates above cite: the contract of the function is the law, and it does nothing.
ghost use Rattle.cc_init.specs.Law.{InstantiationLaysDownTheFirstStore};

/// Law: the pieces of instantiation are light, each leads to the next, and the last one to the module's first store,
/// and to its start function or the end.
pub fn instantiation_lays_down_the_first_store()
    ensures { InstantiationLaysDownTheFirstStore }
{}
