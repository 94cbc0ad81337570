// A law of what worlds show: the contract of the function is the law, and it does nothing.
ghost use Rattle.mc_inspect.specs.Inspect.{ViewsAreOne};

/// Law: the configurations for which a world stands show the same. So there is one answer to who asks where the program
/// is.
pub fn views_are_one()
    ensures { ViewsAreOne }
{}
