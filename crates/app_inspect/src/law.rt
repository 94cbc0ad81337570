// A law of printed lines, which the crates above cite: the contract of the function is the law, and it does nothing.
ghost use Rattle.app_inspect.specs.Law.{LinesTellWhere};

/// Law: over a pack that agrees with a module and can be resumed, each line of a script that asks where the program is
/// prints what the reduction of the module shows after a number of steps for which the credit of the job doesn't pay.
pub fn lines_tell_where()
    ensures { LinesTellWhere }
{}
