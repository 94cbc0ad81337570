// Laws of printed lines, which the crates above cite: the contract of each function is the law, and it does nothing.
ghost use Rattle.app_tell.specs.Law.{LinesTellAnswersApart, LinesTellReduction};

/// Law: over a pack that agrees with a module, each line that a script prints is what the reduction of the module gives.
pub fn lines_tell_the_reduction()
    ensures { LinesTellReduction }
{}

/// Law: one line isn't that of two answers, unless they are of one kind, with one value or one trap.
pub fn lines_tell_answers_apart()
    ensures { LinesTellAnswersApart }
{}
