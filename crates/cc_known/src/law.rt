// Laws of the operations, which the crates above cite: the contract of each function is the law, and it does nothing.
ghost use Rattle.cc_known.specs.Law.{ChosenFit, ChosenNamed, ChosenPerform, ChosenShort, ChosenWeigh, CoresWork};

/// Law: where lines are chosen by what is known of the operands, they make the value that the operation answers, in the
/// result's place, whatever the operands are, and on all places, any of which may be one.
pub fn operations_perform()
    ensures { ChosenPerform }
{}

/// Law: on places below 2^31 the lines that are chosen are lines under every namespace.
pub fn operations_fit()
    ensures { ChosenFit }
{}

/// Law: they weigh no more than the table says.
pub fn operations_weigh_at_most()
    ensures { ChosenWeigh }
{}

/// Law: they are short: under every namespace files of them can be kept.
pub fn items_are_short()
    ensures { ChosenShort }
{}

/// Law: they call no helper, and the steps of each operation name working scores alone.
pub fn no_helpers_are_called()
    ensures named { ChosenNamed }
    ensures work { CoresWork }
{}
