// Laws of items that run on, which the crates above cite: the contract of each function is the law, and it does
// nothing.
ghost use Rattle.cc_tails.specs.Law.{EndsAreNamed, GuardedItemsRunOn, TailsAreLight, TailsRunOver};

/// Law: items that run on are the items, with those of cuts behind them, each named by the last item before it.
pub fn items_run_over_cuts()
    ensures { TailsRunOver }
{}

/// Law: items that run on weigh, with a line for each way out, no more than they did before or than 200.
pub fn run_on_items_stay_light()
    ensures { TailsAreLight }
{}

/// Law: where items reach their end, the cut that their last one names is the next piece.
pub fn ends_are_named()
    ensures { EndsAreNamed }
{}

/// Law: from each state with no trap recorded in which items find what they need, and others behind them do, both do
/// one behind the other, with a stop at a trap between where one may be recorded. They lead to where the items alone
/// lead, if these end their list or leave a trap recorded, else to where the others lead from there.
pub fn items_run_on()
    ensures { GuardedItemsRunOn }
{}
