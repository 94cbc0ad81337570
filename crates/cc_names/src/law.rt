// Laws of items with the names that are needed, which the crates above cite: the contract of each function is the law,
// and it does nothing.
ghost use Rattle.cc_names.specs.Law.{ExitsSame, HelpersSame, KeepsAvoiding, KeepsEven, KeepsFit, KeepsNamed};
ghost use Rattle.cc_names.specs.Law.{KeepsShort, RunsAlike, WeighsNoMore};

/// Law: in every state in which items find what they need they do so with the needed names alone, and lead to the same
/// way out and the same state, and use no more; or they leave a trap recorded, and what they leave differs from that in
/// nothing that is seen then.
pub fn fewer_names_change_nothing_seen()
    ensures { RunsAlike }
{}

/// Law: with the needed names alone items weigh no more, have as many ways out, and call the same helpers.
pub fn fewer_names_weigh_less()
    ensures most { WeighsNoMore }
    ensures exits { ExitsSame }
    ensures helpers { HelpersSame }
{}

/// Law: with the needed names alone items fit where they did, name no score of the scheduler where they did not, weigh
/// the same in every state where they did, are short where they were, and call helpers of a list where they did.
pub fn fewer_names_keep_their_form()
    ensures fit { KeepsFit }
    ensures avoiding { KeepsAvoiding }
    ensures even { KeepsEven }
    ensures short { KeepsShort }
    ensures named { KeepsNamed }
{}
