// Laws of items with fewer stops, which the crates above cite: the contract of each function is the law, and it does
// nothing.
ghost use Rattle.cc_stops.specs.Law.{ExitsNoMore, HelpersSame, KeepsAvoiding, KeepsEven, KeepsFit, KeepsNamed};
ghost use Rattle.cc_stops.specs.Law.{KeepsShort, RunsAlike, WeighsNoMore};

/// Law: in every state with all places that are scores in which items find what they need they do so with fewer stops
/// too, and lead to the same way out and the same state, and use no more; or they leave a trap recorded, and what they
/// leave differs from that in places, scratch scores and keys of which nothing is seen then.
pub fn fewer_stops_change_nothing_seen()
    ensures { RunsAlike }
{}

/// Law: with fewer stops items weigh no more, have no more ways out, and call the same helpers.
pub fn fewer_stops_weigh_less()
    ensures most { WeighsNoMore }
    ensures exits { ExitsNoMore }
    ensures helpers { HelpersSame }
{}

/// Law: with fewer stops items fit where they did, name no score of the scheduler where they did not, weigh the same in
/// every state where they did, are short where they were, and call helpers of a list where they did.
pub fn fewer_stops_keep_their_form()
    ensures fit { KeepsFit }
    ensures avoiding { KeepsAvoiding }
    ensures even { KeepsEven }
    ensures short { KeepsShort }
    ensures named { KeepsNamed }
{}
