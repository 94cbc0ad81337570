// Laws, which the crates above cite: the contract of each function is a law, and it does nothing.
ghost use Rattle.cc_told.specs.Cases.{CutsAreNamed, FetchesAreNamed, GrowersAreNamed, OpeningsAreNamed};
ghost use Rattle.cc_told.specs.Cases.{OthersAreNone, PlacersAreNamed, RestoresAreNamed};
ghost use Rattle.cc_told.specs.Law.{CallersHaveNames, EntriesTellCallers, IndicesTellCuts, OneStanding, OneView};

/// Law: a state stands for one activation over one list of callers; so one view is shown, whatever the stores.
pub fn one_standing()
    ensures one { OneStanding }
    ensures seen { OneView }
{}

/// Law: the piece that a state names tells which case of standing it is, of two at most; and where it names a piece of
/// another kind, it stands for no activation.
pub fn cases_are_named()
    ensures cuts { CutsAreNamed }
    ensures restores { RestoresAreNamed }
    ensures fetches { FetchesAreNamed }
    ensures openings { OpeningsAreNamed }
    ensures placers { PlacersAreNamed }
    ensures growers { GrowersAreNamed }
    ensures others { OthersAreNone }
{}

/// Law: its index tells a cut of a function; the frames below are those of one list of callers; and the pieces that
/// follow these are told by their names.
pub fn callers_are_told()
    ensures cuts { IndicesTellCuts }
    ensures callers { EntriesTellCallers }
    ensures names { CallersHaveNames }
{}
