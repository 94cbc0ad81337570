// Laws of activations at cuts, which the crates above cite: the contract of each function is the law, and it does
// nothing.
ghost use Rattle.cc_spots.specs.Law.{ActivationsStand, CallersStand, CutsAreTold, StandingsAreSeen, StandingsFit};

/// Law: at each place of a body that is reached an activation stands for whatever values, if the locals and the
/// operands have their types, and for no others. It shows what is seen of the place.
pub fn activations_stand()
    ensures stand { ActivationsStand }
    ensures fit { StandingsFit }
    ensures seen { StandingsAreSeen }
{}

/// Law: at each place behind a call a caller waits for whatever values, if the locals and the operands have their
/// types: with each results of the call it stands there.
pub fn callers_stand()
    ensures { CallersStand }
{}

/// Law: the index of a cut tells it, and so the visit of its place and its piece.
pub fn cuts_are_told()
    ensures { CutsAreTold }
{}
