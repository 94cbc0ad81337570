// Laws of places, which the crates above cite: the contract of each function is the law, and it does nothing.
ghost use Rattle.wm_place.specs.Place.{Place};
ghost use Rattle.wm_place.specs.Law.{NextIsFound, BlockIsFound, LoopIsFound, FirstArmIsFound, SecondArmIsFound, LevelsAreFound, PlacesAreListed, PlacesRise, PathsTell, PathsAreOfPlaces, PathLeadsOn, NextKinds, KindsAreByPath, KindsAreDetermined, KindsAreByPlace, KindsAreFew, KindsAreInts, SpotsAreTyped};

/// Law: the places that a place leads to are found: the one behind an instruction, the first inside a block, a loop and
/// each arm of an `if`, and those of the blocks round it.
pub fn places_lead_on()
    ensures next { NextIsFound }
    ensures in_block { BlockIsFound }
    ensures in_loop { LoopIsFound }
    ensures in_first_arm { FirstArmIsFound }
    ensures in_second_arm { SecondArmIsFound }
    ensures levels { LevelsAreFound }
{}

/// Law: the list of a body's places has just those at which something stands, each of them once, in the order of their
/// paths.
pub fn places_are_listed()
    ensures listed { PlacesAreListed }
    ensures rise { PlacesRise }
{}

/// Law: places and the paths that tell them are in one-to-one correspondence, and how the paths of the places that a
/// place leads to go on from its own.
pub fn paths_tell_places()
    ensures there { PathsTell }
    ensures back { PathsAreOfPlaces }
    ensures lead_on { (p : Place) → PathLeadsOn p }
{}

/// Law: in a valid module the kinds that are computed at a place are those that its typing determines, and there are
/// none exactly where the place isn't reached or isn't there. What `Typed::kinds` of `wm_valid` answers is thus
/// `path_kinds` of its path.
pub fn kinds_are_of_the_typing()
    ensures by_path { KindsAreByPath }
    ensures determined { KindsAreDetermined }
    ensures by_place { KindsAreByPlace }
{}

/// Law: behind an instruction stand the operands that it leaves, and none where it is a jump.
pub fn kinds_lead_on()
    ensures { NextKinds }
{}

/// Law: at each place that is reached, the ends of sequences included, at most as many operands stand as the height of
/// the function says, or one where the height is 0. Where the module has no floats, as one of the profile, none of them
/// is a float.
pub fn kinds_are_few()
    ensures few { KindsAreFew }
    ensures ints { KindsAreInts }
{}

/// Law: in a valid module what follows at a place that is reached is typed from the place's own operands on, under the
/// labels of the blocks round it, to what the innermost of them gives.
pub fn spots_are_typed()
    ensures { SpotsAreTyped }
{}
