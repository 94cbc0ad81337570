// Laws of cuts, which the crates above cite: the contract of each function is the law, and it does nothing.
ghost use Rattle.cc_cut.specs.Law.{LayoutsAreKinds, CutsHaveRules, CutsAreOfPieces, PlacesTellCuts, ExitsAreCuts, PiecesLead, PiecesFit, RanksRise, RanksAreLow, FramesHaveRoom, CostsAreBounded};

/// Law: in a valid module the operands at a cut are those that the typing of its place determines. So each cut is at a
/// place that is reached.
pub fn layouts_are_kinds()
    ensures { LayoutsAreKinds }
{}

/// Law: where a function of a valid module has cuts in any case. The first cut is at the body's first place. There is
/// one at the first place inside each loop and of the second arm of each `if`, behind each block, each call and each routine
/// of several pieces, and at each instruction that may be repeated, if these are reached.
pub fn cuts_have_rules()
    ensures { CutsHaveRules }
{}

/// Law: the cuts of a function are those of its pieces, in the order of the text, and count from 1. A cut is found by
/// its place, so no two have the same. Each exit is the index of a cut.
pub fn indices_tell_cuts()
    ensures of_pieces { CutsAreOfPieces }
    ensures by_place { PlacesTellCuts }
    ensures exits { ExitsAreCuts }
{}

/// Law: in a valid module each way on from a place of a piece leads to the next of its places, or to a cut that is one
/// of the piece's exits. It brings the operands that stand there.
pub fn pieces_lead_to_their_exits()
    ensures { PiecesLead }
{}

/// Law: no piece is too full, and no instruction costs more than the most.
pub fn pieces_are_light()
    ensures fit { PiecesFit }
    ensures bounded { CostsAreBounded }
{}

/// Law: in a valid module where no function is too high, a piece that has constants alone, and so makes no step of the
/// reduction, leads to a piece of a higher rank, and no rank is above 5.
pub fn ranks_rise()
    ensures rise { RanksRise }
    ensures low { RanksAreLow }
{}

/// Law: at each place that is reached the locals and the operands have room in the function's frame.
pub fn frames_have_room()
    ensures { FramesHaveRoom }
{}
