// Laws of lean items, which the crates above cite: the contract of each function is the law, and it does nothing.
ghost use Rattle.cc_passes.specs.Law.{LeanItemsAreEven, LeanItemsAreNamed, LeanItemsAreShort, LeanItemsAvoidSched};
ghost use Rattle.cc_passes.specs.Law.{LeanItemsExitNoMore, LeanItemsFit, LeanItemsHaveHelpers, LeanItemsLead};
ghost use Rattle.cc_passes.specs.Law.{LeanItemsWeighNoMore};

/// Law: where the next piece is this one, or the piece is that of no cut, and items find their places, lean ones do,
/// and lead to the same state, but for numbers in places that the piece which is next then doesn't read; they use no
/// more. Or the items leave a trap recorded, and what lean ones leave differs from that in nothing that is seen then.
pub fn lean_items_lead_alike()
    ensures { LeanItemsLead }
{}

/// Law: lean items weigh no more, have no more ways out, and call the same helpers.
pub fn lean_items_weigh_no_more()
    ensures most { LeanItemsWeighNoMore }
    ensures exits { LeanItemsExitNoMore }
    ensures helpers { LeanItemsHaveHelpers }
    ensures named { LeanItemsAreNamed }
{}

/// Law: lean items are lines where the items are, and short where these are short lines; they name no score of the
/// scheduler where these don't, and weigh the same in every state where these do.
pub fn lean_items_keep_their_form()
    ensures fit { LeanItemsFit }
    ensures short { LeanItemsAreShort }
    ensures avoiding { LeanItemsAvoidSched }
    ensures even { LeanItemsAreEven }
{}
