// The acts of a call of many arguments: the frame of the function is made first, and then its arguments are fetched, some
// by each of several pieces.
ghost use Rattle.std.specs.Prelude.{◌≡◌, ◌∷◌, [], ◌++◌, OnOk};
ghost use Rattle.cc_line.specs.Key.{id_tree};
ghost use Rattle.cc_line.specs.Step.{copy_site, set_site};
ghost use Rattle.cc_line.specs.View.{piece_view};
ghost use Rattle.cc_call.specs.Fetch.{fetch_acts, follows_site, making_acts};
ghost use Rattle.cc_call.specs.Frames.{next_site};
ghost use Rattle.cc_call.specs.View.{acts_view};

use crate::frame::push_zeros;
use crate::path::last_place;
use cc_line::{Act, Key, Leaf, PieceId, SCORE_PLACES, Site, Store, sum};
use mc_nbt::Memory;

/// The piece is next that follows.
pub fn push_followed(acts: &mut Vec<Act>) -> Result<(), Memory>
    ensures { OnOk result (acts_view acts.new.items ≡ acts_view acts.old.items ++ copy_site next_site follows_site ∷ []) }
{
    acts.push(Act::CopySite {
        to: Site::at(Store::Rest, Key::Next),
        from: Site::at(Store::Rest, Key::Follows),
    })?;
    Ok(())
}

/// This piece follows.
pub fn push_follows(piece: PieceId, acts: &mut Vec<Act>) -> Result<(), Memory>
    ensures { OnOk result (acts_view acts.new.items
        ≡ acts_view acts.old.items ++ set_site follows_site (id_tree (piece_view piece)) ∷ []) }
{
    acts.push(Act::SetSite {
        site: Site::at(Store::Rest, Key::Follows),
        leaf: Leaf::Piece(piece),
    })?;
    Ok(())
}

/// Adds the acts that make the frame of a function with so many places of parameters, so many of all locals, and so
/// many in all, whose arguments are still to be fetched. The piece is next then that followed, and this one follows.
pub fn make_frame(
    params: u32,
    locals: u32,
    size: u32,
    first: PieceId,
    acts: &mut Vec<Act>,
) -> Result<(), Memory>
    ensures { OnOk result (acts_view acts.new.items
        ≡ acts_view acts.old.items ++ making_acts params locals size (piece_view first)) }
{
    let others = locals.min(SCORE_PLACES).saturating_sub(params);
    acts.push(Act::MakeZeros {
        count: size.saturating_sub(SCORE_PLACES),
    })?;
    push_zeros(params, others, acts)?;
    push_followed(acts)?;
    push_follows(first, acts)
}

/// Adds the acts by which so many numbers, from a place of the last of the frames below on, become places, from this
/// one on.
pub fn fetch_arguments(from: u32, to: u32, count: u32, acts: &mut Vec<Act>) -> Result<(), Memory>
    ensures { OnOk result (acts_view acts.new.items ≡ acts_view acts.old.items ++ fetch_acts from to count) }
{
    for index in 0..count {
        let source = sum(from, index)?;
        let place = sum(to, index)?;
        let site = last_place(source)?;
        acts.push(Act::SiteToPlace { place, site })?;
    }
    Ok(())
}
