// The acts of a return, and of its caller behind the call.
ghost use Rattle.std.specs.Prelude.{◌≡◌, ◌++◌, OnOk};
ghost use Rattle.cc_line.specs.View.{piece_view};
ghost use Rattle.cc_call.specs.Frames.{hand_acts, load_acts, restore_acts, restore_list_acts, return_acts, take_acts};
ghost use Rattle.cc_call.specs.View.{acts_view};

use crate::frame::{push_next, result_score};
use crate::path::{in_last, last_site};
use cc_line::{Act, Key, Part, PieceId, SCORE_PLACES, Site, Store, sum};
use mc_nbt::Memory;

/// Adds the acts by which so many numbers, from a place on, are handed over as results.
pub fn push_hands(count: u32, from: u32, acts: &mut Vec<Act>) -> Result<(), Memory>
    ensures { OnOk result (acts_view acts.new.items ≡ acts_view acts.old.items ++ hand_acts count from 0) }
{
    for index in 0..count {
        let place = sum(from, index)?;
        acts.push(Act::LoadPlace {
            to: result_score(index),
            place,
        })?;
    }
    Ok(())
}

/// Adds the acts of a return of so many ints below a place: they are handed over, and the piece is next that follows
/// the call.
pub fn hand_results(count: u32, top: u32, acts: &mut Vec<Act>) -> Result<(), Memory>
    ensures { OnOk result (acts_view acts.new.items ≡ acts_view acts.old.items ++ return_acts count top) }
{
    push_hands(count, top.saturating_sub(count), acts)?;
    acts.push(Act::CopySite {
        to: Site::at(Store::Rest, Key::Next),
        from: in_last(Part::Key(Key::Follows)),
    })?;
    Ok(())
}

/// Adds the acts by which so many results become places, from this one on.
pub fn push_takes(count: u32, from: u32, acts: &mut Vec<Act>) -> Result<(), Memory>
    ensures { OnOk result (acts_view acts.new.items ≡ acts_view acts.old.items ++ take_acts count from 0) }
{
    for index in 0..count {
        let place = sum(from, index)?;
        acts.push(Act::KeepPlace {
            place,
            from: result_score(index),
        })?;
    }
    Ok(())
}

// So many of the first places come from the last entry.
fn push_loads(count: u32, acts: &mut Vec<Act>) -> Result<(), Memory>
    ensures { OnOk result (acts_view acts.new.items ≡ acts_view acts.old.items ++ load_acts 0 count) }
{
    for place in 0..count {
        let site = in_last(Part::Number(place));
        acts.push(Act::SiteToPlace { place, site })?;
    }
    Ok(())
}

// The further places are those that were saved, or as many zeros as the frame has.
fn push_restored_list(used: u32, size: u32, acts: &mut Vec<Act>) -> Result<(), Memory>
    ensures { OnOk result (acts_view acts.new.items ≡ acts_view acts.old.items ++ restore_list_acts used size) }
{
    if used > SCORE_PLACES {
        let site = in_last(Part::Key(Key::List));
        acts.push(Act::RestoreList { site })?;
    } else {
        let count = size.saturating_sub(SCORE_PLACES);
        acts.push(Act::MakeZeros { count })?;
    }
    Ok(())
}

/// Adds the acts by which a frame of so many places, of which the first so many were in use, stands again, with so many
/// ints of results behind these. Its entry is gone then, and this piece is next.
pub fn restore_frame(
    used: u32,
    results: u32,
    size: u32,
    next: PieceId,
    acts: &mut Vec<Act>,
) -> Result<(), Memory>
    ensures { OnOk result (acts_view acts.new.items
        ≡ acts_view acts.old.items ++ restore_acts used results size (piece_view next)) }
{
    push_restored_list(used, size, acts)?;
    push_loads(used.min(SCORE_PLACES), acts)?;
    push_takes(results, used, acts)?;
    acts.push(Act::EraseSite { site: last_site() })?;
    push_next(next, acts)
}
