// The acts of a call: whether a frame more may stand, the caller's frame, the arguments, and the new frame.
ghost use Rattle.std.specs.Prelude.{◌≡◌, ◌++◌, OnOk};
ghost use Rattle.cc_line.specs.View.{piece_view, steps_view};
ghost use Rattle.cc_call.specs.Frames.{depth_steps, opening_acts, pass_acts, push_acts, save_acts, save_list_acts};
ghost use Rattle.cc_call.specs.View.{acts_view};

use crate::frame::{push_next, push_zeros};
use crate::path::in_entry;
use cc_line::{
    Act, Check, Cond, Conds, Key, Leaf, Part, PieceId, SCORE_PLACES, Scratch, Site, Spot, Step,
    Store, sum,
};
use mc_cmd::Range;
use mc_nbt::Memory;
use wm_ast::MAX_FRAMES;

// The number of a trap for too many frames.
const DEEP_TRAP: i32 = 8;

/// Adds the steps by which a call traps where no further frame may stand.
pub fn test_depth(steps: &mut Vec<Step>) -> Result<(), Memory>
    ensures { OnOk result (steps_view steps.new.items ≡ steps_view steps.old.items ++ depth_steps) }
{
    let range = Range::From(MAX_FRAMES as i32);
    let deep = Conds::One(Cond::Holds(Check::InRange(Spot::Scratch(Scratch::D), range)));
    steps.push(Step::Run(Act::LoadSite {
        to: Scratch::D,
        site: Site::at(Store::Rest, Key::Below),
    }))?;
    steps.push(Step::When(
        deep,
        Act::SetSpot {
            spot: Spot::Scratch(Scratch::Trap),
            value: DEEP_TRAP,
        },
    ))?;
    steps.push(Step::StopWhen(deep))?;
    Ok(())
}

// So many of the first places go into the entry.
fn push_saves(count: u32, acts: &mut Vec<Act>) -> Result<(), Memory>
    ensures { OnOk result (acts_view acts.new.items ≡ acts_view acts.old.items ++ save_acts 0 count) }
{
    for place in 0..count {
        let site = in_entry(Part::Number(place));
        acts.push(Act::PlaceToSite { site, place })?;
    }
    Ok(())
}

// The further places go there, where such are in use.
fn push_saved_list(used: u32, acts: &mut Vec<Act>) -> Result<(), Memory>
    ensures { OnOk result (acts_view acts.new.items ≡ acts_view acts.old.items ++ save_list_acts used) }
{
    if used > SCORE_PLACES {
        let site = in_entry(Part::Key(Key::List));
        acts.push(Act::SaveList { site })?;
    }
    Ok(())
}

/// Adds the acts by which a frame, whose first so many places are in use, goes below, with the piece that follows the
/// call.
pub fn push_frame(used: u32, follows: PieceId, acts: &mut Vec<Act>) -> Result<(), Memory>
    ensures { OnOk result (acts_view acts.new.items
        ≡ acts_view acts.old.items ++ push_acts used (piece_view follows)) }
{
    let saved = used.min(SCORE_PLACES);
    let entry = Site::at(Store::Rest, Key::Entry);
    acts.push(Act::SetSite {
        site: entry,
        leaf: Leaf::Waiting { follows, saved },
    })?;
    push_saves(saved, acts)?;
    push_saved_list(used, acts)?;
    acts.push(Act::AppendSite {
        to: Site::at(Store::Rest, Key::Below),
        from: entry,
    })?;
    Ok(())
}

/// Adds the acts by which so many numbers, from a place on, become the first places.
pub fn pass_arguments(from: u32, count: u32, acts: &mut Vec<Act>) -> Result<(), Memory>
    ensures { OnOk result (acts_view acts.new.items ≡ acts_view acts.old.items ++ pass_acts from 0 count) }
{
    for place in 0..count {
        let source = sum(from, place)?;
        acts.push(Act::CopyPlace {
            to: place,
            from: source,
        })?;
    }
    Ok(())
}

/// Adds the acts that make the frame of a function with so many places of parameters, so many of all locals, and so
/// many in all, whose arguments stand in the first places, and after which this piece is next.
pub fn open_frame(
    params: u32,
    locals: u32,
    size: u32,
    first: PieceId,
    acts: &mut Vec<Act>,
) -> Result<(), Memory>
    ensures { OnOk result (acts_view acts.new.items
        ≡ acts_view acts.old.items ++ opening_acts params locals size (piece_view first)) }
{
    let others = locals.min(SCORE_PLACES).saturating_sub(params);
    acts.push(Act::MakeZeros {
        count: size.saturating_sub(SCORE_PLACES),
    })?;
    push_zeros(params, others, acts)?;
    push_next(first, acts)
}
