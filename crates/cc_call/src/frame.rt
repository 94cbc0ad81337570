// What calls and returns have in common: the piece that is next, zeros, and the scores of results.
ghost use Rattle.std.specs.Prelude.{◌≡◌, ◌++◌, IfOk, OnOk};
ghost use Rattle.cc_line.specs.View.{piece_view, scratch_text};
ghost use Rattle.cc_call.specs.Frames.{done_piece, next_acts, opening_piece, result_score, zero_acts};
ghost use Rattle.cc_call.specs.View.{acts_view};

use cc_line::{Act, Key, Leaf, PieceId, Scratch, Site, Store, sum};
use mc_nbt::Memory;

// The indices of the shared pieces that make frames count from here on.
const FIRST_OPENING: u32 = 10_016;

/// The piece that ends the job with so many ints of results.
pub fn done_piece(results: u32) -> PieceId
    ensures { piece_view result ≡ done_piece results }
{
    PieceId::End { results }
}

/// The piece that makes the frame of a function whose arguments stand in the first places.
pub fn opening_piece(func: u32) -> Result<PieceId, Memory>
    ensures { IfOk result (λ id. piece_view id ≡ opening_piece func) }
{
    let index = sum(FIRST_OPENING, func)?;
    Ok(PieceId::Shared { index })
}

/// This piece is next.
pub fn push_next(id: PieceId, acts: &mut Vec<Act>) -> Result<(), Memory>
    ensures { OnOk result (acts_view acts.new.items ≡ acts_view acts.old.items ++ next_acts (piece_view id)) }
{
    acts.push(Act::SetSite {
        site: Site::at(Store::Rest, Key::Next),
        leaf: Leaf::Piece(id),
    })?;
    Ok(())
}

/// So many places become 0, from this one on.
pub fn push_zeros(from: u32, count: u32, acts: &mut Vec<Act>) -> Result<(), Memory>
    ensures { OnOk result (acts_view acts.new.items ≡ acts_view acts.old.items ++ zero_acts from count) }
{
    for index in 0..count {
        let place = sum(from, index)?;
        acts.push(Act::SetPlace { place, value: 0 })?;
    }
    Ok(())
}

/// The score that holds a result on its way, of its low half or its high half.
pub(crate) fn result_score(index: u32) -> Scratch
    ensures { scratch_text result ≡ result_score index }
{
    if index == 0 { Scratch::R } else { Scratch::Q }
}
