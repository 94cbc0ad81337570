// Before a cut for which the memory still grows.
ghost use Rattle.std.specs.Prelude.{◌≡◌, ℕ, pos, Some, IfOk, MatchOption};
ghost use Rattle.std.specs.Bool.{MatchBool};
ghost use Rattle.cc_line.specs.declared.leaf.PieceId.TheVariants as ids;
ghost use Rattle.cc_pieces.specs.Growing.{grower_piece};
ghost use Rattle.mc_inspect.specs.steps.Found.{Tells};
ghost use Rattle.mc_inspect.specs.steps.Growings.{Grows, GrowsNot};

use crate::cuts::whole;
use crate::reading::Reading;
use cc_line::PieceId;
use mc_nbt::Memory;
use std::alloc::Global;
use wm_ast::Module;
use wm_valid::Typed;
use wm_view::Inspection;

// Whether a score is a number of pages.
fn is_count(score: Option<i32>) -> bool
    ensures { MatchBool result ((n : ℕ) × (score ≡ Some (pos n))) ((n : ℕ) → score ≡ Some (pos n) → ⊥) }
{
    match score {
        Some(z) => z >= 0,
        None => false,
    }
}

/// The cut that follows.
pub(crate) fn cut_that_follows(reading: &Reading) -> Option<(u32, u32)>
    ensures { MatchOption result ((f j : ℕ) → reading.now.follows ≡ Some (ids.Body f j) → ⊥)
        (λ x. reading.now.follows ≡ Some (ids.Body x.0 x.1)) }
{
    match reading.follows {
        Some(PieceId::Body { func, index }) => Some((func, index)),
        _ => None,
    }
}

// The cut that follows, where a memory grows.
fn grown(m: &Module, reading: &Reading) -> Option<(u32, u32)>
    ensures { MatchOption result (GrowsNot m.now reading.now) (λ x. Grows m.now reading.now x.0 x.1) }
{
    if m.mems.is_empty() {
        return None;
    }
    if !is_count(reading.scores.g) {
        return None;
    }
    cut_that_follows(reading)
}

/// The piece is next that appends pages to a memory that grows.
pub(crate) fn growing(
    alloc: Global,
    m: &Typed,
    reading: &Reading,
) -> Result<Option<Inspection>, Memory>
    ensures { IfOk result (Tells m.now reading.now grower_piece) }
{
    match grown(m.module(), reading) {
        Some((func, index)) => whole(alloc, m, reading, func, index),
        None => Ok(None),
    }
}
