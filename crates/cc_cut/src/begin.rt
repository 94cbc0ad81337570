// Where a piece begins.
ghost use Rattle.std.specs.Prelude.{◌≡◌, ◌≤◌, map, option_map};
ghost use Rattle.wm_ast.specs.View.{code_of, op_of};
ghost use Rattle.wm_place.specs.Stop.{level_told, visit_told};
ghost use Rattle.cc_cut.specs.Cost.{most_cost};
ghost use Rattle.cc_cut.specs.Way.{labelled};
ghost use Rattle.cc_cut.specs.Piece.{begins_inside, begins_first, begins_at, begins_before, place_cost, is_cut};

use crate::cost::{code_cost, ends_piece, is_repeated};
use wm_ast::Instr;
use wm_place::{Level, Stop};

/// A piece is full at this weight. What ends it stands besides.
pub(crate) const FULL: u32 = 436;

/// The block of a label, if it isn't the body's own.
pub fn labelled<'a>(levels: &'a [Level<'a>], label: u32) -> Option<&'a Level<'a>>
    ensures { option_map (λ l. level_told l.now) result ≡ labelled (map level_told levels.now) label }
{
    let outer = levels.len().checked_sub(label as usize + 1)?;
    Some(&levels[outer])
}

// Whether a piece begins inside a block in any case, at the first place of its sequence or of the arm of this number.
fn begins_inside(block: &Instr, arm: Option<u32>) -> bool
    ensures { result ≡ begins_inside (op_of block.now) arm }
{
    match block {
        Instr::Loop { .. } => true,
        Instr::If { .. } => arm == Some(1),
        _ => false,
    }
}

// Whether a piece begins in any case at the first place of a sequence, in these blocks.
fn begins_first(path: &[u32], levels: &[Level<'_>]) -> bool
    ensures { result ≡ begins_first path.now (labelled (map level_told levels.now) 0) }
{
    match labelled(levels, 0) {
        Some(level) => begins_inside(level.block, path.get(level.lead.saturating_add(1)).copied()),
        None => true,
    }
}

// Whether a piece begins in any case behind these instructions of a sequence, in these blocks.
fn begins_at(before: &[Instr], path: &[u32], levels: &[Level<'_>]) -> bool
    ensures { result ≡ begins_at (code_of before.now) path.now (map level_told levels.now) }
{
    match before.last() {
        Some(instr) => ends_piece(instr),
        None => begins_first(path, levels),
    }
}

// Whether a piece begins in any case before these instructions of a sequence.
fn begins_before(rest: &[Instr]) -> bool
    ensures { result ≡ begins_before (code_of rest.now) }
{
    match rest.first() {
        Some(instr) => is_repeated(instr),
        None => false,
    }
}

/// Whether the place is a cut, to which the last piece has come with so much weight: that of its places, which is 0
/// before the first cut.
pub fn is_cut(spent: u32, stop: Stop<'_>) -> bool
    ensures { result ≡ is_cut spent (visit_told stop.entry) }
{
    begins_at(stop.before, stop.path, stop.levels)
        || begins_before(stop.rest)
        || FULL < spent.saturating_add(code_cost(stop.rest))
}

/// What a place adds to its piece.
pub fn place_cost(stop: Stop<'_>) -> u32
    ensures value { result ≡ place_cost (visit_told stop.entry) }
    ensures low { result ≤ most_cost }
{
    code_cost(stop.rest)
}
