// The pieces of instantiation, with their charges.
ghost use Rattle.std.specs.Prelude.{◌≡◌, IfOk, suc};
ghost use Rattle.cc_line.specs.Item.{no_more};
ghost use Rattle.cc_line.specs.Key.{init_piece};
ghost use Rattle.cc_call.specs.Acts.{acts_then};
ghost use Rattle.cc_pieces.specs.Parts.{part, part_view, parts_view};
ghost use Rattle.cc_init.specs.Init as init;
ghost use Rattle.cc_init.specs.steps.Instantiating.{piece_acts};

use crate::instantiation::init_items;
use crate::start::Start;
use cc_line::{PieceId, sum};
use cc_pieces::{Part, part_of};
use mc_nbt::Memory;
use std::alloc::Global;
use wm_ast::Module;

/// The pieces of instantiation of a module, the first one first, each with its charges.
///
/// # Errors
///
/// `Memory` where there is no room for them.
pub fn init_parts(alloc: Global, m: &Module) -> Result<Vec<Part>, Memory>
    ensures { IfOk result (λ ps. parts_view ps.items ≡ init.init_parts m.now (suc (init.later_pieces m.now))) }
{
    let start = Start::of(alloc, m)?;
    let pieces = start.later_pieces()?;
    let mut parts = Vec::new(alloc);
    for number in 0..sum(pieces, 1)? {
        parts.push(init_part(alloc, &start, number)?)?;
    }
    Ok(parts)
}

// The piece of this number.
fn init_part(alloc: Global, start: &Start, number: u32) -> Result<Part, Memory>
    ensures { IfOk result (λ p. part_view p
        ≡ part (init_piece number) (acts_then (piece_acts start.now number) no_more)) }
{
    let items = init_items(alloc, start, number)?;
    part_of(alloc, PieceId::Init { index: number }, items)
}
