// The names of pieces.
ghost use Rattle.std.specs.Prelude.{◌≡◌, ◌++◌, IfOk, codes};
ghost use Rattle.std.specs.Fmt.{decimal};
ghost use Rattle.cc_line.specs.View.{piece_view};
ghost use Rattle.cc_sched.specs.Names as names;

use cc_line::PieceId;
use mc_nbt::{Memory, Text};
use std::alloc::Global;

// The first numbers in the names of pieces of routines, of instantiation, and of the ends of jobs.
const GROUP_SHARED: u32 = 100_000;

const GROUP_INIT: u32 = 100_001;

const GROUP_END: u32 = 100_002;

// A name with these two numbers.
fn numbered(alloc: Global, group: u32, index: u32) -> Result<Text, Memory>
    ensures { IfOk result (λ t. t ≡ codes "f" ++ (decimal group ++ (codes "_" ++ decimal index))) }
{
    Ok(Text::from(format!(in alloc; "f{group}_{index}")?))
}

// The name of the function of a piece.
pub(crate) fn piece_name(alloc: Global, id: PieceId) -> Result<Text, Memory>
    ensures { IfOk result (λ t. t ≡ names.piece_name (piece_view id)) }
{
    match id {
        PieceId::Body { func, index } => numbered(alloc, func, index),
        PieceId::Init { index } => numbered(alloc, GROUP_INIT, index),
        PieceId::Shared { index } => numbered(alloc, GROUP_SHARED, index),
        PieceId::End { results } => numbered(alloc, GROUP_END, results),
    }
}
