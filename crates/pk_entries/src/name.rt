// Names of pieces.
ghost use Rattle.std.specs.Prelude.{◌≡◌, IfOk, MatchOption};
ghost use Rattle.mc_nbt.specs.View.{view};
ghost use Rattle.cc_line.specs.Key as key;
ghost use Rattle.cc_line.specs.View.{piece_view};
ghost use Rattle.pk_entries.specs.Told.{NamesPiece};
ghost use Rattle.pk_entries.specs.steps.Reading.{numbered};

use crate::lookup::number_under;
use cc_line::{PieceId, piece_nbt};
use mc_nbt::{Memory, Nbt, is_same};
use std::alloc::Global;

// The first numbers in the names of pieces that are no function's: of routines, and of instantiation.
const GROUP_SHARED: u32 = 100_000;

const GROUP_INIT: u32 = 100_001;

// The piece with these numbers in its name, where there is one.
fn numbered(group: u32, index: u32) -> PieceId
    ensures { piece_view result ≡ numbered group index }
{
    if group < GROUP_SHARED {
        PieceId::Body { func: group, index }
    } else if group == GROUP_SHARED {
        PieceId::Shared { index }
    } else if group == GROUP_INIT {
        PieceId::Init { index }
    } else {
        PieceId::End { results: index }
    }
}

/// The piece that has the tree as its name; `None` exactly where no piece has. A function with a number of 100,000 or
/// more has no pieces here, since other pieces have such numbers in their names.
///
/// # Errors
///
/// `Memory` where there is no room for a name to compare.
pub fn piece_of(alloc: Global, tree: &Nbt) -> Result<Option<PieceId>, Memory>
    ensures { IfOk result (λ o. MatchOption o ((i : key.PieceId) → NamesPiece (view tree.now) i → ⊥)
        (λ i. NamesPiece (view tree.now) (piece_view i))) }
{
    let group = number_under(tree, "i");
    let index = number_under(tree, "j");
    let id = numbered(group, index);
    let name = piece_nbt(alloc, id)?;
    if is_same(tree, &name) {
        return Ok(Some(id));
    }
    Ok(None)
}
