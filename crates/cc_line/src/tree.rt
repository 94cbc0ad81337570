// The trees of leaves.
ghost use Rattle.std.specs.Prelude.{◌≡◌, ◌∷◌, [], IfOk, pos};
ghost use Rattle.mc_nbt.specs.Tree as spec;
ghost use Rattle.mc_nbt.specs.View.{entry, view};
ghost use Rattle.cc_line.specs.Key.{group_end, id_tree};
ghost use Rattle.cc_line.specs.Running.{bare_entry};
ghost use Rattle.cc_line.specs.View.{leaf_tree, piece_view, zeros};

use crate::number::int_of;
use crate::table::table_nbt;
use crate::word::key_text;
use crate::{Key, Leaf, PieceId};
use mc_nbt::{Memory, Nbt, NbtList, NbtMap, Text};
use std::alloc::Global;

/// The tree of a leaf.
///
/// # Errors
///
/// `Memory` where there is no room for it, or a number in the name of a piece, or how many places are saved, is no int.
pub fn leaf_nbt(alloc: Global, leaf: Leaf) -> Result<Nbt, Memory>
    ensures { IfOk result (λ t. view t ≡ leaf_tree leaf) }
{
    match leaf {
        Leaf::Int(z) => Ok(Nbt::Int(z)),
        Leaf::EmptyList => Ok(Nbt::List(NbtList::Ints(Vec::new(alloc)))),
        Leaf::EmptyCompound => Ok(Nbt::Compound(NbtMap::from_entries(Vec::new(alloc)))),
        Leaf::Zeros(count) => zeros_nbt(alloc, count),
        Leaf::Piece(id) => piece_nbt(alloc, id),
        Leaf::Waiting { follows, saved } => waiting_nbt(alloc, follows, saved),
        Leaf::Table(table) => table_nbt(alloc, table),
    }
}

/// A list of so many zeros.
///
/// # Errors
///
/// `Memory` where there is no room for it.
pub fn zeros_nbt(alloc: Global, count: u32) -> Result<Nbt, Memory>
    ensures { IfOk result (λ t. view t ≡ zeros count) }
{
    Ok(Nbt::List(NbtList::Ints(vec![in alloc; 0; count as usize]?)))
}

/// The name of a piece: a compound of its function, or the number of its kind where it is none's, and its number.
///
/// # Errors
///
/// `Memory` where there is no room for it, or one of the numbers is no int.
pub fn piece_nbt(alloc: Global, id: PieceId) -> Result<Nbt, Memory>
    ensures { IfOk result (λ t. view t ≡ id_tree (piece_view id)) }
{
    match id {
        PieceId::Body { func, index } => numbered_nbt(alloc, int_of(func)?, int_of(index)?),
        PieceId::Init { index } => numbered_nbt(alloc, 100_001, int_of(index)?),
        PieceId::Shared { index } => numbered_nbt(alloc, 100_000, int_of(index)?),
        PieceId::End { results } => ending_nbt(alloc, int_of(results)?),
    }
}

fn numbered_nbt(alloc: Global, func: i32, index: i32) -> Result<Nbt, Memory>
    ensures { IfOk result (λ t. view t ≡ spec.compound_of
        ((105 ∷ [], spec.int func) ∷ ((106 ∷ [], spec.int index) ∷ []))) }
{
    let func = field(alloc, "i", func)?;
    let index = field(alloc, "j", index)?;
    Ok(Nbt::Compound(NbtMap::from_entries(vec![in alloc; func, index]?)))
}

fn ending_nbt(alloc: Global, results: i32) -> Result<Nbt, Memory>
    ensures { IfOk result (λ t. view t ≡ spec.compound_of
        ((101 ∷ [], spec.int (pos 1)) ∷ ((105 ∷ [], spec.int (pos group_end)) ∷ ((106 ∷ [], spec.int results) ∷ [])))) }
{
    let ends = field(alloc, "e", 1)?;
    let func = field(alloc, "i", 100_002)?;
    let index = field(alloc, "j", results)?;
    Ok(Nbt::Compound(NbtMap::from_entries(vec![in alloc; ends, func, index]?)))
}

// A frame below without its places.
fn waiting_nbt(alloc: Global, follows: PieceId, saved: u32) -> Result<Nbt, Memory>
    ensures { IfOk result (λ t. view t ≡ bare_entry (piece_view follows) saved) }
{
    let saved = field(alloc, Key::Templates.text(), int_of(saved)?)?;
    let follows = (key_text(alloc, Key::Follows)?, piece_nbt(alloc, follows)?);
    Ok(Nbt::Compound(NbtMap::from_entries(vec![in alloc; follows, saved]?)))
}

fn field(alloc: Global, key: &str, value: i32) -> Result<(Text, Nbt), Memory>
    ensures { IfOk result (λ e. entry e ≡ (key.now, spec.int value)) }
{
    Ok((Text::new(alloc, key)?, Nbt::Int(value)))
}
