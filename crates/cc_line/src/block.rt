// What blocks and pieces are.
ghost use Rattle.std.specs.Prelude.{◌≡◌};
ghost use Rattle.cc_line.specs.Item.{items_most};
ghost use Rattle.cc_line.specs.View.{items_view};

use crate::{Item, PieceId};
use mc_nbt::{Kind, Text, Texts};
use wm_ast::Items;

/// Places of the innermost frame: of two operands, and of a result.
#[derive(Clone, Copy)]
pub struct Slots {
    pub a: u32,
    pub b: u32,
    pub r: u32,
}

/// Items, and the most that they weigh.
#[derive(Drop)]
pub struct Block {
    pub(crate) items: Vec<Item>,
    pub(crate) weight: u32,
    ghost weighed: { weight ≡ items_most (items_view items.items) },
}

/// A function of a pack: its name without the namespace, and its lines.
#[derive(Drop)]
pub struct Function {
    pub name: Text,
    pub lines: Texts,
}

/// A list of functions.
pub type Functions = Items<Function>;

/// A list of kinds.
pub type Kinds = Items<Kind>;

/// A piece: its name, the kinds of the operands with which it is entered, and its items.
#[derive(Drop)]
pub struct Piece {
    pub id: PieceId,
    pub entry: Kinds,
    pub block: Block,
}

/// A list of pieces.
pub type Pieces = Items<Piece>;

/// What is emitted for an instruction: the items that stand in its place, and the pieces that it needs besides.
#[derive(Drop)]
pub struct Emitted {
    pub block: Block,
    pub pieces: Pieces,
}

/// Pieces, and the helpers that they call.
#[derive(Drop)]
pub struct PieceSet {
    pub pieces: Pieces,
    pub helpers: Functions,
}
