// Trees that lines set.
use crate::Table;

/// How a piece is named: one of a function's body, of instantiation, of a routine that is done in pieces, or the one that
/// ends a job with so many ints of results.
#[derive(Clone, Copy, PartialEq, Eq)]
pub enum PieceId {
    Body { func: u32, index: u32 },
    Init { index: u32 },
    Shared { index: u32 },
    End { results: u32 },
}

/// A tree that a line sets.
#[derive(Clone, Copy)]
pub enum Leaf {
    Int(i32),
    EmptyList,
    EmptyCompound,
    /// A list of so many zeros.
    Zeros(u32),
    /// The name of a piece.
    Piece(PieceId),
    /// A frame below without its places: the piece that follows the call that it waits for, and how many of its places
    /// are saved as scores.
    Waiting { follows: PieceId, saved: u32 },
    /// A table in which a routine looks numbers up.
    Table(Table),
}
