// The cuts of a module as data.
use wm_ast::{U32s, ValTypes};

/// A place of a function's body at which a piece begins.
#[derive(Debug, Drop)]
pub struct Cut {
    /// The index of the function.
    pub func: u32,
    /// The index of the cut among those of the function, which count from 1.
    pub index: u32,
    /// The path that tells the place: the position of an instruction in each sequence, after that of an `if` 0 for its
    /// first arm or 1 for its second, and last the position in the innermost sequence.
    pub place: U32s,
    /// The types of the operands there, those under the blocks round the place included, the lowest first.
    pub layout: ValTypes,
    /// The indices of the cuts to which the piece leads, one for each way out, in the order of the text.
    pub exits: U32s,
}

/// Cuts of a module.
pub type Cuts = Vec<Cut>;
