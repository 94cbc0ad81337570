// What is shown of a program that runs, as data.
use mc_nbt::Value;
use wm_ast::{Items, U32s};

/// A list of values.
pub type Values = Items<Value>;

/// A frame: what a call that hasn't returned has.
#[derive(Debug, Drop)]
pub struct FrameView {
    /// The index of its function.
    pub func: u32,
    /// Its locals, the parameters first.
    pub locals: Values,
    /// Its operands, those under the blocks that it is in included, the lowest first.
    pub operands: Values,
}

/// A list of frames.
pub type FrameViews = Items<FrameView>;

/// What is shown of a program that runs. The memory and the globals aren't part of it.
#[derive(Debug, Drop)]
pub struct Inspection {
    /// The frames, the outermost first.
    pub frames: FrameViews,
    /// The opcode of the next instruction, of two bytes for `memory.copy` and `memory.fill`; none at the end of a
    /// sequence.
    pub next: Option<u16>,
    /// For each label of the innermost frame, the outermost first, how many items stand behind the values inside it.
    pub left: U32s,
}
