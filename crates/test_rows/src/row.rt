use io_dev::Fail;
use mc_nbt::Text;
use std::alloc::Global;

/// A piece of a file: bytes that are put at its end.
#[derive(Debug, Drop)]
pub struct Piece {
    pub path: Text,
    pub bytes: Vec<u8>,
}

/// The calls of one device that are to fail.
pub type Plan = Vec<Fail>;

/// What is given to a run.
#[derive(Debug, Drop)]
pub struct Row {
    /// The words after the program's name.
    pub words: Vec<Text>,
    /// The files that stand there before the run.
    pub files: Vec<Piece>,
    /// The files that another hand puts there just before each read of their path.
    pub swaps: Vec<Piece>,
    /// The calls of files that fail.
    pub files_plan: Plan,
    /// The writes to the output that fail.
    pub out_plan: Plan,
    /// The writes to the error stream that fail.
    pub err_plan: Plan,
    /// The file for each of whose proper prefixes the row is run, if there is one.
    pub prefixes: Option<Text>,
}

impl Row {
    /// No words, no files, and no call that fails.
    pub fn new(alloc: Global) -> Row {
        Row {
            words: Vec::new(alloc),
            files: Vec::new(alloc),
            swaps: Vec::new(alloc),
            files_plan: Vec::new(alloc),
            out_plan: Vec::new(alloc),
            err_plan: Vec::new(alloc),
            prefixes: None,
        }
    }

    /// The number of bytes of the file at this path.
    pub fn length_of(&self, path: &Text) -> usize {
        let mut length = 0usize;
        for piece in self.files.as_slice() {
            if piece.path == *path {
                length = length.saturating_add(piece.bytes.len());
            }
        }
        length
    }
}
