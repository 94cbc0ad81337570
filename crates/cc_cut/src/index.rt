// The indices of the cuts of a function, for an emitter that walks its body.
ghost use Rattle.std.specs.Prelude.{◌≡◌, ◌++◌, ℕ, List, IfOk};
ghost use Rattle.wm_ast.specs.View.{op_of};
ghost use Rattle.cc_cut.specs.Index.{index_at, landing_path};
ghost use Rattle.cc_cut.specs.Piece.{function_pieces, index_of};
ghost use Rattle.cc_cut.specs.Way.{path_behind};

use crate::exit::{Indices, path_behind};
use crate::making::function_indices;
use mc_nbt::Memory;
use std::alloc::Global;
use wm_ast::Instr;
use wm_valid::Typed;

/// The cuts of a function: the index of each, by the path of its place.
#[derive(Drop)]
pub struct CutIndices {
    indices: Indices,
}

impl CutIndices {
    /// Those of the function of this index; none where there is no such function. It goes through the body once.
    ///
    /// # Errors
    ///
    /// `Memory` where there is no room for them.
    pub fn of_function(alloc: Global, m: &Typed, func: u32) -> Result<CutIndices, Memory>
        ensures { IfOk result (λ t. (path : List ℕ) → index_at t path ≡ index_of (function_pieces m.now func) path) }
    {
        let indices = function_indices(alloc, m, func)?;
        Ok(CutIndices { indices })
    }

    /// The index of the cut at the place of this path, if there is one.
    pub fn at(&self, path: &[u32]) -> Option<u32>
        ensures { result ≡ index_at self.now path.now }
    {
        self.indices.get(path).copied()
    }

    /// That of the cut behind the instruction of this path.
    ///
    /// # Errors
    ///
    /// `Memory` where there is no room for its path.
    pub fn behind(&self, alloc: Global, path: &[u32]) -> Result<Option<u32>, Memory>
        ensures { IfOk result (λ found. found ≡ index_at self.now (path_behind path.now)) }
    {
        let to = path_behind(alloc, path)?;
        Ok(self.at(to.as_slice()))
    }

    /// That of the cut inside the instruction of this path, to which these numbers lead on.
    ///
    /// # Errors
    ///
    /// `Memory` where there is no room for its path.
    pub fn inside(&self, alloc: Global, path: &[u32], added: &[u32]) -> Result<Option<u32>, Memory>
        ensures { IfOk result (λ found. found ≡ index_at self.now (path.now ++ added.now)) }
    {
        let mut to = Vec::from_slice(alloc, path)?;
        to.extend_from_slice(added)?;
        Ok(self.at(to.as_slice()))
    }

    /// That of the cut to which a branch to the label of a block at this path leads.
    ///
    /// # Errors
    ///
    /// `Memory` where there is no room for its path.
    pub fn landing(&self, alloc: Global, block: &Instr, path: &[u32]) -> Result<Option<u32>, Memory>
        ensures { IfOk result (λ found. found ≡ index_at self.now (landing_path (op_of block.now) path.now)) }
    {
        match block {
            Instr::Loop { .. } => self.inside(alloc, path, &[0]),
            _ => self.behind(alloc, path),
        }
    }
}
