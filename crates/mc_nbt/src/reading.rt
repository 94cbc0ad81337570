// Trees read from their spellings.
ghost use Rattle.std.specs.Prelude.{◌≡◌, IfOk, Some};
ghost use Rattle.mc_nbt.specs.Tree.{Tree};
ghost use Rattle.mc_nbt.specs.steps.Reading.{built};
ghost use Rattle.mc_nbt.specs.View.{view};
ghost use Rattle.mc_nbt.specs.ReadView.{ReadsTree};

use crate::build::build;
use crate::scan::{Scanned, scan};
use crate::{Memory, Nbt, SnbtFault};
use std::alloc::Global;

// The levels that a tree may have.
const MAX_DEPTH: usize = 64;

// The tree of a text that spells one.
fn build_spelled(alloc: Global, bytes: &[u8]) -> Result<Nbt, Memory>
    requires { (t : Tree) × (built bytes.now ≡ Some t) }
    ensures { IfOk result (λ t. built bytes.now ≡ Some (view t)) }
{
    match build(alloc, bytes)? {
        Some(tree) => Ok(tree),
        None => unreachable!(),
    }
}

/// The tree that the text spells. It is the only one, since no two trees have one spelling.
///
/// The text is looked through before a tree is made, so that none is made of a text that is refused.
///
/// # Errors
///
/// `Syntax` where the text spells no tree, `Depth` where its tree is more than 64 levels deep, `Memory` where
/// there is no room.
pub fn read(alloc: Global, bytes: &[u8]) -> Result<Nbt, SnbtFault>
    ensures { ReadsTree bytes.now result }
{
    match scan(alloc, bytes)? {
        Scanned::Broken { at } => Err(SnbtFault::Syntax { at: at as u64 }),
        Scanned::Whole { depth } => {
            if depth > MAX_DEPTH {
                return Err(SnbtFault::Depth);
            }
            Ok(build_spelled(alloc, bytes)?)
        }
    }
}
