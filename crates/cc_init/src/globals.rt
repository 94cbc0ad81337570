// The globals of a module, as instantiation appends them.
ghost use Rattle.std.specs.Prelude.{◌≡◌, IfOk};
ghost use Rattle.cc_init.specs.Init as init;

use mc_nbt::Memory;
use wm_ast::Module;

/// So many are appended by one piece.
pub(crate) const GLOBALS_OF_PIECE: u32 = 140;

/// The pieces that append globals; no memory where their number is no int.
pub(crate) fn global_pieces(m: &Module) -> Result<u32, Memory>
    ensures { IfOk result (λ n. n ≡ init.global_pieces m.now) }
{
    let count = m.globals.len();
    if count >= 1_000_000 {
        return Err(Memory);
    }
    Ok((count as u32 + 139) / GLOBALS_OF_PIECE)
}
