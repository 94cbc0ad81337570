// Lists of types.
ghost use Rattle.std.specs.Prelude.{◌≡◌};
ghost use Rattle.wm_ast.specs.Types.{same_types};

use crate::ValType;

/// Whether two lists of types are one.
pub fn are_same(first: &[ValType], second: &[ValType]) -> bool
    ensures { result ≡ same_types first.now second.now }
{
    first == second
}
