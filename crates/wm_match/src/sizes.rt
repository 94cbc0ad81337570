ghost use Rattle.std.specs.Prelude.{◌≡◌};
ghost use Rattle.wm_match.specs.Closed.{sizes_of};
ghost use Rattle.wm_match.specs.Lists.{HasListsWithin};

use crate::space::size_of_space;
use wm_ast::{Module, Space};

/// How many indices each space of a module has, imported items counted.
#[derive(Clone, Copy, Debug)]
pub(crate) struct Sizes {
    pub(crate) types: usize,
    pub(crate) functions: usize,
    pub(crate) tables: usize,
    pub(crate) memories: usize,
    pub(crate) globals: usize,
}

/// The sizes of the module's spaces.
pub(crate) fn sizes_of(m: &Module) -> Sizes
    requires { HasListsWithin 1048576 m.now }
    ensures { result ≡ sizes_of m.now }
{
    Sizes {
        types: m.types.len(),
        functions: size_of_space(m, Space::Func),
        tables: size_of_space(m, Space::Table),
        memories: size_of_space(m, Space::Memory),
        globals: size_of_space(m, Space::Global),
    }
}
