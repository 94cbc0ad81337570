// The spaces of a module, and what their indices stand for.
ghost use Rattle.std.specs.Prelude.{◌≡◌, ◌++◌, slice_get};
ghost use Rattle.wm_match.specs.Space.{space_of, same_space, is_in, own_count, imported_items, own_items};
ghost use Rattle.wm_match.specs.Space.{space_size, items_of};
ghost use Rattle.wm_match.specs.Lists.{HasListsWithin};

use crate::Binding;
use wm_ast::{Import, Imported, Module, Space};

/// Whether the import takes an index in this space.
pub fn is_in(space: Space, import: &Import) -> bool
    ensures { result ≡ is_in space import.now }
{
    is_of(space, import.what)
}

fn is_of(space: Space, what: Imported) -> bool
    ensures { result ≡ same_space space (space_of what) }
{
    match (space, what) {
        (Space::Func, Imported::Func(_)) => true,
        (Space::Table, Imported::Table(_)) => true,
        (Space::Memory, Imported::Memory(_)) => true,
        (Space::Global, Imported::Global { .. }) => true,
        _ => false,
    }
}

/// How many items of the space the module defines.
pub fn own_count(m: &Module, space: Space) -> usize
    ensures { result ≡ own_count space m.now }
{
    match space {
        Space::Func => m.funcs.len(),
        Space::Table => m.tables.len(),
        Space::Memory => m.mems.len(),
        Space::Global => m.globals.len(),
    }
}

/// How many indices the space has.
#[tactic(auto, using(crate::proofs::SpaceLaws::size_short))]
pub(crate) fn size_of_space(m: &Module, space: Space) -> usize
    requires { HasListsWithin 1048576 m.now }
    ensures { result ≡ space_size space m.now }
{
    let imports = m.imports.as_slice();
    imports.iter().filter(|i| is_in(space, i)).count() + own_count(m, space)
}

/// What an index of module k stands for, where the module's imports are bound to `part`.
pub(crate) fn item_at(
    m: &Module,
    k: u32,
    part: &[Binding],
    space: Space,
    index: u32,
) -> Option<Binding>
    ensures { result ≡ slice_get (items_of space k m.now part.now) index }
{
    item_among(
        m.imports.as_slice(),
        part,
        space,
        k,
        own_count(m, space),
        index,
    )
}

// The same, by the imports and how many items the module defines.
#[tactic(auto, using(crate::proofs::SpaceLaws::import_steps))]
fn item_among(
    imports: &[Import],
    part: &[Binding],
    space: Space,
    k: u32,
    own: usize,
    index: u32,
) -> Option<Binding>
    ensures { result ≡ slice_get (imported_items space imports.now part.now ++ own_items k 0 own) index }
{
    let mut left = index;
    for n in 0..imports.len() {
        if n >= part.len() {
            break;
        }
        if is_in(space, &imports[n]) {
            if left == 0 {
                return Some(part[n]);
            }
            left -= 1;
        }
    }
    own_item(k, own, left)
}

/// An item that the module defines.
#[tactic(auto, using(crate::proofs::SpaceLaws::own_there, crate::proofs::SpaceLaws::own_past))]
pub(crate) fn own_item(k: u32, own: usize, index: u32) -> Option<Binding>
    ensures { result ≡ slice_get (own_items k 0 own) index }
{
    if (index as usize) < own {
        Some(Binding { module: k, index })
    } else {
        None
    }
}
