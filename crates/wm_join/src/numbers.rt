// The numbers that the indices of one module have in the joined module.
ghost use Rattle.std.specs.Prelude.{◌≡◌, ◌^◌, ◌<◌, ◌≤◌, IfOk, length, map};
ghost use Rattle.wm_match.specs.Binds.{Binds};
ghost use Rattle.wm_match.specs.Cause.{program};
ghost use Rattle.wm_match.specs.Program.{modules_of};
ghost use Rattle.wm_match.specs.Space.{imported_items};
ghost use Rattle.wm_join.specs.Numbering.{total};
ghost use Rattle.wm_join.specs.steps.Numbers.{AreCounts, AreIndices, AreNumbers, number_of, space_number};
ghost use Rattle.wm_join.specs.steps.Places.{binding_number};

use crate::counts::Counts;
use crate::place::Place;
use crate::placing::{item_number, place_of};
use mc_nbt::Memory;
use std::alloc::Global;
use wm_ast::{Import, Items, Module, Space};
use wm_match::{Binding, Library, is_in, module_of};

/// The numbers of the indices of a space in which items may be imported.
#[derive(Debug, Drop)]
pub(crate) struct Indices {
    /// The numbers of what is imported.
    imported: Vec<u32>,
    /// Where the items that the module defines stand.
    own: Place,
}

impl Indices {
    /// The number of an index. One that names nothing gets the number of all items.
    pub(crate) fn number(&self, index: u32) -> u32
        ensures { result ≡ number_of self.now index }
    {
        match self.imported.get(index as usize) {
            Some(number) => *number,
            None => self.own.number(index - self.imported.len() as u32),
        }
    }
}

/// The numbers of the indices of one module. No type and no global is imported.
#[derive(Debug, Drop)]
pub(crate) struct Numbers {
    pub(crate) types: Place,
    pub(crate) functions: Indices,
    pub(crate) tables: Indices,
    pub(crate) memories: Indices,
    pub(crate) globals: Place,
}

impl Numbers {
    /// The number of an index of the space.
    pub(crate) fn number(&self, space: Space, index: u32) -> u32
        ensures { result ≡ space_number self.now space index }
    {
        match space {
            Space::Func => self.functions.number(index),
            Space::Table => self.tables.number(index),
            Space::Memory => self.memories.number(index),
            Space::Global => self.globals.number(index),
        }
    }
}

/// The numbers of the indices of module k.
pub(crate) fn numbers_of(
    alloc: Global,
    libs: &[Library],
    main: &Module,
    bindings: &[Items<Binding>],
    counts: &Counts,
    k: usize,
) -> Result<Numbers, Memory>
    requires number { k ≤ length libs.now }
    requires binds { Binds (program libs.now main.now bindings.now) }
    requires counts { AreCounts (modules_of libs.now main.now) counts.now }
    ensures { IfOk result (λ x. AreNumbers (program libs.now main.now bindings.now) k x) }
{
    let m = module_of(libs, main, k);
    let part = bindings[k].as_slice();
    Ok(Numbers {
        types: place_of(counts.types.as_slice(), k),
        functions: indices_of(alloc, counts.functions.as_slice(), Space::Func, k, m, part)?,
        tables: indices_of(alloc, counts.tables.as_slice(), Space::Table, k, m, part)?,
        memories: indices_of(alloc, counts.memories.as_slice(), Space::Memory, k, m, part)?,
        globals: place_of(counts.globals.as_slice(), k),
    })
}

// The numbers of the indices of a space of module k, whose imports are bound to the part, by how many items each module
// defines in that space.
fn indices_of(
    alloc: Global,
    counts: &[u32],
    space: Space,
    k: usize,
    m: &Module,
    part: &[Binding],
) -> Result<Indices, Memory>
    requires few { total counts.now < 2 ^ 32 }
    requires number { k < length counts.now }
    requires parts { length part.now ≡ length m.now.imports }
    ensures { IfOk result (λ x. AreIndices counts.now space k m.now part.now x) }
{
    Ok(Indices {
        imported: imported_numbers(alloc, counts, space, m.imports.as_slice(), part)?,
        own: place_of(counts, k),
    })
}

fn imported_numbers(
    alloc: Global,
    counts: &[u32],
    space: Space,
    imports: &[Import],
    part: &[Binding],
) -> Result<Vec<u32>, Memory>
    requires few { total counts.now < 2 ^ 32 }
    requires parts { length part.now ≡ length imports.now }
    ensures { IfOk result (λ found.
        found.items ≡ map (binding_number counts.now) (imported_items space imports.now part.now)) }
{
    let mut found = Vec::new(alloc);
    for n in 0..imports.len() {
        if is_in(space, &imports[n]) {
            found.push(item_number(counts, part[n]))?;
        }
    }
    Ok(found)
}
