// How many items of its own each module has.
ghost use Rattle.std.specs.Prelude.{◌≡◌, ◌≤◌, IfOk, length, All};
ghost use Rattle.wm_match.specs.Lists.{HasListsWithin};
ghost use Rattle.wm_match.specs.Program.{modules_of};
ghost use Rattle.wm_match.specs.Space.{own_count};
ghost use Rattle.wm_join.specs.steps.Numbers.{own_types, IsCount, AreCounts};

use mc_nbt::Memory;
use std::alloc::Global;
use wm_ast::{Module, Space};
use wm_match::{Library, own_count};

/// How many items of each kind the modules define, module by module.
#[derive(Debug, Drop)]
pub(crate) struct Counts {
    pub(crate) types: Vec<u32>,
    pub(crate) functions: Vec<u32>,
    pub(crate) tables: Vec<u32>,
    pub(crate) memories: Vec<u32>,
    pub(crate) globals: Vec<u32>,
}

/// The counts of the libraries and of the main module behind them.
pub(crate) fn counts_of(alloc: Global, libs: &[Library], main: &Module) -> Result<Counts, Memory>
    requires few { length libs.now ≤ 16 }
    requires short { All (HasListsWithin 1048576) (modules_of libs.now main.now) }
    ensures { IfOk result (λ c. AreCounts (modules_of libs.now main.now) c) }
{
    Ok(Counts {
        types: type_counts(alloc, libs, main)?,
        functions: own_counts(alloc, libs, main, Space::Func)?,
        tables: own_counts(alloc, libs, main, Space::Table)?,
        memories: own_counts(alloc, libs, main, Space::Memory)?,
        globals: own_counts(alloc, libs, main, Space::Global)?,
    })
}

fn type_counts(alloc: Global, libs: &[Library], main: &Module) -> Result<Vec<u32>, Memory>
    requires few { length libs.now ≤ 16 }
    requires short { All (HasListsWithin 1048576) (modules_of libs.now main.now) }
    ensures { IfOk result (λ counts. IsCount own_types (modules_of libs.now main.now) counts.items) }
{
    let mut counts = Vec::new(alloc);
    for library in libs {
        counts.push(type_count(&library.module))?;
    }
    counts.push(type_count(main))?;
    Ok(counts)
}

fn type_count(m: &Module) -> u32
    requires { HasListsWithin 1048576 m.now }
    ensures { result ≡ own_types m.now }
{
    m.types.len() as u32
}

// How many items of the space each module defines.
fn own_counts(
    alloc: Global,
    libs: &[Library],
    main: &Module,
    space: Space,
) -> Result<Vec<u32>, Memory>
    requires few { length libs.now ≤ 16 }
    requires short { All (HasListsWithin 1048576) (modules_of libs.now main.now) }
    ensures { IfOk result (λ counts. IsCount (own_count space) (modules_of libs.now main.now) counts.items) }
{
    let mut counts = Vec::new(alloc);
    for library in libs {
        counts.push(space_count(&library.module, space))?;
    }
    counts.push(space_count(main, space))?;
    Ok(counts)
}

#[tactic(auto, using(wm_match::proofs::SpaceLaws::own_short))]
fn space_count(m: &Module, space: Space) -> u32
    requires { HasListsWithin 1048576 m.now }
    ensures { result ≡ own_count space m.now }
{
    own_count(m, space) as u32
}
