// Whether an item is what an import wants.
ghost use Rattle.std.specs.Prelude.{◌≡◌, ◌≤◌, ◌↔◌, [], IsTrue, Some, length, slice_get};
ghost use Rattle.std.specs.Option.{option_copied};
ghost use Rattle.wm_match.specs.Binds.{IsMostWithin, AreLimitsWithin, Matches, type_of, table_of, memory_of};
ghost use Rattle.wm_match.specs.Cause.{program};
ghost use Rattle.wm_match.specs.Program.{modules_of};

use crate::{Binding, Library};
use wm_ast::{FuncType, Imported, Limits, Module, are_same};

/// The module of this number.
#[tactic(auto, using(crate::proofs::ModuleLaws::library_module, crate::proofs::ModuleLaws::main_module))]
pub fn module_of<'a>(libs: &'a [Library], main: &'a Module, k: usize) -> &'a Module
    requires { k ≤ length libs.now }
    ensures { slice_get (modules_of libs.now main.now) k ≡ Some result.now }
{
    if k < libs.len() {
        let library = &libs[k];
        &library.module
    } else {
        main
    }
}

/// The module of this number, where there is one.
#[tactic(auto, using(crate::proofs::ModuleLaws::no_module))]
fn module_at<'a>(libs: &'a [Library], main: &'a Module, k: usize) -> Option<&'a Module>
    ensures { option_copied result ≡ slice_get (modules_of libs.now main.now) k }
{
    if k <= libs.len() {
        Some(module_of(libs, main, k))
    } else {
        None
    }
}

/// Whether what the binding tells is what an import of the module wants.
pub(crate) fn matches(
    libs: &[Library],
    main: &Module,
    m: &Module,
    what: Imported,
    b: Binding,
) -> bool
    ensures { IsTrue result ↔ Matches (program libs.now main.now []) m.now what b }
{
    match what {
        Imported::Func(t) => match (m.types.get(t as usize), type_of(libs, main, b)) {
            (Some(wanted), Some(ty)) => is_same(wanted, ty),
            _ => false,
        },
        Imported::Table(wanted) => match table_of(libs, main, b) {
            Some(limits) => are_limits_within(wanted, limits),
            None => false,
        },
        Imported::Memory(wanted) => match memory_of(libs, main, b) {
            Some(limits) => are_limits_within(wanted, limits),
            None => false,
        },
        Imported::Global { .. } => false,
    }
}

#[tactic(auto, using(crate::proofs::MatchingLaws::params_differ, crate::proofs::MatchingLaws::same_by_results))]
fn is_same(first: &FuncType, second: &FuncType) -> bool
    ensures { IsTrue result ↔ (first.now ≡ second.now) }
{
    are_same(first.params.as_slice(), second.params.as_slice())
        && are_same(first.results.as_slice(), second.results.as_slice())
}

fn type_of<'a>(libs: &'a [Library], main: &'a Module, b: Binding) -> Option<&'a FuncType>
    ensures { option_copied result ≡ type_of (program libs.now main.now []) b }
{
    let m = module_at(libs, main, b.module as usize)?;
    let func = m.funcs.get(b.index as usize)?;
    m.types.get(func.kind as usize)
}

fn table_of(libs: &[Library], main: &Module, b: Binding) -> Option<Limits>
    ensures { result ≡ table_of (program libs.now main.now []) b }
{
    let m = module_at(libs, main, b.module as usize)?;
    m.tables.get(b.index as usize).copied()
}

fn memory_of(libs: &[Library], main: &Module, b: Binding) -> Option<Limits>
    ensures { result ≡ memory_of (program libs.now main.now []) b }
{
    let m = module_at(libs, main, b.module as usize)?;
    m.mems.get(b.index as usize).copied()
}

fn are_limits_within(wanted: Limits, limits: Limits) -> bool
    ensures { IsTrue result ↔ AreLimitsWithin wanted limits }
{
    wanted.min <= limits.min && is_most_within(wanted.max, limits.max)
}

fn is_most_within(wanted: Option<u32>, most: Option<u32>) -> bool
    ensures { IsTrue result ↔ IsMostWithin wanted most }
{
    match (wanted, most) {
        (None, _) => true,
        (Some(_), None) => false,
        (Some(wanted), Some(most)) => most <= wanted,
    }
}
