ghost use Rattle.std.specs.Prelude.{◌≤◌, length, All, OnOk, IfErr, MatchOption};
ghost use Rattle.wm_ast.specs.declared.module.Space.TheVariants as spaces;
ghost use Rattle.wm_match.specs.Binds.{NamesDiffer, ImportsNoGlobal, CanBeBound, defined};
ghost use Rattle.wm_match.specs.Cause.{AllBound, DefinesSecond, IsFirst, IsCause, IsResolved};
ghost use Rattle.wm_match.specs.Closed.{Closed};
ghost use Rattle.wm_match.specs.Lists.{HasListsWithin};
ghost use Rattle.wm_match.specs.Program.{modules_of};
ghost use Rattle.wm_match.specs.steps.Checking.{IsGlobalAt, DefinesOneAtMost};

use crate::binding::bind_all;
use crate::closed::is_closed;
use crate::matching::module_of;
use crate::naming::has_earlier_name;
use crate::space::{is_in, own_count};
use crate::{Bindings, Libraries, Library, MatchFault, Single};
use std::alloc::Global;
use wm_ast::{Module, Space};

/// Finds what each import is bound to: an item of a library with a smaller number than the importing module. The
/// main module comes behind the libraries.
///
/// # Errors
///
/// The first of these causes, each at the first place in order of modules and then of imports:
///
/// - `SameName` exactly where a library has the name of an earlier one.
/// - `GlobalImport` exactly where an import is a global.
/// - `NotClosed` exactly where a module isn't closed.
/// - `Start` exactly where a library has a start function.
/// - `Unknown` exactly where no earlier library of the name that the first import that doesn't bind tells has an export
///   of the name that it tells; `Mismatch` exactly where one has and its kind or type isn't that of the import.
/// - `Second` exactly where two modules define a memory, else where two define a table; the second one.
///
/// `Memory` may come at any point.
pub fn resolve(alloc: Global, libs: &Libraries, main: &Module) -> Result<Bindings, MatchFault>
    requires count { 1 ≤ length libs.now × length libs.now ≤ 16 }
    requires short { All (HasListsWithin 1048576) (modules_of libs.now main.now) }
    // Each answer tells what the modules are. No two of them can be true of them: `resolve_has_one_answer`.
    ensures { IsResolved libs.now main.now result }
{
    resolve_all(alloc, libs.as_slice(), main)
}

#[tactic(auto, using(crate::proofs::PassLaws::links))]
fn resolve_all(alloc: Global, libs: &[Library], main: &Module) -> Result<Bindings, MatchFault>
    requires few { length libs.now ≤ 16 }
    requires short { All (HasListsWithin 1048576) (modules_of libs.now main.now) }
    ensures { IsResolved libs.now main.now result }
{
    check_names(libs, main)?;
    check_globals(libs, main)?;
    check_closed(alloc, libs, main)?;
    check_starts(libs, main)?;
    let bindings = bind_all(alloc, libs, main)?;
    check_memories(libs, main)?;
    check_tables(libs, main)?;
    Ok(bindings)
}

// No library has the name of an earlier one.
fn check_names(libs: &[Library], main: &Module) -> Result<(), MatchFault>
    requires few { length libs.now ≤ 16 }
    ensures ok { OnOk result (NamesDiffer libs.now) }
    ensures err { IfErr result (λ fault. IsCause libs.now main.now fault) }
{
    for k in 0..libs.len() {
        if has_earlier_name(libs, k) {
            return Err(MatchFault::SameName { module: k as u32 });
        }
    }
    Ok(())
}

// No import is a global.
#[tactic(auto, using(crate::proofs::PassLaws::module_steps))]
fn check_globals(libs: &[Library], main: &Module) -> Result<(), MatchFault>
    requires few { length libs.now ≤ 16 }
    requires short { All (HasListsWithin 1048576) (modules_of libs.now main.now) }
    requires names { NamesDiffer libs.now }
    ensures ok { OnOk result (All ImportsNoGlobal (modules_of libs.now main.now)) }
    ensures err { IfErr result (λ fault. IsCause libs.now main.now fault) }
{
    for k in 0..libs.len() + 1 {
        let m = module_of(libs, main, k);
        if let Some(n) = first_global(m) {
            return Err(MatchFault::GlobalImport {
                module: k as u32,
                import: n,
            });
        }
    }
    Ok(())
}

// The first import that is a global.
#[tactic(auto, using(crate::proofs::PassLaws::global_steps))]
fn first_global(m: &Module) -> Option<u32>
    requires { HasListsWithin 1048576 m.now }
    ensures { MatchOption result (ImportsNoGlobal m.now) (IsFirst (IsGlobalAt m.now)) }
{
    for (n, import) in m.imports.as_slice().iter().enumerate() {
        if is_in(Space::Global, import) {
            return Some(n as u32);
        }
    }
    None
}

// All modules are closed.
#[tactic(auto, using(crate::proofs::PassLaws::module_steps, crate::proofs::PassLaws::closed_cause))]
fn check_closed(alloc: Global, libs: &[Library], main: &Module) -> Result<(), MatchFault>
    requires few { length libs.now ≤ 16 }
    requires short { All (HasListsWithin 1048576) (modules_of libs.now main.now) }
    requires names { NamesDiffer libs.now }
    requires no_global { All ImportsNoGlobal (modules_of libs.now main.now) }
    ensures ok { OnOk result (All Closed (modules_of libs.now main.now)) }
    ensures err { IfErr result (λ fault. IsCause libs.now main.now fault) }
{
    for k in 0..libs.len() + 1 {
        let m = module_of(libs, main, k);
        if !is_closed(alloc, m)? {
            return Err(MatchFault::NotClosed { module: k as u32 });
        }
    }
    Ok(())
}

// No library has a start function.
#[tactic(auto, using(crate::proofs::PassLaws::module_steps, crate::proofs::PassLaws::start_cause))]
fn check_starts(libs: &[Library], main: &Module) -> Result<(), MatchFault>
    requires few { length libs.now ≤ 16 }
    requires names { NamesDiffer libs.now }
    requires no_global { All ImportsNoGlobal (modules_of libs.now main.now) }
    requires closed { All Closed (modules_of libs.now main.now) }
    ensures ok { OnOk result (CanBeBound libs.now main.now) }
    ensures err { IfErr result (λ fault. IsCause libs.now main.now fault) }
{
    for k in 0..libs.len() {
        let library = &libs[k];
        if library.module.start.is_some() {
            return Err(MatchFault::Start { module: k as u32 });
        }
    }
    Ok(())
}

// At most one module defines a memory.
#[tactic(auto, using(crate::proofs::PassLaws::one_memory_each))]
fn check_memories(libs: &[Library], main: &Module) -> Result<(), MatchFault>
    requires few { length libs.now ≤ 16 }
    requires can { CanBeBound libs.now main.now }
    requires bound { AllBound libs.now main.now }
    ensures ok { OnOk result (defined spaces.Memory (modules_of libs.now main.now) ≤ 1) }
    ensures err { IfErr result (λ fault. IsCause libs.now main.now fault) }
{
    match second(libs, main, Space::Memory) {
        Some(module) => Err(MatchFault::Second {
            module,
            single: Single::Memory,
        }),
        None => Ok(()),
    }
}

// At most one module defines a table.
#[tactic(auto, using(crate::proofs::PassLaws::one_table_each))]
fn check_tables(libs: &[Library], main: &Module) -> Result<(), MatchFault>
    requires few { length libs.now ≤ 16 }
    requires can { CanBeBound libs.now main.now }
    requires bound { AllBound libs.now main.now }
    requires memories { defined spaces.Memory (modules_of libs.now main.now) ≤ 1 }
    ensures ok { OnOk result (defined spaces.Table (modules_of libs.now main.now) ≤ 1) }
    ensures err { IfErr result (λ fault. IsCause libs.now main.now fault) }
{
    match second(libs, main, Space::Table) {
        Some(module) => Err(MatchFault::Second {
            module,
            single: Single::Table,
        }),
        None => Ok(()),
    }
}

// The first module that defines an item of the space where an earlier one does.
#[tactic(auto, using(crate::proofs::PassLaws::second_steps))]
fn second(libs: &[Library], main: &Module, space: Space) -> Option<u32>
    requires few { length libs.now ≤ 16 }
    requires one { All (DefinesOneAtMost space) (modules_of libs.now main.now) }
    ensures { MatchOption result
        (defined space (modules_of libs.now main.now) ≤ 1) (IsFirst (DefinesSecond libs.now main.now space)) }
{
    let mut earlier = 0usize;
    for k in 0..libs.len() + 1 {
        let m = module_of(libs, main, k);
        let own = own_count(m, space);
        if own > 0 && earlier > 0 {
            return Some(k as u32);
        }
        earlier += own;
    }
    None
}
