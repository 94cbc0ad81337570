ghost use Rattle.std.specs.Prelude.{◌≡◌, ◌≤◌, IfOk, length, All};
ghost use Rattle.wm_valid.specs.Valid.{Valid};
ghost use Rattle.wm_match.specs.Binds.{Binds};
ghost use Rattle.wm_match.specs.Cause.{program};
ghost use Rattle.wm_match.specs.Lists.{HasListsWithin};
ghost use Rattle.wm_match.specs.Program.{modules_of};
ghost use Rattle.wm_join.specs.Agree.{RunsAlike, BeginsAlike, CallsFollow, OutcomesAgree};
ghost use Rattle.wm_join.specs.Joined.{joined};
ghost use Rattle.wm_join.specs.steps.Numbers.{AreCounts};
ghost use Rattle.wm_join.specs.steps.Parts.{empty_module, joined_before};

use crate::adding::{add_exports, add_module};
use crate::counts::{Counts, counts_of};
use crate::numbers::numbers_of;
use crate::parts::start_with;
use mc_nbt::Memory;
use std::alloc::Global;
use wm_ast::{Items, Module};
use wm_match::{Binding, Bindings, Libraries, Library};

/// Joins linked modules into one module without imports, which does what they do. Its lists have the items of the
/// libraries, one library after the other, and of the main module behind them; its exports and its start function are
/// those of the main module.
///
/// # Errors
///
/// `Memory` where there is no room for the joined module.
pub fn join(
    alloc: Global,
    libs: &Libraries,
    main: &Module,
    bindings: &Bindings,
) -> Result<Module, Memory>
    requires count { 1 ≤ length libs.now × length libs.now ≤ 16 }
    requires short { All (HasListsWithin 1048576) (modules_of libs.now main.now) }
    requires binds { Binds (program libs.now main.now bindings.now) }
    ensures value { IfOk result (λ m. m ≡ joined (program libs.now main.now bindings.now)) }
    // What the joined module does is what the linked modules do: step by step, at the end of a call, and in the calls
    // that follow.
    ensures runs { RunsAlike (program libs.now main.now bindings.now) }
    ensures outcomes { OutcomesAgree (program libs.now main.now bindings.now) }
    ensures follow { CallsFollow (program libs.now main.now bindings.now) }
    // So it is of the first store, and of the call of the start function.
    ensures begins { Valid (joined (program libs.now main.now bindings.now))
        → BeginsAlike (program libs.now main.now bindings.now) }
{
    join_all(alloc, libs.as_slice(), main, bindings.as_slice())
}

fn join_all(
    alloc: Global,
    libs: &[Library],
    main: &Module,
    bindings: &[Items<Binding>],
) -> Result<Module, Memory>
    requires few { length libs.now ≤ 16 }
    requires short { All (HasListsWithin 1048576) (modules_of libs.now main.now) }
    requires binds { Binds (program libs.now main.now bindings.now) }
    ensures { IfOk result (λ m. m ≡ joined (program libs.now main.now bindings.now)) }
{
    let counts = counts_of(alloc, libs, main)?;
    let mut joined = join_libraries(alloc, libs, main, bindings, &counts)?;
    let numbers = numbers_of(alloc, libs, main, bindings, &counts, libs.len())?;
    add_module(alloc, &numbers, main, &mut joined)?;
    add_exports(&numbers, main.exports.as_slice(), &mut joined.exports)?;
    joined.start = start_with(&numbers, main.start);
    Ok(joined)
}

// The libraries alone, without exports and without a start function.
fn join_libraries(
    alloc: Global,
    libs: &[Library],
    main: &Module,
    bindings: &[Items<Binding>],
    counts: &Counts,
) -> Result<Module, Memory>
    requires binds { Binds (program libs.now main.now bindings.now) }
    requires counts { AreCounts (modules_of libs.now main.now) counts.now }
    ensures { IfOk result (λ m. m ≡ joined_before (program libs.now main.now bindings.now) (length libs.now)) }
{
    let mut joined = empty_module(alloc);
    for k in 0..libs.len() {
        let library = &libs[k];
        let numbers = numbers_of(alloc, libs, main, bindings, counts, k)?;
        add_module(alloc, &numbers, &library.module, &mut joined)?;
    }
    Ok(joined)
}

fn empty_module(alloc: Global) -> Module
    ensures { result ≡ empty_module }
{
    Module {
        types: Items::new(alloc),
        funcs: Items::new(alloc),
        tables: Items::new(alloc),
        mems: Items::new(alloc),
        globals: Items::new(alloc),
        exports: Items::new(alloc),
        start: None,
        elems: Items::new(alloc),
        datas: Items::new(alloc),
        imports: Items::new(alloc),
    }
}
