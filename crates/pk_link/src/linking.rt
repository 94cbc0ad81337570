// From a module to its pack.
ghost use Rattle.std.specs.Prelude.{◌≡◌, IfOk, None, OnOk, map, true};
ghost use Rattle.mc_cmd.specs.Packing.{are_lines, is_pack_namespace, refusal, with_function};
ghost use Rattle.mc_cmd.specs.Word.{is_function_name};
ghost use Rattle.cc_line.specs.BlockView.{functions_view};
ghost use Rattle.pk_link.specs.Functions.{entry};
ghost use Rattle.pk_link.specs.Linked.{IsPackFor};
ghost use Rattle.pk_link.specs.steps.Adding.{AreTaken};

use crate::functions::functions_of;
use crate::index::index_of;
use cc_line::{Function, Functions};
use mc_cmd::{AddFault, Index, Pack};
use mc_nbt::{Memory, Text};
use std::alloc::Global;
use wm_valid::Typed;

/// Links a module into a pack of the namespace.
///
/// The pack agrees with the module over every schedule and piece after piece, and can be resumed. Each of its functions
/// has at most 16,777,216 bytes in a file. None of its lines has a line feed, nor names an objective, a storage or a function of
/// somebody else.
///
/// # Errors
///
/// `Memory` where there is no room for the pack.
pub fn link(alloc: Global, m: &Typed, ns: &Text) -> Result<Pack, Memory>
    requires { is_pack_namespace ns.now ≡ true }
    ensures { IfOk result (IsPackFor ns.now m.now) }
{
    let functions = functions_of(alloc, m, ns)?;
    let index = index_of(alloc, m.module(), ns)?;
    let pack = pack_of(alloc, index, functions)?;
    Ok(pack)
}

// The pack of the index with these functions.
fn pack_of(alloc: Global, index: Index, functions: Functions) -> Result<Pack, Memory>
    requires namespace { is_pack_namespace index.ns ≡ true }
    requires functions { AreTaken (functions_view functions) }
    ensures { IfOk result (λ pack. pack ≡ record { index = index; functions = map entry (functions_view functions) }) }
{
    let mut pack = Pack::new(alloc, index);
    for function in functions.into_vec() {
        add(&mut pack, function)?;
    }
    Ok(pack)
}

// Adds a function, which the pack hasn't.
fn add(pack: &mut Pack, function: Function) -> Result<(), Memory>
    requires name { is_function_name function.name ≡ true }
    requires lines { are_lines function.lines ≡ true }
    requires absent { refusal pack.old function.name ≡ None }
    ensures { OnOk result (pack.new ≡ with_function pack.old function.name function.lines) }
{
    match pack.add(function.name, function.lines) {
        Ok(()) => Ok(()),
        Err(AddFault::Memory) => Err(Memory),
        Err(AddFault::Twice | AddFault::Full) => unreachable!(),
    }
}
