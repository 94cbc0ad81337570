// The functions of the pack of a module.
ghost use Rattle.std.specs.Prelude.{◌≡◌, ◌≤◌, ◌+◌, ◌++◌, IfOk, OnOk, map};
ghost use Rattle.mc_cmd.specs.declared.TheConstants.{PIECE};
ghost use Rattle.wm_ast.specs.Instance as instance;
ghost use Rattle.cc_line.specs.BlockView.{functions_view};
ghost use Rattle.cc_sched.specs.Pieces.{turn_weight};
ghost use Rattle.cc_pieces.specs.Parts.{parts_view};
ghost use Rattle.pk_agree.specs.Heaviest.{pack_parts, parts_most};
ghost use Rattle.pk_link.specs.Functions as spec;

use crate::naming::piece_name;
use cc_body::{compile, helpers_of};
use cc_init::init_parts;
use cc_line::{Function, Functions};
use cc_pieces::Part;
use cc_sched::{TURN_WEIGHT, emit};
use mc_nbt::{Memory, Text};
use std::alloc::Global;
use wm_ast::{Module, Space};
use wm_valid::Typed;

// The functions of the scheduler, those of the pieces, and the helpers that these call.
pub(crate) fn functions_of(alloc: Global, m: &Typed, ns: &Text) -> Result<Functions, Memory>
    ensures { IfOk result (λ fs. functions_view fs ≡ spec.pack_functions m.now ns.now) }
{
    let exports = exported_functions(alloc, m.module())?;
    let parts = parts_of(alloc, m)?;
    let heaviest = heaviest_of(parts.as_slice());
    let mut functions = emit(alloc, ns, exports.as_slice(), heaviest)?;
    push_pieces(alloc, ns, parts.as_slice(), &mut functions)?;
    let helpers = helpers_of(alloc, parts.as_slice(), ns)?;
    push_functions(helpers, &mut functions)?;
    Ok(functions)
}

// The indices of the functions that are exported, in the order of the exports.
fn exported_functions(alloc: Global, m: &Module) -> Result<Vec<u32>, Memory>
    ensures { IfOk result (λ fs. fs.items ≡ instance.exported_functions m.now) }
{
    let mut functions = Vec::new(alloc);
    for export in m.exports.as_slice() {
        if export.space == Space::Func {
            functions.push(export.index)?;
        }
    }
    Ok(functions)
}

// The pieces of a module, those of instantiation first.
fn parts_of(alloc: Global, m: &Typed) -> Result<Vec<Part>, Memory>
    ensures { IfOk result (λ ps. parts_view ps.items ≡ pack_parts m.now) }
{
    let mut parts = init_parts(alloc, m.module())?;
    let mut others = compile(alloc, m)?.into_vec();
    parts.append(&mut others)?;
    Ok(parts)
}

// What the heaviest of these pieces weighs with a turn.
fn heaviest_of(parts: &[Part]) -> u32
    requires { parts_most (parts_view parts.now) + turn_weight ≤ PIECE }
    ensures { result ≡ parts_most (parts_view parts.now) + turn_weight }
{
    let mut most = 0u32;
    for part in parts {
        most = most.max(part.block.weight());
    }
    most + TURN_WEIGHT
}

// One function for each piece.
fn push_pieces(
    alloc: Global,
    ns: &Text,
    parts: &[Part],
    functions: &mut Functions,
) -> Result<(), Memory>
    ensures { OnOk result (functions_view functions.new
        ≡ functions_view functions.old ++ map (spec.piece_function ns.now) (parts_view parts.now)) }
{
    for part in parts {
        let name = piece_name(alloc, part.id)?;
        let lines = part.block.lines(alloc, ns)?;
        functions.push(Function { name, lines })?;
    }
    Ok(())
}

// Functions behind others.
fn push_functions(more: Functions, functions: &mut Functions) -> Result<(), Memory>
    ensures { OnOk result (functions_view functions.new ≡ functions_view functions.old ++ functions_view more) }
{
    for function in more.into_vec() {
        functions.push(function)?;
    }
    Ok(())
}
