// What is seen of a place of a body.
ghost use Rattle.std.specs.Prelude.{◌≡◌, ◌++◌, ◌∷◌, [], length, map, option_copied, IfOk};
ghost use Rattle.wm_ast.specs.Code.{constant_of};
ghost use Rattle.wm_ast.specs.View.{code_of, op_of};
ghost use Rattle.wm_place.specs.Stop.{level_told, visit_told};
ghost use Rattle.wm_view.specs.Seen.{constants, size};
ghost use Rattle.cc_body.specs.Behind.{call_before, call_type, division_before, division_of, op_division};
ghost use Rattle.cc_spots.specs.Spot.{left_round, spot_shown};
ghost use Rattle.cc_spots.specs.steps.Search.{behind_constants, opcode_of_first};

use crate::opcode::opcode_number;
use crate::spot::CutSpot;
use cc_line::sum;
use mc_nbt::{Kind, Memory, Value};
use std::alloc::Global;
use wm_ast::{BinaryOp, FuncType, Instr, Items, Module, Operator, ValType};
use wm_place::{Level, Stop};

// ---- what comes next

// The value of a constant.
fn constant_of(instr: &Instr) -> Option<Value>
    ensures { result ≡ constant_of (op_of instr.now) }
{
    match instr {
        Instr::Const(value) => Some(*value),
        _ => None,
    }
}

// The constants with which code begins.
fn constants(alloc: Global, code: &[Instr]) -> Result<Vec<Value>, Memory>
    ensures { IfOk result (λ vs. vs.items ≡ constants (code_of code.now)) }
{
    let mut values = Vec::new(alloc);
    for instr in code {
        let Some(value) = constant_of(instr) else {
            return Ok(values);
        };
        values.push(value)?;
    }
    Ok(values)
}

// What stands behind these, which are so many.
#[tactic(auto, using(crate::proofs::CodeLaws::behind_is, crate::proofs::CodeLaws::few_constants))]
fn behind_constants(code: &[Instr], count: usize) -> &[Instr]
    requires { count ≡ length (constants (code_of code.now)) }
    ensures { code_of result.now ≡ behind_constants (code_of code.now) }
{
    let (_, behind) = code.split_at(count);
    behind
}

// The opcode of the first instruction.
fn opcode_of_first(code: &[Instr]) -> Option<u16>
    ensures { result ≡ opcode_of_first (code_of code.now) }
{
    let first = code.first()?;
    Some(opcode_number(first))
}

// ---- what is left

// How many instructions these are.
#[tactic(auto, using(crate::proofs::CodeLaws::size_is))]
fn size(code: &[Instr]) -> Result<u32, Memory>
    ensures { IfOk result (λ n. n ≡ size (code_of code.now)) }
{
    match u32::try_from(code.len()) {
        Ok(count) => Ok(count),
        Err(_) => Err(Memory),
    }
}

// What is left in the sequences of these blocks and in the innermost one, where this stands behind its constants.
fn left(alloc: Global, levels: &[Level<'_>], behind: &[Instr]) -> Result<Vec<u32>, Memory>
    ensures { IfOk result (λ ns. ns.items ≡ left_round (map level_told levels.now) ++ size (code_of behind.now) ∷ []) }
{
    let mut left = Vec::new(alloc);
    for level in levels {
        left.push(sum(size(level.rest)?, 1)?)?;
    }
    left.push(size(behind)?)?;
    Ok(left)
}

// ---- what was before

// The type of the function that a call calls.
fn call_type<'a>(m: &'a Module, instr: &Instr) -> Option<&'a FuncType>
    ensures { option_copied result ≡ call_type m.now (op_of instr.now) }
{
    match instr {
        Instr::Call(func) => {
            let func = m.funcs.get(*func as usize)?;
            m.types.get(func.kind as usize)
        }
        Instr::CallIndirect(index) => m.types.get(*index as usize),
        _ => None,
    }
}

// The type of the call behind which a place stands, if it stands behind one.
fn call_before<'a>(m: &'a Module, stop: Stop<'_>) -> Option<&'a FuncType>
    ensures { option_copied result ≡ call_before m.now (visit_told stop.entry) }
{
    call_type(m, stop.before.last()?)
}

// A type of its own.
fn own_type(alloc: Global, ty: &FuncType) -> Result<FuncType, Memory>
    ensures { IfOk result (λ t. t ≡ ty.now) }
{
    Ok(FuncType {
        params: Items::from_vec(Vec::from_slice(alloc, ty.params.as_slice())?),
        results: Items::from_vec(Vec::from_slice(alloc, ty.results.as_slice())?),
    })
}

// The same of the call behind which a place stands.
fn own_call_before(alloc: Global, m: &Module, stop: Stop<'_>) -> Result<Option<FuncType>, Memory>
    ensures { IfOk result (λ call. call ≡ call_before m.now (visit_told stop.entry)) }
{
    match call_before(m, stop) {
        Some(ty) => Ok(Some(own_type(alloc, ty)?)),
        None => Ok(None),
    }
}

// The division of i64 that an operator is, if it is one.
fn division_of(operator: Operator) -> Option<BinaryOp>
    ensures { result ≡ division_of operator }
{
    match operator {
        Operator::Binary(Kind::I64, op) => { if op.divides() { Some(op) } else { None } }
        _ => None,
    }
}

fn op_division(instr: &Instr) -> Option<BinaryOp>
    ensures { result ≡ op_division (op_of instr.now) }
{
    match instr {
        Instr::Num(op) => division_of(op.operator()),
        _ => None,
    }
}

// The division behind which a place stands, if it stands behind one.
fn division_before(stop: Stop<'_>) -> Option<BinaryOp>
    ensures { result ≡ division_before (visit_told stop.entry) }
{
    op_division(stop.before.last()?)
}

// ---- all of it

/// What is seen of a place of a body whose locals have these types and whose frame has so many places.
///
/// # Errors
///
/// `Memory` where there is no room for it.
pub(crate) fn spot_shown(
    alloc: Global,
    m: &Module,
    locals: &[ValType],
    size: u32,
    stop: Stop<'_>,
) -> Result<CutSpot, Memory>
    ensures { IfOk result (λ x. x ≡ spot_shown m.now locals.now size (visit_told stop.entry)) }
{
    let constants = constants(alloc, stop.rest)?;
    let behind = behind_constants(stop.rest, constants.len());
    let left = left(alloc, stop.levels, behind)?;
    Ok(CutSpot {
        locals: Items::from_vec(Vec::from_slice(alloc, locals)?),
        kinds: Items::from_vec(Vec::from_slice(alloc, stop.kinds)?),
        size,
        constants: Items::from_vec(constants),
        next: opcode_of_first(behind),
        left: Items::from_vec(left),
        call: own_call_before(alloc, m, stop)?,
        division: division_before(stop),
    })
}
