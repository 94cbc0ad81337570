// Which function a call through the table reaches.
ghost use Rattle.std.specs.Prelude.{◌≡◌, ◌+◌, ◌++◌, ◌∷◌, [], map, pos, slice_get, IfOk, Some, None};
ghost use Rattle.wm_ast.specs.Instance.{first_store};
ghost use Rattle.wm_ast.specs.Step.{checked};
ghost use Rattle.cc_line.specs.BlockView.{block_items};
ghost use Rattle.cc_line.specs.View.{steps_view};
ghost use Rattle.cc_call.specs.Frames.{first_opening};
ghost use Rattle.cc_table.specs.Target as spec;

use crate::looking::look_by;
use cc_call::opening_piece;
use cc_line::{Act, Block, Check, Cond, Conds, Name, PieceId, Scratch, Spot, Step, int_of};
use mc_cmd::{Op, Range};
use mc_nbt::Memory;
use std::alloc::Global;
use wm_ast::{FuncType, Module, are_same};

// Where an element leads to no function, its number is that of the trap, taken below 0.
const UNDEFINED_ELEMENT: i32 = -5;

const UNINITIALIZED_ELEMENT: i32 = -6;

const TYPE_MISMATCH: i32 = -7;

// The type or the function isn't there.
const UNKNOWN: i32 = -1;

/// The items that find the function which the element has whose index stands in a place. Where it has the type of the
/// index `ty`, the index of the shared piece with which it opens comes to `#c`; else a trap is recorded, and the items
/// end. `table` is the module's table in the first store.
///
/// # Errors
///
/// `Memory` where there is no room for them, there are 2^31 elements or more, or the number of a piece is no int.
pub fn call_target(
    alloc: Global,
    m: &Module,
    table: &[Option<u32>],
    ty: u32,
    place: u32,
) -> Result<Block, Memory>
    ensures { IfOk result (λ b. table.now ≡ (first_store m.now).table
        → block_items b ≡ spec.target_items m.now ty place) }
{
    let numbers = call_numbers(alloc, m, table, ty)?;
    let load = Step::Run(Act::LoadPlace {
        to: Scratch::A,
        place,
    });
    let before = Block::of_steps(alloc, &[load])?;
    let look = look_by(alloc, Name::Numbered("h_cc_call_", ty), numbers)?;
    let after = Block::of_steps(alloc, &refuse_steps())?;
    before.join(look.join(after)?)
}

// The numbers of these elements, and behind them that of none.
fn call_numbers(
    alloc: Global,
    m: &Module,
    table: &[Option<u32>],
    ty: u32,
) -> Result<Vec<i32>, Memory>
    ensures { IfOk result (λ zs. zs.items ≡ map (λ e. spec.element_number m.now ty (Some e)) table.now
        ++ spec.element_number m.now ty None ∷ []) }
{
    let mut numbers = Vec::new(alloc);
    for element in table {
        numbers.push(element_number(m, ty, Some(*element))?)?;
    }
    numbers.push(element_number(m, ty, None)?)?;
    Ok(numbers)
}

fn element_number(m: &Module, ty: u32, element: Option<Option<u32>>) -> Result<i32, Memory>
    ensures { IfOk result (λ z. z ≡ spec.element_number m.now ty element) }
{
    let Some(wanted) = m.types.get(ty as usize) else {
        return Ok(UNKNOWN);
    };
    match element {
        None => Ok(UNDEFINED_ELEMENT),
        Some(None) => Ok(UNINITIALIZED_ELEMENT),
        Some(Some(func)) => function_number(m, wanted, func),
    }
}

// The number of a function of the table, where this type is called.
fn function_number(m: &Module, wanted: &FuncType, func: u32) -> Result<i32, Memory>
    ensures { IfOk result (λ z. z ≡ spec.target_number (checked m.now wanted.now func (slice_get m.now.funcs func))) }
{
    let Some(called) = m.funcs.get(func as usize) else {
        return Ok(UNKNOWN);
    };
    let Some(found) = m.types.get(called.kind as usize) else {
        return Ok(UNKNOWN);
    };
    if are_same(found.params.as_slice(), wanted.params.as_slice())
        && are_same(found.results.as_slice(), wanted.results.as_slice())
    {
        opening_number(func)
    } else {
        Ok(TYPE_MISMATCH)
    }
}

// The index of the shared piece with which a function opens.
fn opening_number(func: u32) -> Result<i32, Memory>
    ensures { IfOk result (λ z. z ≡ pos (first_opening + func)) }
{
    match opening_piece(func)? {
        PieceId::Shared { index } => int_of(index),
        _ => unreachable!(),
    }
}

// A number below 0 in `#c` is a trap, which is recorded, and the list ends.
fn refuse_steps() -> [Step; 2]
    ensures { steps_view result ≡ spec.refuse_steps }
{
    let number = Spot::Scratch(Scratch::C);
    let refused = Conds::One(Cond::Holds(Check::InRange(number, Range::To(-1))));
    let record = Act::Combine {
        to: Spot::Scratch(Scratch::Trap),
        op: Op::Subtract,
        from: number,
    };
    [Step::When(refused, record), Step::StopWhen(refused)]
}
