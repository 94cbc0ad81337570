// Calls, and what follows them.
ghost use Rattle.std.specs.Prelude.{◌≡◌, ◌++◌, option_copied, IfOk, OnOk};
ghost use Rattle.wm_ast.specs.View.{op_of};
ghost use Rattle.wm_place.specs.Stop.{visit_told};
ghost use Rattle.cc_cut.specs.Law.{widths};
ghost use Rattle.cc_body.specs.Behind.{call_before, call_type};
ghost use Rattle.cc_body.specs.Emit.{enter_acts, opens_here};
ghost use Rattle.cc_call.specs.View.{acts_view};
ghost use Rattle.cc_body.specs.steps.Emission.{call_acts, caller_acts, indirect_acts};
ghost use Rattle.cc_body.specs.steps.PieceBuilder.{ground};

use crate::act::push_named;
use crate::body::Body;
use crate::width::top;
use cc_call::{open_frame, opening_piece, pass_arguments, push_follows, push_frame, push_next};
use cc_cut::widths;
use cc_line::{Act, Key, PieceId, SCORE_PLACES, sum};
use cc_pieces::{Shape, are_many, fetch_piece, product, restore_piece};
use mc_nbt::Memory;
use wm_ast::{FuncType, Instr, Module};
use wm_place::Stop;

// The piece of a call makes the frame of its function where two for each place of a parameter and one for each other
// local that is a score are at most so many.
const MOST_OPENED: u32 = 34;

// The type of the function that a call calls.
fn call_type<'a>(m: &'a Module, instr: &Instr) -> Option<&'a FuncType>
    ensures { option_copied result ≡ call_type m.now (op_of instr.now) }
{
    match instr {
        Instr::Call(func) => {
            let func = m.funcs.get(*func as usize)?;
            m.types.get(func.kind as usize)
        }
        Instr::CallIndirect(index) => m.types.get(*index as usize),
        _ => None,
    }
}

/// The type of the call behind which a place stands, if it stands behind one.
pub(crate) fn call_before<'a>(m: &'a Module, stop: Stop<'_>) -> Option<&'a FuncType>
    ensures { option_copied result ≡ call_before m.now (visit_told stop.entry) }
{
    call_type(m, stop.before.last()?)
}

// Whether the piece of a call makes the frame of a function of this shape.
fn opens_here(shape: Shape) -> Result<bool, Memory>
    ensures { IfOk result (λ b. b ≡ opens_here shape.params shape.locals) }
{
    let zeros = shape.locals.min(SCORE_PLACES).saturating_sub(shape.params);
    let cost = sum(product(2, shape.params)?, zeros)?;
    Ok(cost <= MOST_OPENED)
}

// The frame of a function is made, now or by its own piece.
fn push_entering(func: u32, shape: Shape, acts: &mut Vec<Act>) -> Result<(), Memory>
    ensures { OnOk result (acts_view acts.new.items
        ≡ acts_view acts.old.items ++ enter_acts func shape.params shape.locals shape.size) }
{
    let Shape {
        params,
        locals,
        size,
        ..
    } = shape;
    if opens_here(shape)? {
        open_frame(params, locals, size, PieceId::Body { func, index: 1 }, acts)
    } else {
        push_next(opening_piece(func)?, acts)
    }
}

// The caller's frame is saved: the places below this one, where so many places of arguments that end there are to be
// fetched from them; else those under the arguments, and these are passed.
fn push_caller(
    body: &Body<'_>,
    stop: Stop<'_>,
    top: u32,
    params: u32,
    acts: &mut Vec<Act>,
) -> Result<(), Memory>
    ensures { OnOk result (acts_view acts.new.items ≡ acts_view acts.old.items
        ++ caller_acts (ground body.now) (visit_told stop.entry) top params) }
{
    let index = body.indices.behind(body.alloc, stop.path)?.unwrap_or(0);
    let restoring = restore_piece(body.func, index)?;
    if are_many(params) {
        push_frame(top, restoring, acts)?;
        push_follows(fetch_piece(body.func, index, 0)?, acts)
    } else {
        let in_use = top.saturating_sub(params);
        push_frame(in_use, restoring, acts)?;
        pass_arguments(in_use, params, acts)
    }
}

/// The acts of a call of the function of this index and this shape.
pub(crate) fn call_acts(
    body: &Body<'_>,
    stop: Stop<'_>,
    func: u32,
    shape: Shape,
) -> Result<Vec<Act>, Memory>
    ensures { IfOk result (λ acts. acts_view acts.items
        ≡ call_acts (ground body.now) (visit_told stop.entry) func shape) }
{
    let top = top(body, stop.kinds)?;
    let mut acts = Vec::new(body.alloc);
    push_caller(body, stop, top, shape.params, &mut acts)?;
    push_entering(func, shape, &mut acts)?;
    Ok(acts)
}

/// The acts of a call through the table of a function of this type, whose own piece was found.
pub(crate) fn indirect_acts(
    body: &Body<'_>,
    stop: Stop<'_>,
    ty: &FuncType,
) -> Result<Vec<Act>, Memory>
    ensures { IfOk result (λ acts. acts_view acts.items
        ≡ indirect_acts (ground body.now) (visit_told stop.entry) (widths ty.now.params)) }
{
    let params = widths(ty.params.as_slice())?;
    let index = top(body, stop.kinds)?.saturating_sub(1);
    let mut acts = Vec::new(body.alloc);
    push_caller(body, stop, index, params, &mut acts)?;
    push_named(Key::Next, PieceId::Shared { index: 0 }, &mut acts)?;
    Ok(acts)
}
