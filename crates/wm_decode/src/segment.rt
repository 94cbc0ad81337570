// The parts of a module that hold instructions: globals, segments and functions, sections 5.5.9 and 5.5.12 to
// 5.5.14 of the WebAssembly Core Specification 1.0.
ghost use Rattle.std.specs.Prelude.{◌≡◌, ◌<◌, ◌^◌, nat_lt};
ghost use Rattle.wm_ast.specs.Part.{locals_count};
ghost use Rattle.wm_decode.specs.steps.Gives.{Gives};
ghost use Rattle.wm_decode.specs.steps.Listing.{whole as used_up};
ghost use Rattle.wm_decode.specs.steps.SegmentReading.{expression_at, global_at, elem_at, data_at, run_at, function_at, body_at};

use crate::fault::Fault;
use crate::instructions::expr;
use crate::operand::index;
use crate::part::{Part, counted, indices, list, whole};
use crate::types::{global_type, value_type};
use mc_nbt::Bytes;
use std::alloc::Global;
use wm_ast::{Data, Elem, Instrs, Run, Runs};

/// What the code section has of a function.
#[derive(Debug, Drop)]
pub(crate) struct Body {
    pub locals: Runs,
    pub body: Instrs,
}

// An expression (5.4.6).
#[tactic(auto, unfolding(crate::specs::steps::SegmentReading::expression_at))]
fn expression(alloc: Global, bytes: &[u8]) -> Result<(Instrs, &[u8]), Fault>
    ensures { Gives (λ x. (x.0, x.1.now)) result (expression_at bytes.now) }
{
    expr(alloc, bytes)
}

impl Part for wm_ast::Global {
    ghost at = { global_at };

    #[tactic(auto, unfolding(crate::specs::steps::SegmentReading::global_at))]
    fn read(alloc: Global, bytes: &[u8]) -> Result<(wm_ast::Global, &[u8]), Fault> {
        let (ty, mutable, rest) = global_type(bytes)?;
        let (init, rest) = expression(alloc, rest)?;
        Ok((wm_ast::Global { ty, mutable, init }, rest))
    }
}

impl Part for Elem {
    ghost at = { elem_at };

    #[tactic(auto, unfolding(crate::specs::steps::SegmentReading::elem_at))]
    fn read(alloc: Global, bytes: &[u8]) -> Result<(Elem, &[u8]), Fault> {
        let (table, rest) = index(bytes)?;
        let (offset, rest) = expression(alloc, rest)?;
        let (funcs, rest) = indices(alloc, rest)?;
        let elem = Elem {
            table,
            offset,
            funcs,
        };
        Ok((elem, rest))
    }
}

impl Part for Data {
    ghost at = { data_at };

    #[tactic(auto, unfolding(crate::specs::steps::SegmentReading::data_at))]
    fn read(alloc: Global, bytes: &[u8]) -> Result<(Data, &[u8]), Fault> {
        let (memory, rest) = index(bytes)?;
        let (offset, rest) = expression(alloc, rest)?;
        let (items, rest) = counted(rest)?;
        let bytes = Bytes::new(alloc, items)?;
        let data = Data {
            memory,
            offset,
            bytes,
        };
        Ok((data, rest))
    }
}

impl Part for Run {
    ghost at = { run_at };

    #[tactic(auto, unfolding(crate::specs::steps::SegmentReading::run_at))]
    fn read(_alloc: Global, bytes: &[u8]) -> Result<(Run, &[u8]), Fault> {
        let (count, rest) = index(bytes)?;
        let (ty, rest) = value_type(rest)?;
        Ok((Run { count, ty }, rest))
    }
}

// Whether there are fewer than 2^32 locals.
fn is_few(locals: &Runs) -> bool
    ensures { result ≡ nat_lt (locals_count locals.now) (2 ^ 32) }
{
    let runs = locals.as_slice();
    let mut count: u32 = 0;
    for run in runs {
        match count.checked_add(run.count) {
            Some(more) => count = more,
            None => return false,
        }
    }
    true
}

// A function without its size (5.5.13).
#[tactic(auto, unfolding(crate::specs::steps::SegmentReading::function_at))]
fn function(alloc: Global, bytes: &[u8]) -> Result<(Body, &[u8]), Fault>
    ensures { Gives (λ x. (x.0, x.1.now)) result (function_at bytes.now) }
{
    let (locals, rest) = list(alloc, bytes)?;
    let (body, rest) = expression(alloc, rest)?;
    if !is_few(&locals) {
        return Err(Fault::Malformed);
    }
    Ok((Body { locals, body }, rest))
}

// A function that is all of the bytes.
fn whole_function(alloc: Global, bytes: &[u8]) -> Result<Body, Fault>
    ensures { Gives (λ x. x) result (used_up (function_at bytes.now)) }
{
    let (body, rest) = function(alloc, bytes)?;
    whole(body, rest)
}

impl Part for Body {
    ghost at = { body_at };

    #[tactic(auto, unfolding(crate::specs::steps::SegmentReading::body_at))]
    fn read(alloc: Global, bytes: &[u8]) -> Result<(Body, &[u8]), Fault> {
        let (part, rest) = counted(bytes)?;
        let body = whole_function(alloc, part)?;
        Ok((body, rest))
    }
}
