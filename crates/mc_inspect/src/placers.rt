// To how many places a function puts values of branches by shared pieces.
ghost use Rattle.std.specs.Prelude.{◌≡◌, length, IfOk};
ghost use Rattle.wm_ast.specs.Types.{results_of};
ghost use Rattle.wm_ast.specs.View.{code_of, op_of};
ghost use Rattle.wm_place.specs.Kinds.{first_of};
ghost use Rattle.wm_place.specs.Spot.{arity_of};
ghost use Rattle.wm_place.specs.Stop.{visit_told};
ghost use Rattle.cc_body.specs.Layout.{frame_size};
ghost use Rattle.cc_body.specs.Placers.{code_places, function_placers, label_count};
ghost use Rattle.mc_inspect.specs.steps.Placers.{passed};

use cc_cut::labelled;
use mc_nbt::Memory;
use std::alloc::Global;
use wm_ast::{FuncType, Instr, ValType};
use wm_place::{Stop, Visitor, walk};
use wm_valid::Typed;

// A br_table of up to so many labels is a chain of tests; a longer one looks its label up.
const MOST_TESTED: usize = 17;

fn gives(ty: Option<ValType>) -> usize
    ensures { result ≡ length (results_of ty) }
{
    match ty {
        Some(_) => 1,
        None => 0,
    }
}

// How many operands a branch to the label of a block takes along.
fn arity(block: &Instr) -> usize
    ensures { result ≡ arity_of (op_of block.now) }
{
    match block {
        Instr::Block { ty, .. } => gives(*ty),
        Instr::If { ty, .. } => gives(*ty),
        _ => 0,
    }
}

// How many values a branch to a label takes along, in a function whose body gives so many.
fn label_count(results: u32, stop: Stop<'_>, label: u32) -> usize
    ensures { result ≡ label_count results (visit_told stop.entry) label }
{
    match labelled(stop.levels, label) {
        Some(level) => arity(level.block),
        None => results as usize,
    }
}

// Whether a place has a br_table that looks its label up, and takes a value along.
fn places_value(results: u32, stop: Stop<'_>) -> bool
    ensures { result ≡ code_places results (visit_told stop.entry) (code_of stop.entry.rest.now) }
{
    match stop.rest.first() {
        Some(Instr::BrTable { labels, last }) => {
            labels.len() > MOST_TESTED && label_count(results, stop, *last) > 0
        }
        _ => false,
    }
}

// Looks for such a place in a body that gives so many results.
#[derive(Clone, Copy)]
struct Finding {
    results: u32,
    found: bool,
}

impl Visitor for Finding {
    ghost visit_gives = { λ s v t. t ≡ passed s v };

    fn visit(&mut self, stop: Stop<'_>) -> Result<(), Memory> {
        self.found = self.found || places_value(self.results, stop);
        Ok(())
    }
}

// How many results the body of a function of this type gives.
fn body_results(ty: &FuncType) -> u32
    ensures { result ≡ length (results_of (first_of ty.now.results)) }
{
    match ty.results.as_slice().first() {
        Some(_) => 1,
        None => 0,
    }
}

/// To how many places the function of this index, whose frame has this size, puts values by shared pieces: all of them,
/// or none.
pub(crate) fn function_placers(
    alloc: Global,
    m: &Typed,
    func: u32,
    size: u32,
) -> Result<u32, Memory>
    requires { size ≡ frame_size m.now func }
    ensures { IfOk result (λ n. n ≡ function_placers m.now func) }
{
    let module = m.module();
    let Some(f) = module.funcs.get(func as usize) else {
        return Ok(0);
    };
    let Some(ty) = module.types.get(f.kind as usize) else {
        return Ok(0);
    };
    let mut finding = Finding {
        results: body_results(ty),
        found: false,
    };
    walk(alloc, m, func, &mut finding)?;
    Ok(if finding.found { size } else { 0 })
}
