// The frames of functions.
ghost use Rattle.std.specs.Prelude.{◌≡◌, ℕ, Some, length, max, slice_get, IfOk};
ghost use Rattle.wm_ast.specs.Types.{results_of};
ghost use Rattle.wm_place.specs.Kinds.{first_of};
ghost use Rattle.wm_place.specs.Visit.{function_visits};
ghost use Rattle.cc_line.specs.Place.{score_places};
ghost use Rattle.cc_body.specs.Layout.{most_places};
ghost use Rattle.cc_body.specs.Placers.{some_place};
ghost use Rattle.cc_body.specs.steps.Sizing.{function_shape, passed, placers_in, shape_at, shape_of};

use crate::labels::places_value;
use cc_cut::widths;
use cc_line::{SCORE_PLACES, sum};
use cc_pieces::Shape;
use mc_nbt::Memory;
use std::alloc::Global;
use wm_ast::{Func, FuncType, ValType};
use wm_place::{Stop, Visitor, walk};
use wm_valid::{Typed, scope_of};

// Finds the most places that a body needs, besides those of its locals, and whether a shared piece puts a value to one.
#[derive(Clone, Copy)]
pub(crate) struct Sizing {
    locals: u32,
    results: u32,
    most: u32,
    places: bool,
}

impl Visitor for Sizing {
    ghost visit_gives = { λ s v t. t ≡ passed s v };

    fn visit(&mut self, stop: Stop<'_>) -> Result<(), Memory> {
        let top = sum(self.locals, widths(stop.kinds)?)?;
        self.most = top.max(self.most);
        self.places = self.places || places_value(self.results, stop);
        Ok(())
    }
}

// What is found in the body of the function of this index, which gives so many results, and whose locals have these
// types.
fn sized(
    alloc: Global,
    m: &Typed,
    func: u32,
    results: u32,
    locals: &[ValType],
) -> Result<Sizing, Memory>
    ensures most { IfOk result (λ s. max score_places s.most
        ≡ max score_places (most_places locals.now (function_visits m.now func))) }
    ensures places { IfOk result (λ s. s.places ≡ some_place results (function_visits m.now func)) }
{
    let locals = widths(locals)?;
    let mut sizing = Sizing {
        locals,
        results,
        most: locals,
        places: false,
    };
    walk(alloc, m, func, &mut sizing)?;
    Ok(sizing)
}

/// How many results the body of a function of this type gives.
pub(crate) fn body_results(ty: &FuncType) -> u32
    ensures { result ≡ length (results_of (first_of ty.now.results)) }
{
    match ty.results.as_slice().first() {
        Some(_) => 1,
        None => 0,
    }
}

// The shape of the function of this index; none where its type isn't there.
fn function_shape(alloc: Global, m: &Typed, func: u32, f: &Func) -> Result<Option<Shape>, Memory>
    requires { slice_get m.now.funcs func ≡ Some f.now }
    ensures { IfOk result (λ found. found ≡ function_shape m.now func f.now) }
{
    let module = m.module();
    let Some(ty) = module.types.get(f.kind as usize) else {
        return Ok(None);
    };
    // The type is there, so it has a scope.
    let Some(scope) = scope_of(alloc, module, f)? else {
        return Err(Memory);
    };
    let params = widths(ty.params.as_slice())?;
    let locals = widths(scope.locals.as_slice())?;
    let sizing = sized(alloc, m, func, body_results(ty), scope.locals.as_slice())?;
    let size = SCORE_PLACES.max(sizing.most);
    Ok(Some(Shape {
        params,
        locals,
        size,
        placers: if sizing.places { size } else { 0 },
    }))
}

/// The shapes of a module's functions.
#[derive(Drop)]
pub(crate) struct Shapes {
    shapes: Vec<Option<Shape>>,
}

impl Shapes {
    /// Those of this module. It goes through each body once.
    pub(crate) fn of_module(alloc: Global, m: &Typed) -> Result<Shapes, Memory>
        ensures { IfOk result (λ t. (n : ℕ) → shape_at t n ≡ shape_of m.now n) }
    {
        let module = m.module();
        let mut shapes = Vec::new(alloc);
        for (index, f) in module.funcs.as_slice().iter().enumerate() {
            shapes.push(function_shape(alloc, m, index as u32, f)?)?;
        }
        Ok(Shapes { shapes })
    }

    /// That of the function of this index, if there is one.
    pub(crate) fn get(&self, func: u32) -> Option<Shape>
        ensures { result ≡ shape_at self.now func }
    {
        *self.shapes.get(func as usize)?
    }

    /// To how many places the function of this index puts values by shared pieces.
    pub(crate) fn placers(&self, func: u32) -> u32
        ensures { result ≡ placers_in (shape_at self.now func) }
    {
        match self.get(func) {
            Some(shape) => shape.placers,
            None => 0,
        }
    }
}
