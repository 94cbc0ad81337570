// The pieces of a module.
ghost use Rattle.std.specs.Prelude.{◌≡◌, ℕ, ◌++◌, ◌/◌, Some, length, map, slice_get, IfOk};
ghost use Rattle.wm_ast.specs.Instance.{first_store};
ghost use Rattle.wm_ast.specs.Types.{results_of, function_type};
ghost use Rattle.wm_place.specs.Kinds.{first_of};
ghost use Rattle.cc_line.specs.BlockView.{block_items, functions_view};
ghost use Rattle.cc_line.specs.Helpers.{each_once};
ghost use Rattle.cc_line.specs.Item.{no_more};
ghost use Rattle.cc_cut.specs.Law.{widths};
ghost use Rattle.cc_cut.specs.Piece.{function_pieces};
ghost use Rattle.cc_call.specs.Acts.{acts_then};
ghost use Rattle.cc_call.specs.Frames.{opening_piece as opening};
ghost use Rattle.cc_line.specs.Key.{body_piece};
ghost use Rattle.cc_pieces.specs.Fetching.{opened_acts};
ghost use Rattle.cc_pieces.specs.Parts.{part, part_view, parts_view};
ghost use Rattle.cc_body.specs.Parts.{function_parts, module_parts, parts_helpers, takers_of};
ghost use Rattle.cc_body.specs.steps.PartBuilder.{body_parts, lean_cuts as cuts_of, running, parts_from, typed_parts};
ghost use Rattle.cc_body.specs.steps.PieceBuilder.{ground, lean_function, made_lean};
ghost use Rattle.cc_body.specs.steps.Sizing.{shape_at, shape_of};

use crate::body::Body;
use crate::frame::{Shapes, body_results};
use crate::heights::cut_heights;
use crate::known_constants::KnownConstants;
use crate::lean_body::LeanBody;
use crate::part_builder::PartBuilder;
use crate::piece_builder::PieceBuilder;
use cc_call::opening_piece;
use cc_cut::{CutIndices, widths};
use cc_line::{Block, Functions};
use cc_pieces::{
    ARGS_OF_PIECE, Part, Parts, Shape, entry_part, opening_items, push_dones, push_grower,
    push_placers, push_takers,
};
use cc_table::first_table;
use mc_nbt::{Memory, Text};
use std::alloc::Global;
use wm_ast::{Func, FuncType, Items, Module, ValType};
use wm_place::walk;
use wm_valid::{Typed, scope_of};

// The lean items of a body's cuts.
fn lean_cuts(m: &Typed, body: Body<'_>) -> Result<Vec<Block>, Memory>
    ensures { IfOk result (λ bs. map block_items bs.items
        ≡ map (made_lean (ground body.entry)) (function_pieces m.now body.entry.func)) }
{
    let mut builder = PieceBuilder {
        body,
        spent: 0,
        opened: false,
        height: 0,
        stays: false,
        knowing: KnownConstants::nothing(body.alloc),
        left: None,
        items: Vec::new(body.alloc),
        cuts: Vec::new(body.alloc),
    };
    walk(body.alloc, m, body.func, &mut builder)?;
    builder.close()?;
    Ok(builder.cuts)
}

// The piece that makes the frame of a function of this shape in a call from inside.
fn opening_part(lean: &LeanBody<'_>, shape: Shape) -> Result<Part, Memory>
    ensures { IfOk result (λ p. part_view p ≡ part (opening lean.now.body.func) (running lean.now
        (acts_then (opened_acts shape.params shape.locals shape.size (body_piece lean.now.body.func 1)) no_more))) }
{
    let Body { alloc, func, .. } = lean.body;
    let items = opening_items(alloc, func, shape)?;
    lean.part(opening_piece(func)?, items)
}

// The pieces of a body's cuts, behind others.
fn cut_parts(m: &Typed, lean: LeanBody<'_>, parts: Vec<Part>) -> Result<Vec<Part>, Memory>
    ensures { IfOk result (λ ps. parts_view ps.items ≡ parts_view parts.items
        ++ parts_from lean.entry.body.module.now lean.entry.body.func lean.entry.body.size lean.entry.body.locals.now
        (running lean.entry) (cuts_of lean.entry) 1 (function_pieces m.now lean.entry.body.func)) }
{
    let mut builder = PartBuilder {
        lean,
        spent: 0,
        index: 0,
        parts,
    };
    walk(lean.body.alloc, m, lean.body.func, &mut builder)?;
    Ok(builder.parts)
}

// The pieces of a function of this shape and this type, which has this body.
fn body_parts(m: &Typed, body: Body<'_>, shape: Shape, ty: &FuncType) -> Result<Vec<Part>, Memory>
    ensures { IfOk result (λ ps. parts_view ps.items ≡ body_parts body.entry.module.now body.entry.func
        body.entry.size body.entry.locals.now shape (widths ty.now.results) body.entry.heights.now
        (map (made_lean (ground body.entry)) (function_pieces m.now body.entry.func))
        (function_pieces m.now body.entry.func)) }
{
    let Body { alloc, func, .. } = body;
    let cuts = lean_cuts(m, body)?;
    let lean = LeanBody {
        body,
        cuts: cuts.as_slice(),
    };
    let given = widths(ty.results.as_slice())?;
    let mut parts = Vec::new(alloc);
    parts.push(entry_part(alloc, func, shape, given)?)?;
    parts.push(opening_part(&lean, shape)?)?;
    let parts = cut_parts(m, lean, parts)?;
    Ok(parts)
}

// The pieces of the function of this index, of this shape, of this type, and whose locals have these types.
fn typed_parts(
    alloc: Global,
    m: &Typed,
    shapes: &Shapes,
    table: &[Option<u32>],
    func: u32,
    shape: Shape,
    ty: &FuncType,
    locals: &[ValType],
) -> Result<Vec<Part>, Memory>
    requires shapes { (n : ℕ) → shape_at shapes.now n ≡ shape_of m.now n }
    requires table { table.now ≡ (first_store m.now).table }
    ensures { IfOk result (λ ps. parts_view ps.items ≡ typed_parts m.now func shape (widths ty.now.results) locals.now
        (lean_function m.now func (length (results_of (first_of ty.now.results))) locals.now)) }
{
    let indices = CutIndices::of_function(alloc, m, func)?;
    let heights = cut_heights(alloc, m, func, locals)?;
    let body = Body {
        alloc,
        module: m.module(),
        table,
        shapes,
        func,
        results: body_results(ty),
        size: shape.size,
        locals,
        indices: &indices,
        heights: heights.as_slice(),
    };
    let parts = body_parts(m, body, shape, ty)?;
    Ok(parts)
}

// The pieces of the function of this index.
fn function_parts(
    alloc: Global,
    m: &Typed,
    shapes: &Shapes,
    table: &[Option<u32>],
    func: u32,
    f: &Func,
) -> Result<Vec<Part>, Memory>
    requires there { slice_get m.now.funcs func ≡ Some f.now }
    requires shapes { (n : ℕ) → shape_at shapes.now n ≡ shape_of m.now n }
    requires table { table.now ≡ (first_store m.now).table }
    ensures { IfOk result (λ ps. parts_view ps.items ≡ function_parts m.now func f.now) }
{
    let module = m.module();
    let Some(ty) = module.types.get(f.kind as usize) else {
        return Ok(Vec::new(alloc));
    };
    // The type is there, so it has a shape and a scope.
    let Some(shape) = shapes.get(func) else {
        return Err(Memory);
    };
    let Some(scope) = scope_of(alloc, module, f)? else {
        return Err(Memory);
    };
    let locals = scope.locals.as_slice();
    let parts = typed_parts(alloc, m, shapes, table, func, shape, ty, locals)?;
    Ok(parts)
}

// How many whole pieces of arguments a function takes.
fn takers_of(m: &Module, f: &Func) -> Result<u32, Memory>
    ensures { IfOk result (λ n. n ≡ takers_of (function_type m.now f.now)) }
{
    match m.types.get(f.kind as usize) {
        Some(ty) => {
            let params = widths(ty.params.as_slice())?;
            Ok(params / ARGS_OF_PIECE)
        }
        None => Ok(0),
    }
}

/// The pieces of a module: for each of its functions in order those with which calls begin, from outside and from
/// inside, and those of its cuts, where one follows a call behind the piece that restores the frame for it and those
/// that fetch the call's arguments, and where one follows a division of i64 behind the piece that puts its answer to
/// its places and the one that makes its turns; and then the shared ones, which take arguments, end jobs, put the
/// values of branches to their places, and append pages where there is a memory. It goes through each body five times,
/// and keeps the module's table, the shapes of all functions, and the paths, heights and lean items of the cuts of one.
///
/// # Errors
///
/// `Memory` where there is no room for them.
pub fn compile(alloc: Global, m: &Typed) -> Result<Parts, Memory>
    ensures { IfOk result (λ ps. parts_view ps ≡ module_parts m.now) }
{
    let module = m.module();
    let shapes = Shapes::of_module(alloc, m)?;
    let table = first_table(alloc, module)?;
    let mut parts = Vec::new(alloc);
    let mut takers = 0u32;
    let mut placers = 0u32;
    for (index, f) in module.funcs.as_slice().iter().enumerate() {
        let func = index as u32;
        let mut own = function_parts(alloc, m, &shapes, table.as_slice(), func, f)?;
        parts.append(&mut own)?;
        takers = takers.max(takers_of(module, f)?);
        placers = placers.max(shapes.placers(func));
    }
    push_takers(alloc, takers, &mut parts)?;
    push_dones(alloc, &mut parts)?;
    push_placers(alloc, 1, placers, &mut parts)?;
    push_placers(alloc, 2, placers, &mut parts)?;
    push_grower(alloc, module, &mut parts)?;
    Ok(Items::from_vec(parts))
}

/// The helpers that pieces call and those that these call, under a namespace, each name once.
///
/// # Errors
///
/// `Memory` where there is no room for them, or a number in a line is no int.
pub fn helpers_of(alloc: Global, parts: &[Part], ns: &Text) -> Result<Functions, Memory>
    ensures { IfOk result (λ fs. functions_view fs ≡ each_once (parts_helpers ns.now (parts_view parts.now))) }
{
    let mut found = Functions::new(alloc);
    for part in parts {
        part.block.add_helpers(alloc, ns, &mut found)?;
    }
    Ok(found)
}
