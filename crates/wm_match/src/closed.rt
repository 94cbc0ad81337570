// Modules each of whose indices names something.
ghost use Rattle.std.specs.Prelude.{◌≡◌, ◌↔◌, ◌||◌, IsTrue, IfOk, nat_le};
ghost use Rattle.std.specs.List.{list_any};
ghost use Rattle.wm_ast.specs.Profile.{op_and_inside};
ghost use Rattle.wm_ast.specs.View.{code_of, op_of};
ghost use Rattle.wm_match.specs.Closed.{Closed, sizes_of, size_in, is_open_op, is_open_code, is_open_import};
ghost use Rattle.wm_match.specs.Closed.{is_open_imported, is_open_function, is_open_global, is_open_export};
ghost use Rattle.wm_match.specs.Closed.{is_open_element, is_open_data, is_open_start};
ghost use Rattle.wm_match.specs.steps.Checking.{has_open_code, has_open_name, has_open_item, IsClosedButForNames};
ghost use Rattle.wm_match.specs.Lists.{HasListsWithin};

use crate::naming::names_differ;
use crate::sizes::{Sizes, sizes_of};
use mc_nbt::Memory;
use std::alloc::Global;
use wm_ast::{Data, Elem, Export, Func, Import, Imported, Instr, Module, Space};

/// Whether the module is closed.
#[tactic(auto, using(crate::proofs::ClosedLaws::closed_is, crate::proofs::ClosedLaws::closed_then))]
pub(crate) fn is_closed(alloc: Global, m: &Module) -> Result<bool, Memory>
    requires { HasListsWithin 1048576 m.now }
    ensures { IfOk result (λ closed. IsTrue closed ↔ Closed m.now) }
{
    if is_closed_but_for_names(m) {
        names_differ(alloc, m.exports.as_slice())
    } else {
        Ok(false)
    }
}

fn is_closed_but_for_names(m: &Module) -> bool
    requires { HasListsWithin 1048576 m.now }
    ensures { IsTrue result ↔ IsClosedButForNames m.now }
{
    let s = sizes_of(m);
    !has_open_item(s, m) && s.tables <= 1 && s.memories <= 1
}

fn has_open_item(s: Sizes, m: &Module) -> bool
    ensures { result ≡ has_open_item s m.now }
{
    has_open_code(s, m) || has_open_name(s, m)
}

// Whether an index of a function, of a global or of a segment names nothing.
fn has_open_code(s: Sizes, m: &Module) -> bool
    ensures { result ≡ has_open_code s m.now }
{
    has_open_function(s, m.funcs.as_slice())
        || has_open_global(s, m.globals.as_slice())
        || has_open_element(s, m.elems.as_slice())
        || has_open_data(s, m.datas.as_slice())
}

fn has_open_function(s: Sizes, funcs: &[Func]) -> bool
    ensures { result ≡ list_any (is_open_function s) funcs.now }
{
    funcs.iter().any(|f| is_open_function(s, f))
}

fn has_open_global(s: Sizes, globals: &[wm_ast::Global]) -> bool
    ensures { result ≡ list_any (is_open_global s) globals.now }
{
    globals.iter().any(|g| is_open(s, g.init.as_slice()))
}

fn has_open_element(s: Sizes, elems: &[Elem]) -> bool
    ensures { result ≡ list_any (is_open_element s) elems.now }
{
    elems.iter().any(|e| is_open_element(s, e))
}

fn has_open_data(s: Sizes, datas: &[Data]) -> bool
    ensures { result ≡ list_any (is_open_data s) datas.now }
{
    datas.iter().any(|d| is_open_data(s, d))
}

// Whether an index of an import, of an export or of the start function names nothing.
fn has_open_name(s: Sizes, m: &Module) -> bool
    ensures { result ≡ has_open_name s m.now }
{
    has_open_import(s, m.imports.as_slice())
        || has_open_export(s, m.exports.as_slice())
        || is_open_start(s, m.start)
}

fn has_open_import(s: Sizes, imports: &[Import]) -> bool
    ensures { result ≡ list_any (is_open_import s) imports.now }
{
    imports.iter().any(|i| is_open_imported(s, i.what))
}

fn has_open_export(s: Sizes, exports: &[Export]) -> bool
    ensures { result ≡ list_any (is_open_export s) exports.now }
{
    exports.iter().any(|e| is_open_export(s, e))
}

fn is_open_imported(s: Sizes, what: Imported) -> bool
    ensures { result ≡ is_open_imported s what }
{
    match what {
        Imported::Func(t) => s.types <= t as usize,
        _ => false,
    }
}

fn is_open_function(s: Sizes, f: &Func) -> bool
    ensures { result ≡ is_open_function s f.now }
{
    s.types <= f.kind as usize || is_open(s, f.body.as_slice())
}

fn is_open_export(s: Sizes, e: &Export) -> bool
    ensures { result ≡ is_open_export s e.now }
{
    size_in(s, e.space) <= e.index as usize
}

fn size_in(s: Sizes, space: Space) -> usize
    ensures { result ≡ size_in s space }
{
    match space {
        Space::Func => s.functions,
        Space::Table => s.tables,
        Space::Memory => s.memories,
        Space::Global => s.globals,
    }
}

fn is_open_element(s: Sizes, e: &Elem) -> bool
    ensures { result ≡ is_open_element s e.now }
{
    s.tables <= e.table as usize
        || is_open(s, e.offset.as_slice())
        || is_one_past(s.functions, e.funcs.as_slice())
}

// Whether one of the indices is past the last of so many items.
fn is_one_past(count: usize, indices: &[u32]) -> bool
    ensures { result ≡ list_any (nat_le count) indices.now }
{
    indices.iter().any(|i| count <= *i as usize)
}

fn is_open_data(s: Sizes, d: &Data) -> bool
    ensures { result ≡ is_open_data s d.now }
{
    s.memories <= d.memory as usize || is_open(s, d.offset.as_slice())
}

fn is_open_start(s: Sizes, start: Option<u32>) -> bool
    ensures { result ≡ is_open_start s start }
{
    match start {
        None => false,
        Some(f) => s.functions <= f as usize,
    }
}

// Whether an index of an instruction, at any depth, names nothing.
#[cycle(open)]
fn is_open(s: Sizes, body: &[Instr]) -> bool
    ensures { result ≡ is_open_code s (code_of body.now) }
{
    for instr in body {
        if is_open_inside(s, instr) {
            return true;
        }
    }
    false
}

#[cycle(open)]
fn is_open_inside(s: Sizes, instr: &Instr) -> bool
    ensures { result ≡ list_any (is_open_op s) (op_and_inside (op_of instr.now)) }
{
    match instr {
        Instr::Block { body, .. } => is_open(s, body.as_slice()),
        Instr::Loop { body, .. } => is_open(s, body.as_slice()),
        Instr::If { yes, no, .. } => is_open(s, yes.as_slice()) || is_open(s, no.as_slice()),
        Instr::Call(f) => s.functions <= *f as usize,
        Instr::CallIndirect(t) => s.types <= *t as usize || s.tables == 0,
        Instr::GlobalGet(x) | Instr::GlobalSet(x) => s.globals <= *x as usize,
        Instr::Load { .. } | Instr::Store { .. } => s.memories == 0,
        Instr::MemorySize | Instr::MemoryGrow => s.memories == 0,
        Instr::MemoryCopy | Instr::MemoryFill => s.memories == 0,
        _ => false,
    }
}
