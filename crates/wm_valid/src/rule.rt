// What instructions take and give in a body: section 3.3 of the WebAssembly Core Specification, edition 1.0.
ghost use Rattle.std.specs.Prelude.{◌≡◌, [], map, reverse, option_map, slice_get, OnOk, OnSome};
ghost use Rattle.wm_ast.specs.View.{op_of};
ghost use Rattle.wm_ast.specs.Types.{const_type, function_type, same_types};
ghost use Rattle.wm_valid.specs.InRange.{IsInRange, OpInRange};
ghost use Rattle.wm_valid.specs.Typing.{global_type};
ghost use Rattle.wm_valid.specs.Arrows.{arrow as an_arrow, on_memory as on_memories, access as accesses, call_type, called, indirect, set_by, arrow_of, changes as changing, changed, change};
ghost use Rattle.wm_valid.specs.steps.Checking.{each_takes};
ghost use Rattle.wm_valid.specs.ScopeView.{made, body_of};
ghost use Rattle.wm_valid.specs.steps.Found.{seen, labels_of};

use crate::scope::Scope;
use crate::signature::{Signature, loaded, num_signature, one, results, stored, with_address};
use mc_nbt::{Memory, Value};
use wm_ast::{Global, Instr, Module, ValType};

const NONE: &[ValType] = &[];

const THREE: &[ValType] = &[ValType::I32, ValType::I32, ValType::I32];

/// The types that a label takes, of labels with the innermost at the end.
pub(crate) fn label<'a>(labels: &[&'a [ValType]], label: u32) -> Option<&'a [ValType]>
    ensures { option_map (λ ts. reverse ts.now) result ≡ slice_get (labels_of labels.now) label }
{
    let outward = label as usize;
    if outward < labels.len() {
        Some(labels[labels.len() - 1 - outward])
    } else {
        None
    }
}

// Whether two lists of types are one.
fn are_same(first: &[ValType], second: &[ValType]) -> bool
    ensures { result ≡ same_types (reverse first.now) (reverse second.now) }
{
    first == second
}

/// Whether each of these labels takes these types.
pub(crate) fn each_takes(labels: &[&[ValType]], targets: &[u32], types: &[ValType]) -> bool
    ensures { result ≡ each_takes targets.now (labels_of labels.now) (reverse types.now) }
{
    for target in targets {
        match label(labels, *target) {
            None => return false,
            Some(found) => {
                if !are_same(found, types) {
                    return false;
                }
            }
        }
    }
    true
}

// What a call of a function of the type of this index takes and gives.
fn call_type(m: &Module, index: u32) -> Option<Signature<'_>>
    ensures { option_map seen result ≡ call_type (slice_get m.now.types index) }
{
    let ty = m.types.get(index as usize)?;
    Some(Signature {
        takes: ty.params.as_slice(),
        gives: ty.results.as_slice(),
    })
}

// What a call of the function of this index takes and gives.
fn call(m: &Module, func: u32) -> Option<Signature<'_>>
    ensures { option_map seen result ≡ called (map (function_type m.now) m.now.funcs) func }
{
    let func = m.funcs.get(func as usize)?;
    call_type(m, func.kind)
}

/// What a call through the table, of a function of the type of this index, takes below the place in the table, and
/// gives.
pub(crate) fn indirect(m: &Module, index: u32) -> Option<Signature<'_>>
    ensures { option_map seen result ≡ indirect m.now.tables m.now.types index }
{
    if m.tables.is_empty() {
        return None;
    }
    call_type(m, index)
}

// The type of a local.
fn local(scope: &Scope<'_>, index: u32) -> Option<ValType>
    ensures { result ≡ slice_get scope.now.locals.items index }
{
    match scope.locals.get(index as usize) {
        None => None,
        Some(ty) => Some(*ty),
    }
}

// A global.
fn global(m: &Module, index: u32) -> Option<&Global>
    ensures { option_map (λ g. global_type g.now) result ≡ slice_get (map global_type m.now.globals) index }
{
    m.globals.get(index as usize)
}

// What sets a global, which has to be mutable.
fn set_global(m: &Module, index: u32) -> Option<Signature<'static>>
    ensures { option_map seen result ≡ set_by (map global_type m.now.globals) index }
{
    let global = global(m, index)?;
    if global.mutable {
        Some(taken(one(global.ty)))
    } else {
        None
    }
}

// An instruction that takes these.
fn taken(types: &[ValType]) -> Signature<'_>
    ensures { seen result ≡ an_arrow (reverse types.now) [] }
{
    Signature {
        takes: types,
        gives: NONE,
    }
}

// An instruction that gives these.
fn given(types: &[ValType]) -> Signature<'_>
    ensures { seen result ≡ an_arrow [] (reverse types.now) }
{
    Signature {
        takes: NONE,
        gives: types,
    }
}

// An instruction that takes and gives these.
fn kept(types: &[ValType]) -> Signature<'_>
    ensures { seen result ≡ an_arrow (reverse types.now) (reverse types.now) }
{
    Signature {
        takes: types,
        gives: types,
    }
}

/// The type of a constant.
pub(crate) fn constant(value: Value) -> ValType
    ensures ty { result ≡ const_type value }
    ensures range { IsInRange value }
{
    match value {
        Value::I32(_) => ValType::I32,
        Value::I64(_) => ValType::I64,
    }
}

// An instruction that needs a memory.
fn on_memory<'a>(m: &Module, signature: Signature<'a>) -> Option<Signature<'a>>
    ensures { option_map seen result ≡ on_memories m.now.mems (seen signature.entry) }
{
    if m.mems.is_empty() {
        None
    } else {
        Some(signature)
    }
}

// An access to memory, of this width in bytes. The alignment is an exponent of 2.
fn access<'a>(m: &Module, align: u32, width: u32, signature: Signature<'a>) -> Option<Signature<'a>>
    ensures { option_map seen result ≡ accesses m.now.mems align width (seen signature.entry) }
{
    match 2u32.checked_pow(align) {
        None => None,
        Some(bytes) => {
            if bytes <= width {
                on_memory(m, signature)
            } else {
                None
            }
        }
    }
}

/// What an instruction takes and gives that has one type here, whatever the operands and labels. `None` exactly where
/// it has none, as where it names what isn't there.
pub(crate) fn signature<'a>(instr: &Instr, scope: &Scope<'a>) -> Option<Signature<'a>>
    ensures exact { option_map seen result ≡ arrow_of (op_of instr.now) (body_of scope.now) }
    ensures range { OnSome result (OpInRange (op_of instr.now)) }
{
    let m = scope.module;
    match instr {
        Instr::Nop => Some(given(NONE)),
        Instr::Call(func) => call(m, *func),
        Instr::LocalGet(index) => Some(given(one(local(scope, *index)?))),
        Instr::LocalSet(index) => Some(taken(one(local(scope, *index)?))),
        Instr::LocalTee(index) => Some(kept(one(local(scope, *index)?))),
        Instr::GlobalGet(index) => Some(given(one(global(m, *index)?.ty))),
        Instr::GlobalSet(index) => set_global(m, *index),
        Instr::Load { op, align, .. } => {
            let (ty, width) = loaded(*op);
            let signature = Signature {
                takes: one(ValType::I32),
                gives: one(ty),
            };
            access(m, *align, width, signature)
        }
        Instr::Store { op, align, .. } => {
            let (ty, width) = stored(*op);
            access(m, *align, width, taken(with_address(ty)))
        }
        Instr::MemorySize => on_memory(m, given(one(ValType::I32))),
        Instr::MemoryGrow => on_memory(m, kept(one(ValType::I32))),
        Instr::MemoryCopy => on_memory(m, taken(THREE)),
        Instr::MemoryFill => on_memory(m, taken(THREE)),
        Instr::Const(value) => Some(given(one(constant(*value)))),
        Instr::Num(op) => Some(num_signature(*op)),
        _ => None,
    }
}

/// How many operands are taken away, and which are put in their place.
#[derive(Clone, Copy, Debug)]
pub struct Change<'a> {
    /// How many are taken away, those that stand last.
    pub takes: usize,
    /// The types of those that come in their place, the last at the end.
    pub gives: &'a [ValType],
}

impl Change<'_> {
    /// Changes operands, the last at the end. After `Memory` they are in part changed.
    #[tactic(auto, using(crate::proofs::ChangeLaws::changed_back))]
    pub fn apply_to(self, operands: &mut Vec<ValType>) -> Result<(), Memory>
        ensures { OnOk result (reverse operands.new.items ≡ changed (made self.entry) (reverse operands.old.items)) }
    {
        operands.truncate(operands.len().saturating_sub(self.takes));
        operands.extend_from_slice(self.gives)?;
        Ok(())
    }
}

fn changes(takes: usize, gives: &[ValType]) -> Change<'_>
    ensures { made result ≡ changing takes (reverse gives.now) }
{
    Change { takes, gives }
}

/// What an instruction of a typed body makes of the operands. `None` of such an instruction exactly where what follows
/// it in its sequence isn't reached.
#[tactic(auto, using(crate::proofs::ChangeLaws::one_way))]
pub fn change_of<'a>(instr: &Instr, scope: &Scope<'a>) -> Option<Change<'a>>
    ensures { option_map made result ≡ change (op_of instr.now) (body_of scope.now) }
{
    match instr {
        Instr::Block { ty, .. } => Some(changes(0, results(*ty))),
        Instr::Loop { ty, .. } => Some(changes(0, results(*ty))),
        Instr::If { ty, .. } => Some(changes(1, results(*ty))),
        Instr::BrIf(_) => Some(changes(1, NONE)),
        Instr::DropOne => Some(changes(1, NONE)),
        Instr::Select => Some(changes(2, NONE)),
        Instr::CallIndirect(ty) => {
            let signature = indirect(scope.module, *ty)?;
            Some(changes(signature.takes.len() + 1, signature.gives))
        }
        _ => {
            let signature = signature(instr, scope)?;
            Some(changes(signature.takes.len(), signature.gives))
        }
    }
}
