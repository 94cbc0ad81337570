// Instructions that have no body and go to no other place (4.4.1 to 4.4.5, and 4.4.7 of edition 2.0).
ghost use Rattle.std.specs.Prelude.{◌≡◌, ℕ, ◌+◌, ◌^◌, ◌<◌, ◌≤◌, List, Option, Some, IfOk, slice_get};
ghost use Rattle.mc_nbt.specs.declared.value.Kind.TheVariants as kinds;
ghost use Rattle.mc_nbt.specs.declared.value.Value.{Value as AnyValue};
ghost use Rattle.wm_ast.specs.declared.module.Module.{Module as AnyModule};
ghost use Rattle.wm_ast.specs.Code.{num, drop_one, select, local_set, local_tee, global_set, load, store, memory_grow, memory_fill, memory_copy};
ghost use Rattle.wm_ast.specs.Operand.{operand, value_of};
ghost use Rattle.wm_ast.specs.Operation.{load_width, load_kind, store_width, store_kind};
ghost use Rattle.wm_ast.specs.Simple.{simple, address, got, answered, unsigned};
ghost use Rattle.wm_ast.specs.Storage.{extension};
ghost use Rattle.wm_ast.specs.Store.{Store, most_pages};
ghost use Rattle.wm_ast.specs.View.{op_of};
ghost use Rattle.wm_reduce.specs.TermView.{store_of};
ghost use Rattle.wm_reduce.specs.steps.Executing.{Executes, operand_kind, is_double};

use crate::calls::pop_i32;
use crate::memory::LinearMemory;
use crate::stack::Stack;
use mc_nbt::{Kind, Memory, Value};
use wm_ast::{Answer, Instr, LoadOp, Module, NumOp, Operator, PAGES, StoreOp, TrapKind};
use wm_num::{apply1, apply2};

/// What a program's instructions change.
#[derive(Drop)]
pub(crate) struct Storage {
    pub(crate) globals: Vec<Value>,
    pub(crate) memory: LinearMemory,
    /// The index of a function at each place, or nothing.
    pub(crate) table: Vec<Option<u32>>,
}

/// What an instruction comes to: it is done, it stands again, it traps, or no rule fits.
#[derive(Clone, Copy)]
pub(crate) enum Executed {
    Done,
    Again,
    Fault(TrapKind),
    Unfit,
}

/// An instruction over these operands, with the locals of its activation.
pub(crate) fn execute(
    m: &Module,
    storage: &mut Storage,
    locals: &mut Vec<Value>,
    values: &mut Stack<Value>,
    instr: &Instr,
) -> Result<Executed, Memory>
    ensures { IfOk result (λ x. Executes (store_of storage.old) locals.old.items x (store_of storage.new) locals.new.items values.new (simple m.now (store_of storage.old) locals.old.items (op_of instr.now) values.old)) }
{
    match instr {
        Instr::Unreachable => Ok(Executed::Fault(TrapKind::Unreachable)),
        Instr::Nop => Ok(Executed::Done),
        Instr::DropOne => Ok(drop_one(values)),
        Instr::Select => select(values),
        Instr::LocalGet(x) => get_from(locals.as_slice(), *x, values),
        Instr::LocalSet(x) => Ok(set_local(locals, *x, values)),
        Instr::LocalTee(x) => tee_local(locals, *x, values),
        Instr::GlobalGet(x) => get_from(storage.globals.as_slice(), *x, values),
        Instr::GlobalSet(x) => Ok(set_global(&mut storage.globals, *x, values)),
        Instr::Num(op) => operate(*op, values),
        Instr::Load { op, offset, .. } => load_value(&storage.memory, *op, *offset, values),
        Instr::Store { op, offset, .. } => Ok(store_value(
            &mut storage.memory,
            *op,
            *offset,
            values,
        )),
        Instr::MemorySize => {
            values.push(unsigned_value(storage.memory.pages()))?;
            Ok(Executed::Done)
        }
        Instr::MemoryGrow => grow_memory(m, &mut storage.memory, values),
        Instr::MemoryFill => fill_memory(&mut storage.memory, values),
        Instr::MemoryCopy => copy_memory(&mut storage.memory, values),
        _ => Ok(Executed::Unfit),
    }
}

/// A number without sign as a value.
fn unsigned_value(number: u32) -> Value
    ensures { result ≡ unsigned number }
{
    Value::I32(number.cast_signed())
}

fn drop_one(values: &mut Stack<Value>) -> Executed
    ensures { (m : AnyModule) (s : Store) (own : List AnyValue)
        → Executes s own result s own values.new (simple m s own drop_one values.old) }
{
    match values.pop() {
        None => Executed::Unfit,
        Some(_) => Executed::Done,
    }
}

// One of two values: the lower one where the number on top isn't 0.
fn select(values: &mut Stack<Value>) -> Result<Executed, Memory>
    ensures { IfOk result (λ x. (m : AnyModule) (s : Store) (own : List AnyValue)
        → Executes s own x s own values.new (simple m s own select values.old)) }
{
    let Some(condition) = pop_i32(values) else {
        return Ok(Executed::Unfit);
    };
    let Some(second) = values.pop() else {
        return Ok(Executed::Unfit);
    };
    let Some(first) = values.pop() else {
        return Ok(Executed::Unfit);
    };
    values.push(if condition == 0 { second } else { first })?;
    Ok(Executed::Done)
}

// The value of a local or a global.
fn get_from(all: &[Value], index: u32, values: &mut Stack<Value>) -> Result<Executed, Memory>
    ensures { IfOk result (λ x. (m : AnyModule) (s : Store) (own : List AnyValue)
        → Executes s own x s own values.new (got m s own values.old (slice_get all.now index))) }
{
    match all.get(index as usize) {
        None => Ok(Executed::Unfit),
        Some(value) => {
            values.push(*value)?;
            Ok(Executed::Done)
        }
    }
}

fn set_local(locals: &mut Vec<Value>, index: u32, values: &mut Stack<Value>) -> Executed
    ensures { (m : AnyModule) (s : Store)
        → Executes s locals.old.items result s locals.new.items values.new (simple m s locals.old.items (local_set index) values.old) }
{
    let Some(value) = values.pop() else {
        return Executed::Unfit;
    };
    if index as usize >= locals.len() {
        return Executed::Unfit;
    }
    locals[index as usize] = value;
    Executed::Done
}

fn tee_local(
    locals: &mut Vec<Value>,
    index: u32,
    values: &mut Stack<Value>,
) -> Result<Executed, Memory>
    ensures { IfOk result (λ x. (m : AnyModule) (s : Store)
        → Executes s locals.old.items x s locals.new.items values.new (simple m s locals.old.items (local_tee index) values.old)) }
{
    let Some(value) = values.pop() else {
        return Ok(Executed::Unfit);
    };
    if index as usize >= locals.len() {
        return Ok(Executed::Unfit);
    }
    locals[index as usize] = value;
    values.push(value)?;
    Ok(Executed::Done)
}

fn set_global(globals: &mut Vec<Value>, index: u32, values: &mut Stack<Value>) -> Executed
    ensures { (m : AnyModule) (s : Store) (own : List AnyValue) → s.globals ≡ globals.old.items
        → Executes s own result (record s { globals = globals.new.items }) own values.new (simple m s own (global_set index) values.old) }
{
    let Some(value) = values.pop() else {
        return Executed::Unfit;
    };
    if index as usize >= globals.len() {
        return Executed::Unfit;
    }
    globals[index as usize] = value;
    Executed::Done
}

// The kind of an operator's operands.
fn operand_kind(operator: Operator) -> Kind
    ensures { result ≡ operand_kind operator }
{
    match operator {
        Operator::Test(kind) => kind,
        Operator::Unary(kind, _) => kind,
        Operator::Binary(kind, _) => kind,
        Operator::Comparison(kind, _) => kind,
        Operator::Wrap => Kind::I64,
        Operator::ExtendS => Kind::I32,
        Operator::ExtendU => Kind::I32,
    }
}

// Whether an operator takes two operands.
fn is_double(operator: Operator) -> bool
    ensures { result ≡ is_double operator }
{
    match operator {
        Operator::Binary(_, _) => true,
        Operator::Comparison(_, _) => true,
        _ => false,
    }
}

// A number operation.
fn operate(op: NumOp, values: &mut Stack<Value>) -> Result<Executed, Memory>
    ensures { IfOk result (λ x. (m : AnyModule) (s : Store) (own : List AnyValue)
        → Executes s own x s own values.new (simple m s own (num op) values.old)) }
{
    let Some(last) = values.pop() else {
        return Ok(Executed::Unfit);
    };
    let kind = operand_kind(op.operator());
    if !is_double(op.operator()) {
        if last.kind() != kind {
            return Ok(Executed::Unfit);
        }
        return answer(apply1(op, last), values);
    }
    let Some(first) = values.pop() else {
        return Ok(Executed::Unfit);
    };
    if first.kind() != kind {
        return Ok(Executed::Unfit);
    }
    if last.kind() != kind {
        return Ok(Executed::Unfit);
    }
    answer(apply2(op, first, last), values)
}

// What an operation answers stands over the other operands.
fn answer(answer: Answer, values: &mut Stack<Value>) -> Result<Executed, Memory>
    ensures { IfOk result (λ x. (m : AnyModule) (s : Store) (own : List AnyValue)
        → Executes s own x s own values.new (answered m s own values.old (Some answer))) }
{
    match answer {
        Answer::Value(value) => {
            values.push(value)?;
            Ok(Executed::Done)
        }
        Answer::Trap(trap) => Ok(Executed::Fault(trap)),
    }
}

// The effective address (4.4.4.1).
fn effective_address(index: i32, offset: u32) -> u64
    ensures place { result ≡ address index offset }
    ensures small { result < 2 ^ 33 }
{
    u64::from(index.cast_unsigned()) + u64::from(offset)
}

// `memory.grow` (4.4.4.4).
fn grow_memory(
    m: &Module,
    memory: &mut LinearMemory,
    values: &mut Stack<Value>,
) -> Result<Executed, Memory>
    ensures { IfOk result (λ x. (s : Store) (own : List AnyValue) → s.memory ≡ memory.old
        → Executes s own x (record s { memory = memory.new }) own values.new (simple m.now s own memory_grow values.old)) }
{
    let Some(count) = pop_i32(values) else {
        return Ok(Executed::Unfit);
    };
    let count = count.cast_unsigned();
    let pages = memory.pages();
    if most_pages(m) < u64::from(pages) + u64::from(count) {
        values.push(Value::I32(-1))?;
        return Ok(Executed::Done);
    }
    memory.grow(count)?;
    values.push(unsigned_value(pages))?;
    Ok(Executed::Done)
}

// The most pages that the module's memory may have.
fn most_pages(m: &Module) -> u64
    ensures most { result ≡ most_pages m.now }
    ensures small { result ≤ PAGES }
{
    match m.mems.get(0) {
        None => 0,
        Some(limits) => match limits.max {
            None => u64::from(PAGES),
            Some(most) => u64::from(most.min(PAGES)),
        },
    }
}

// `memory.fill` (4.4.7 of edition 2.0), one byte in each step.
fn fill_memory(memory: &mut LinearMemory, values: &mut Stack<Value>) -> Result<Executed, Memory>
    ensures { IfOk result (λ x. (m : AnyModule) (s : Store) (own : List AnyValue) → s.memory ≡ memory.old
        → Executes s own x (record s { memory = memory.new }) own values.new (simple m s own memory_fill values.old)) }
{
    let Some(count) = pop_i32(values) else {
        return Ok(Executed::Unfit);
    };
    let Some(byte) = pop_i32(values) else {
        return Ok(Executed::Unfit);
    };
    let Some(to) = pop_i32(values) else {
        return Ok(Executed::Unfit);
    };
    let count = count.cast_unsigned();
    let place = to.cast_unsigned();
    if (memory.len() as u64) < u64::from(place) + u64::from(count) {
        return Ok(Executed::Fault(TrapKind::OutOfBounds));
    }
    if count == 0 {
        return Ok(Executed::Done);
    }
    memory.set_byte(place as usize, (byte.cast_unsigned() % 256) as u8);
    values.push(unsigned_value(place + 1))?;
    values.push(Value::I32(byte))?;
    values.push(unsigned_value(count - 1))?;
    Ok(Executed::Again)
}

// `memory.copy` (4.4.7 of edition 2.0), one byte in each step.
fn copy_memory(memory: &mut LinearMemory, values: &mut Stack<Value>) -> Result<Executed, Memory>
    ensures { IfOk result (λ x. (m : AnyModule) (s : Store) (own : List AnyValue) → s.memory ≡ memory.old
        → Executes s own x (record s { memory = memory.new }) own values.new (simple m s own memory_copy values.old)) }
{
    let Some(count) = pop_i32(values) else {
        return Ok(Executed::Unfit);
    };
    let Some(from) = pop_i32(values) else {
        return Ok(Executed::Unfit);
    };
    let Some(to) = pop_i32(values) else {
        return Ok(Executed::Unfit);
    };
    let source = from.cast_unsigned();
    let place = to.cast_unsigned();
    if (memory.len() as u64) < u64::from(place) + u64::from(count.cast_unsigned()) {
        return Ok(Executed::Fault(TrapKind::OutOfBounds));
    }
    if (memory.len() as u64) < u64::from(source) + u64::from(count.cast_unsigned()) {
        return Ok(Executed::Fault(TrapKind::OutOfBounds));
    }
    if count == 0 {
        return Ok(Executed::Done);
    }
    let others = count.cast_unsigned() - 1;
    if place <= source {
        memory.set_byte(place as usize, memory.byte(source as usize));
        values.push(unsigned_value(place + 1))?;
        values.push(unsigned_value(source + 1))?;
        values.push(unsigned_value(others))?;
        return Ok(Executed::Again);
    }
    memory.set_byte(
        (place + others) as usize,
        memory.byte((source + others) as usize),
    );
    values.push(Value::I32(to))?;
    values.push(Value::I32(from))?;
    values.push(unsigned_value(others))?;
    Ok(Executed::Again)
}

// A load (4.4.4.1).
fn load_value(
    memory: &LinearMemory,
    op: LoadOp,
    offset: u32,
    values: &mut Stack<Value>,
) -> Result<Executed, Memory>
    ensures { IfOk result (λ x. (m : AnyModule) (s : Store) (own : List AnyValue) (align : ℕ) → s.memory ≡ memory.now
        → Executes s own x s own values.new (simple m s own (load op align offset) values.old)) }
{
    let Some(index) = pop_i32(values) else {
        return Ok(Executed::Unfit);
    };
    match memory.read(effective_address(index, offset), load_width(op)) {
        None => Ok(Executed::Fault(TrapKind::OutOfBounds)),
        Some(number) => {
            values.push(loaded(op, number))?;
            Ok(Executed::Done)
        }
    }
}

fn load_width(op: LoadOp) -> usize
    ensures width { result ≡ load_width op }
    ensures small { result ≤ 8 }
{
    match op {
        LoadOp::I32Load => 4,
        LoadOp::I64Load => 8,
        LoadOp::I32Load8S => 1,
        LoadOp::I32Load8U => 1,
        LoadOp::I32Load16S => 2,
        LoadOp::I32Load16U => 2,
        LoadOp::I64Load8S => 1,
        LoadOp::I64Load8U => 1,
        LoadOp::I64Load16S => 2,
        LoadOp::I64Load16U => 2,
        LoadOp::I64Load32S => 4,
        LoadOp::I64Load32U => 4,
    }
}

// The value of the type i32 with these bits.
fn value32(bits: u32) -> Value
    ensures { result ≡ value_of kinds.I32 bits }
{
    Value::I32(bits.cast_signed())
}

// The value of the type i64 with these bits.
fn value64(bits: u64) -> Value
    ensures { result ≡ value_of kinds.I64 bits }
{
    Value::I64(bits.cast_signed())
}

// What a load makes of the number that it read (4.4.4.1).
fn loaded(op: LoadOp, number: u64) -> Value
    requires { number < 256 ^ load_width op }
    ensures { result ≡ value_of (load_kind op) (extension op number) }
{
    match op {
        LoadOp::I32Load => value32(number as u32),
        LoadOp::I64Load => value64(number),
        LoadOp::I32Load8S => value32(i32::from((number as u8).cast_signed()).cast_unsigned()),
        LoadOp::I32Load8U => value32(number as u32),
        LoadOp::I32Load16S => value32(i32::from((number as u16).cast_signed()).cast_unsigned()),
        LoadOp::I32Load16U => value32(number as u32),
        LoadOp::I64Load8S => value64(i64::from((number as u8).cast_signed()).cast_unsigned()),
        LoadOp::I64Load8U => value64(number),
        LoadOp::I64Load16S => value64(i64::from((number as u16).cast_signed()).cast_unsigned()),
        LoadOp::I64Load16U => value64(number),
        LoadOp::I64Load32S => value64(i64::from((number as u32).cast_signed()).cast_unsigned()),
        LoadOp::I64Load32U => value64(number),
    }
}

fn store_width(op: StoreOp) -> usize
    ensures width { result ≡ store_width op }
    ensures small { result ≤ 8 }
{
    match op {
        StoreOp::I32Store => 4,
        StoreOp::I64Store => 8,
        StoreOp::I32Store8 => 1,
        StoreOp::I32Store16 => 2,
        StoreOp::I64Store8 => 1,
        StoreOp::I64Store16 => 2,
        StoreOp::I64Store32 => 4,
    }
}

fn store_kind(op: StoreOp) -> Kind
    ensures { result ≡ store_kind op }
{
    match op {
        StoreOp::I32Store => Kind::I32,
        StoreOp::I64Store => Kind::I64,
        StoreOp::I32Store8 => Kind::I32,
        StoreOp::I32Store16 => Kind::I32,
        StoreOp::I64Store8 => Kind::I64,
        StoreOp::I64Store16 => Kind::I64,
        StoreOp::I64Store32 => Kind::I64,
    }
}

// The bits of a value of this kind.
fn bits(kind: Kind, value: Value) -> Option<u64>
    ensures { result ≡ operand kind value }
{
    match (kind, value) {
        (Kind::I32, Value::I32(number)) => Some(u64::from(number.cast_unsigned())),
        (Kind::I64, Value::I64(number)) => Some(number.cast_unsigned()),
        _ => None,
    }
}

// A store (4.4.4.2).
fn store_value(
    memory: &mut LinearMemory,
    op: StoreOp,
    offset: u32,
    values: &mut Stack<Value>,
) -> Executed
    ensures { (m : AnyModule) (s : Store) (own : List AnyValue) (align : ℕ) → s.memory ≡ memory.old
        → Executes s own result (record s { memory = memory.new }) own values.new (simple m s own (store op align offset) values.old) }
{
    let Some(value) = values.pop() else {
        return Executed::Unfit;
    };
    let Some(index) = pop_i32(values) else {
        return Executed::Unfit;
    };
    let Some(number) = bits(store_kind(op), value) else {
        return Executed::Unfit;
    };
    if memory.write(effective_address(index, offset), store_width(op), number) {
        Executed::Done
    } else {
        Executed::Fault(TrapKind::OutOfBounds)
    }
}
