// What initial expressions give: the first values of globals, and the offsets of segments.
ghost use Rattle.std.specs.Prelude.{◌≡◌, ◌++◌, IfOk, OnOk, filter_map, option_to_list};
ghost use Rattle.wm_ast.specs.Code.{cons, nil};
ghost use Rattle.wm_ast.specs.Instance.{constant_value, first_value};
ghost use Rattle.wm_ast.specs.Profile.{constant_offset};
ghost use Rattle.wm_ast.specs.View.{code_of, op_of};

use crate::{Instr, Module};
use mc_nbt::{Memory, Value};
use std::alloc::Global;

/// The first values of the globals.
pub fn first_values(alloc: Global, m: &Module) -> Result<Vec<Value>, Memory>
    ensures { IfOk result (λ vs. vs.items ≡ filter_map first_value m.now.globals) }
{
    let mut values = Vec::new(alloc);
    for global in m.globals.as_slice() {
        add_value(&mut values, constant_value(global.init.as_slice()))?;
    }
    Ok(values)
}

fn add_value(values: &mut Vec<Value>, value: Option<Value>) -> Result<(), Memory>
    ensures { OnOk result (values.new.items ≡ values.old.items ++ option_to_list value) }
{
    if let Some(value) = value {
        values.push(value)?;
    }
    Ok(())
}

/// The value, where the expression is exactly one constant.
pub fn constant_value(code: &[Instr]) -> Option<Value>
    ensures { result ≡ constant_value (code_of code.now) }
{
    match code {
        [instr] => constant(instr),
        _ => None,
    }
}

fn constant(instr: &Instr) -> Option<Value>
    ensures { result ≡ constant_value (cons (op_of instr.now) nil) }
{
    match instr {
        Instr::Const(value) => Some(*value),
        _ => None,
    }
}

/// The offset, unsigned, where the expression is exactly one `i32.const`.
pub fn constant_offset(code: &[Instr]) -> Option<u32>
    ensures { result ≡ constant_offset (code_of code.now) }
{
    match constant_value(code) {
        Some(Value::I32(n)) => Some(n.cast_unsigned()),
        _ => None,
    }
}
