// The functions of a module, for calls from outside (4.5.5).
ghost use Rattle.std.specs.Prelude.{◌≡◌, ◌↔◌, IsTrue, All, slice_get};
ghost use Rattle.wm_ast.specs.Instance.{exported_functions, is_function};
ghost use Rattle.wm_ast.specs.Types.{const_type};
ghost use Rattle.wm_flat.specs.FlatTyping.{types_of};
ghost use Rattle.wm_valid.specs.InRange.{IsInRange};
ghost use Rattle.wm_reduce.specs.Call.{Takes};

use mc_nbt::Value;
use wm_ast::{Module, Space, ValType};

/// The function at a position among the function exports. `None` exactly where there are not so many.
pub(crate) fn find_export(m: &Module, position: u32) -> Option<u32>
    ensures { result ≡ slice_get (exported_functions m.now) position }
{
    let mut left = position;
    for export in m.exports.as_slice() {
        if is_function(export.space) {
            if left == 0 {
                return Some(export.index);
            }
            left -= 1;
        }
    }
    None
}

fn is_function(space: Space) -> bool
    ensures { result ≡ is_function space }
{
    match space {
        Space::Func => true,
        Space::Table => false,
        Space::Memory => false,
        Space::Global => false,
    }
}

/// Whether the function of this index is there and takes these arguments.
pub(crate) fn takes(m: &Module, func: u32, arguments: &[Value]) -> bool
    ensures takes { IsTrue result ↔ Takes m.now func arguments.now }
    ensures range { IsTrue result → All IsInRange arguments.now }
{
    let Some(func) = m.funcs.get(func as usize) else {
        return false;
    };
    let Some(ty) = m.types.get(func.kind as usize) else {
        return false;
    };
    are(ty.params.as_slice(), arguments)
}

// Whether these are values of these types.
fn are(types: &[ValType], values: &[Value]) -> bool
    ensures types { IsTrue result ↔ (types_of values.now ≡ types.now) }
    ensures range { IsTrue result → All IsInRange values.now }
{
    if values.len() != types.len() {
        return false;
    }
    for i in 0..values.len() {
        if !is(types[i], values[i]) {
            return false;
        }
    }
    true
}

// Whether this is a value of this type.
fn is(ty: ValType, value: Value) -> bool
    ensures ty { IsTrue result ↔ (const_type value ≡ ty) }
    ensures range { IsInRange value }
{
    match (ty, value) {
        (ValType::I32, Value::I32(_)) => true,
        (ValType::I64, Value::I64(_)) => true,
        (_, Value::I32(_)) => false,
        (_, Value::I64(_)) => false,
    }
}
