// Whether a module looks bytes up: only then the tables of bytes stand.
ghost use Rattle.std.specs.Prelude.{◌≡◌};
ghost use Rattle.std.specs.List.{list_any};
ghost use Rattle.wm_ast.specs.Profile.{all_ops, op_and_inside};
ghost use Rattle.wm_ast.specs.View.{code_of, op_of};
ghost use Rattle.cc_line.specs.Standing.{takes_bytes};
ghost use Rattle.cc_simulate.specs.Uses.{function_takes_bytes, op_takes_bytes, uses_bytes};

use wm_ast::{Func, Instr, Module, NumOp};

/// Whether a function of the module has an operation that looks bytes up, at any depth. Only then the tables of bytes
/// stand in its packs.
pub fn uses_bytes(m: &Module) -> bool
    ensures { result ≡ uses_bytes m.now }
{
    m.funcs.as_slice().iter().any(function_takes_bytes)
}

fn function_takes_bytes(func: &Func) -> bool
    ensures { result ≡ function_takes_bytes func.now }
{
    code_takes_bytes(func.body.as_slice())
}

// Whether one of the instructions, at any depth, is such an operation.
#[cycle(depth)]
fn code_takes_bytes(body: &[Instr]) -> bool
    ensures { result ≡ list_any op_takes_bytes (all_ops (code_of body.now)) }
{
    for instr in body {
        if instr_takes_bytes(instr) {
            return true;
        }
    }
    false
}

#[cycle(depth)]
fn instr_takes_bytes(instr: &Instr) -> bool
    ensures { result ≡ list_any op_takes_bytes (op_and_inside (op_of instr.now)) }
{
    match instr {
        Instr::Block { body, .. } => code_takes_bytes(body.as_slice()),
        Instr::Loop { body, .. } => code_takes_bytes(body.as_slice()),
        Instr::If { yes, no, .. } => {
            code_takes_bytes(yes.as_slice()) || code_takes_bytes(no.as_slice())
        }
        Instr::Num(op) => takes_bytes(*op),
        _ => false,
    }
}

// Whether an operation looks bytes up.
fn takes_bytes(op: NumOp) -> bool
    ensures { result ≡ takes_bytes op }
{
    matches!(
        op,
        NumOp::I32And | NumOp::I32Or | NumOp::I32Xor | NumOp::I64And | NumOp::I64Or | NumOp::I64Xor
    )
}
