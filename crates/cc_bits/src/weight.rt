ghost use Rattle.std.specs.Prelude.{◌≡◌, ◌||◌, true};
ghost use Rattle.cc_bits.specs.Operation as spec;
ghost use Rattle.cc_bits.specs.Operation.{is_binary, is_unary};

use wm_ast::NumOp;

/// The most that the items of an operation weigh, on whatever places and on any way.
pub fn most_weight(op: NumOp) -> u32
    requires { is_unary op || is_binary op ≡ true }
    ensures { result ≡ spec.most op }
{
    match op {
        NumOp::I32Clz => 30,
        NumOp::I32Ctz => 40,
        NumOp::I32Popcnt => 36,
        NumOp::I32Extend8S | NumOp::I32Extend16S => 8,
        NumOp::I32And => 44,
        NumOp::I32Or => 47,
        NumOp::I32Xor => 48,
        NumOp::I32Shl => 14,
        NumOp::I32ShrS => 16,
        NumOp::I32ShrU => 20,
        NumOp::I32Rotl | NumOp::I32Rotr => 24,
        _ => unreachable!(),
    }
}
