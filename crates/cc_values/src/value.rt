// One value from its ints.
ghost use Rattle.std.specs.Prelude.{◌≡◌, ◌∷◌, [], List, MatchOption, ℤ};
ghost use Rattle.std.specs.Int.{int_wrap, w32};
ghost use Rattle.mc_nbt.specs.declared.value.Value as spec;
ghost use Rattle.mc_cmd.specs.Pack.{high_half};
ghost use Rattle.wm_ast.specs.Types.{const_type};
ghost use Rattle.cc_line.specs.Routine.{value_ints};
ghost use Rattle.cc_values.specs.Told.{IsFirst};

use mc_nbt::Value;
use wm_ast::ValType;

// The number of 64 bits that has these halves.
fn joined(low: i32, high: i32) -> i64
    ensures lower { int_wrap w32 result ≡ low }
    ensures upper { high_half result ≡ high }
{
    let lower = low.cast_unsigned();
    let upper = high.cast_unsigned();
    let bits = u64::from(upper) * 4_294_967_296 + u64::from(lower);
    bits.cast_signed()
}

/// The i32 of an int.
pub(crate) fn short(int: i32) -> Value
    ensures kind { const_type result ≡ ValType.I32 }
    ensures ints { value_ints result ≡ int ∷ [] }
{
    Value::I32(int)
}

/// The i64 of its low and its high half.
pub(crate) fn long(low: i32, high: i32) -> Value
    ensures kind { const_type result ≡ ValType.I64 }
    ensures ints { value_ints result ≡ low ∷ (high ∷ []) }
{
    Value::I64(joined(low, high))
}

/// The value of this type whose ints stand first, and the ints behind these; `None` exactly where there is none.
pub(crate) fn first_value(kind: ValType, ints: &[i32]) -> Option<(Value, &[i32])>
    ensures { MatchOption result ((v : spec.Value) → (rest : List ℤ) → IsFirst kind ints.now v rest → ⊥)
        (λ p. IsFirst kind ints.now p.0 p.1.now) }
{
    match kind {
        ValType::I32 => match ints {
            [int, rest @ ..] => Some((short(*int), rest)),
            [] => None,
        },
        ValType::I64 => match ints {
            [low, high, rest @ ..] => Some((long(*low, *high), rest)),
            [_] => None,
            [] => None,
        },
        ValType::F32 => None,
        ValType::F64 => None,
    }
}
