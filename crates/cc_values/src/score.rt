// A result on its way, which stands in scores.
ghost use Rattle.std.specs.Prelude.{◌≡◌, MatchOption};
ghost use Rattle.mc_nbt.specs.declared.value.Value as spec;
ghost use Rattle.wm_ast.specs.Types.{const_type};
ghost use Rattle.cc_line.specs.Routine.{value_ints};
ghost use Rattle.cc_line.specs.State.{State};
ghost use Rattle.cc_call.specs.Frames.{result_score};
ghost use Rattle.cc_call.specs.Law.{AreHanded};

use crate::value::{long, short};
use mc_nbt::Value;
use wm_ast::ValType;

/// The value of this type that is handed over where the scores of results are these: that of a low half or of an i32,
/// and that of a high half. `None` exactly where none is: where a score that it takes isn't set, or for a float.
pub fn value_of_scores(kind: ValType, low: Option<i32>, high: Option<i32>) -> Option<Value>
    ensures { (s : State) → s.scores (result_score 0) ≡ low → s.scores (result_score 1) ≡ high
        → MatchOption result ((v : spec.Value) → const_type v ≡ kind → AreHanded 0 (value_ints v) s → ⊥)
        (λ v. (const_type v ≡ kind) × AreHanded 0 (value_ints v) s) }
{
    match kind {
        ValType::I32 => match low {
            Some(int) => Some(short(int)),
            None => None,
        },
        ValType::I64 => match low {
            Some(low) => match high {
                Some(high) => Some(long(low, high)),
                None => None,
            },
            None => None,
        },
        ValType::F32 => None,
        ValType::F64 => None,
    }
}
