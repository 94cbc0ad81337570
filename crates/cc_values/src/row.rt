// Values from their ints, one behind the other.
ghost use Rattle.std.specs.Prelude.{IfOk, List, MatchOption, drop, ℤ};
ghost use Rattle.mc_nbt.specs.declared.value.Value as spec;
ghost use Rattle.cc_cut.specs.Law.{widths};
ghost use Rattle.cc_values.specs.Told.{AreFirst};

use crate::value::first_value;
use mc_nbt::{Memory, Value};
use std::alloc::Global;
use wm_ast::{Items, ValType};

/// The values of these types whose ints stand first, in their order; anything may stand behind. `None` exactly where
/// there are none: where there are too few ints, or a type of floats.
///
/// # Errors
///
/// `Memory` where there is no room for them.
pub fn values_of(
    alloc: Global,
    kinds: &[ValType],
    ints: &[i32],
) -> Result<Option<Items<Value>>, Memory>
    ensures { IfOk result (λ o. MatchOption o
        ((vs : List spec.Value) → (rest : List ℤ) → AreFirst kinds.now ints.now vs rest → ⊥)
        (λ vs. AreFirst kinds.now ints.now vs (drop (widths kinds.now) ints.now))) }
{
    let mut values = Items::new(alloc);
    let mut rest = ints;
    for kind in kinds {
        match first_value(*kind, rest) {
            Some((value, others)) => {
                values.push(value)?;
                rest = others;
            }
            None => return Ok(None),
        }
    }
    Ok(Some(values))
}
