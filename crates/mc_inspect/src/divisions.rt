// Before a cut behind a division of i64 that goes on.
ghost use Rattle.std.specs.Prelude.{◌≡◌, ◌≤◌, ◌<◌, ◌++◌, ◌∷◌, [], ◌/◌, ◌%◌, ◌↔◌, ℕ, ℤ, pos, List, Some};
ghost use Rattle.std.specs.Prelude.{IfOk, IfSome, IsTrue, MatchOption, option_map};
ghost use Rattle.mc_cmd.specs.Command.{exactly};
ghost use Rattle.mc_cmd.specs.World.{some_is_in};
ghost use Rattle.wm_ast.specs.declared.module.ValType as types_of_values;
ghost use Rattle.wm_ast.specs.declared.module.ValType.TheVariants as types;
ghost use Rattle.cc_div64.specs.Law.{Dividing, for_order, high_word, low_word, signed_by};
ghost use Rattle.cc_line.specs.State.{State};
ghost use Rattle.cc_pieces.specs.Dividing.{dividing_piece};
ghost use Rattle.cc_pieces.specs.Restoring.{first_restore};
ghost use Rattle.cc_spots.specs.Spot.{IsSpot};
ghost use Rattle.mc_inspect.specs.steps.Found.{Tells};
ghost use Rattle.mc_inspect.specs.steps.Read.{HasScores};
ghost use Rattle.mc_inspect.specs.steps.Turns.{AreTurns, AreWords, HasOrders, NoTurns};
ghost use Rattle.mc_inspect.specs.steps.Turns.{signed_answer, whole_number};

use crate::frames::held;
use crate::reading::{Reading, Scores};
use cc_spots::CutSpot;
use mc_nbt::{Memory, Value};
use std::alloc::Global;
use wm_ast::{BinaryOp, ValType};
use wm_valid::Typed;
use wm_view::Inspection;

// Between two turns: what is divided, and what is left of it.
#[derive(Clone, Copy)]
struct Turns {
    dividend: u64,
    remainder: u64,
    divisor: u64,
}

// The number without sign that has these words.
fn joined(low: i32, high: i32) -> u64
    ensures low { low_word result ≡ low }
    ensures high { high_word result ≡ high }
{
    let low = low.cast_unsigned();
    let high = high.cast_unsigned();
    u64::from(high) * 4_294_967_296 + u64::from(low)
}

// The number of which these scores are the words; none where one of them isn't set.
fn number_of(low: Option<i32>, high: Option<i32>) -> Option<u64>
    ensures { MatchOption result ((n : ℕ) → AreWords n low high → ⊥) (λ n. AreWords n low high) }
{
    match low {
        Some(low) => match high {
            Some(high) => Some(joined(low, high)),
            None => None,
        },
        None => None,
    }
}

// The number whose order with sign is that of a word without.
fn for_order(word: i32) -> i32
    ensures { result ≡ for_order word }
{
    word.wrapping_add(i32::MIN)
}

// The same of a score, where it is set.
fn order_of(score: Option<i32>) -> Option<i32>
    ensures { result ≡ option_map for_order score }
{
    match score {
        Some(word) => Some(for_order(word)),
        None => None,
    }
}

// Whether scores are those with which the turns of a division compare.
fn has_orders(s: Scores) -> bool
    ensures { IsTrue result ↔ HasOrders s }
{
    s.u == order_of(s.m) && s.v == order_of(s.n) && s.k == Some(i32::MIN)
}

// What the scores tell; none where they are no division's.
fn turns_of(s: Scores) -> Option<Turns>
    ensures told { (p : State) → HasScores s p
        → MatchOption result (NoTurns p) (λ t. AreTurns t.dividend t.remainder t.divisor p) }
    ensures below { IfSome result (λ t. t.remainder < t.divisor) }
{
    if !has_orders(s) {
        return None;
    }
    let turns = Turns {
        dividend: number_of(s.d, s.e)?,
        remainder: number_of(s.p, s.r)?,
        divisor: number_of(s.m, s.n)?,
    };
    if turns.remainder < turns.divisor {
        Some(turns)
    } else {
        None
    }
}

// The quotient and the remainder, where eight times so many bits are left.
fn divided(t: Turns, left: u32) -> (u64, u64)
    requires few { left ≤ 8 }
    requires below { t.remainder < t.divisor }
    ensures quotient { result.0 ≡ whole_number t.dividend t.remainder t.divisor left / t.divisor }
    ensures rest { result.1 ≡ whole_number t.dividend t.remainder t.divisor left % t.divisor }
{
    let wide = 1u128 << (64 - 8 * left);
    let dividend = u128::from(t.dividend);
    let (bits, quotient) = (dividend / wide, dividend % wide);
    let rest = (u128::from(t.remainder) << (8 * left)) + bits;
    let divisor = u128::from(t.divisor);
    let above = quotient << (8 * left);
    ((above + rest / divisor) as u64, (rest % divisor) as u64)
}

// Whether a score tells that a result is to be negated.
fn is_negated(sign: Option<i32>) -> bool
    ensures { result ≡ some_is_in (exactly (pos 1)) sign }
{
    match sign {
        Some(number) => number == 1,
        None => false,
    }
}

// A number, negated modulo 2^64 or as it is.
fn signed_by(negated: bool, number: u64) -> u64
    ensures { result ≡ signed_by negated number }
{
    if negated {
        number.wrapping_neg()
    } else {
        number
    }
}

// The answer, with its sign.
fn signed(op: BinaryOp, quotient: u64, remainder: u64, sign: Option<i32>) -> i64
    ensures { result ≡ signed_answer op quotient remainder sign }
{
    let negated = is_negated(sign);
    match op {
        BinaryOp::DivS => signed_by(negated, quotient).cast_signed(),
        BinaryOp::DivU => quotient.cast_signed(),
        BinaryOp::RemS => signed_by(negated, remainder).cast_signed(),
        BinaryOp::RemU => remainder.cast_signed(),
        _ => 0,
    }
}

// Whether the turns are to be run so many times more.
fn has_left(s: Scores, left: u32) -> bool
    requires { left ≤ 8 }
    ensures { IsTrue result ↔ (s.g ≡ Some (pos left)) }
{
    s.g == Some(left as i32)
}

// The answer of a division with so many times eight turns left.
fn answer(op: BinaryOp, left: u32, s: Scores) -> Option<i64>
    ensures { (p : State) → HasScores s p
        → MatchOption result ((z : ℤ) → Dividing op z left p → ⊥) (λ z. Dividing op z left p) }
{
    if left > 8 || !has_left(s, left) {
        return None;
    }
    let turns = turns_of(s)?;
    let (quotient, remainder) = divided(turns, left);
    Some(signed(op, quotient, remainder, s.s))
}

// The kinds of the operands under an i64; none exactly where none is on top.
fn under_long(kinds: &[ValType]) -> Option<&[ValType]>
    ensures { MatchOption result ((ts : List types_of_values.ValType) → kinds.now ≡ ts ++ types.I64 ∷ [] → ⊥)
        (λ ts. kinds.now ≡ ts.now ++ types.I64 ∷ []) }
{
    match kinds {
        [others @ .., ValType::I64] => Some(others),
        _ => None,
    }
}

/// A division goes on, behind which this spot is.
pub(crate) fn behind_division(
    alloc: Global,
    m: &Typed,
    reading: &Reading,
    func: u32,
    spot: &CutSpot,
    op: BinaryOp,
    left: u32,
) -> Result<Option<Inspection>, Memory>
    ensures { IfOk result (λ o. (index : ℕ) → index < first_restore → IsSpot m.now func index spot.now
        → spot.now.division ≡ Some op → left ≤ 8 → (0 < left → reading.now.scores.g ≡ Some (pos left))
        → Tells m.now reading.now (dividing_piece func index left) o) }
{
    let Some(kinds) = under_long(spot.kinds.as_slice()) else {
        return Ok(None);
    };
    match answer(op, left, reading.scores) {
        Some(z) => held(alloc, m, reading, func, spot, kinds, Some(Value::I64(z))),
        None => Ok(None),
    }
}
