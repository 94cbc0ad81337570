// What the operations of scores make of a target and a source.
ghost use Rattle.std.specs.Prelude.{◌≡◌, ◌+ℤ◌, ◌-ℤ◌, ◌*ℤ◌, ◌<ℤ◌, pos, int_lt, if◌then◌else◌, Some};
ghost use Rattle.mc_cmd.specs.View.{op_view};
ghost use Rattle.mc_cmd.specs.World as spec;

use mc_cmd::Op;

pub(crate) fn sum(a: i32, b: i32) -> i32
    ensures { result ≡ spec.wrapped (a +ℤ b) }
{
    a.wrapping_add(b)
}

pub(crate) fn difference(a: i32, b: i32) -> i32
    ensures { result ≡ spec.wrapped (a -ℤ b) }
{
    a.wrapping_sub(b)
}

fn product(a: i32, b: i32) -> i32
    ensures { result ≡ spec.wrapped (a *ℤ b) }
{
    a.wrapping_mul(b)
}

// The quotient by a number below 0, which is 2^31 at the most.
fn quotient_by_negative(a: i32, b: i32) -> i32
    requires { b <ℤ pos 0 }
    ensures { Some result ≡ spec.quotient a b }
{
    let floor = (-(a as i64)).div_euclid(-(b as i64));
    if floor == 2_147_483_648 {
        i32::MIN
    } else {
        floor as i32
    }
}

fn quotient_by_positive(a: i32, b: i32) -> i32
    requires { pos 0 <ℤ b }
    ensures { Some result ≡ spec.quotient a b }
{
    a.div_euclid(b)
}

fn quotient(a: i32, b: i32) -> Option<i32>
    ensures { result ≡ spec.quotient a b }
{
    if b == 0 {
        None
    } else if b > 0 {
        Some(quotient_by_positive(a, b))
    } else {
        Some(quotient_by_negative(a, b))
    }
}

fn rest_by_positive(a: i32, b: i32) -> i32
    requires { pos 0 <ℤ b }
    ensures { Some result ≡ spec.rest_by a b }
{
    a.rem_euclid(b)
}

fn rest_by_negative(a: i32, b: i32) -> i32
    requires { b <ℤ pos 0 }
    ensures { Some result ≡ spec.rest_by a b }
{
    let rest = (-(a as i64)).rem_euclid(-(b as i64));
    -(rest as i32)
}

fn rest(a: i32, b: i32) -> Option<i32>
    ensures { result ≡ spec.rest_by a b }
{
    if b == 0 {
        None
    } else if b > 0 {
        Some(rest_by_positive(a, b))
    } else {
        Some(rest_by_negative(a, b))
    }
}

fn lower(a: i32, b: i32) -> i32
    ensures { result ≡ (if int_lt b a then b else a) }
{
    if b < a { b } else { a }
}

fn raise(a: i32, b: i32) -> i32
    ensures { result ≡ (if int_lt a b then b else a) }
{
    if a < b { b } else { a }
}

// What the target becomes; none where a number would be divided by 0.
pub(crate) fn operate(op: Op, a: i32, b: i32) -> Option<i32>
    ensures { result ≡ spec.operate (op_view op) a b }
{
    match op {
        Op::Assign => Some(b),
        Op::Add => Some(sum(a, b)),
        Op::Subtract => Some(difference(a, b)),
        Op::Multiply => Some(product(a, b)),
        Op::Divide => quotient(a, b),
        Op::Remainder => rest(a, b),
        Op::Lower => Some(lower(a, b)),
        Op::Raise => Some(raise(a, b)),
        Op::Swap => Some(b),
    }
}
