// Operations on numbers of 64 bits from a place on.
ghost use Rattle.std.specs.Prelude.{◌≡◌, ◌++◌, IfOk, OnOk, codes, suc, true};
ghost use Rattle.wm_ast.specs.Operator.{operator_of};
ghost use Rattle.cc_line.specs.BlockView.{block_items};
ghost use Rattle.cc_line.specs.Core.{core_on_one};
ghost use Rattle.cc_line.specs.Core as core;
ghost use Rattle.cc_line.specs.Item.{steps_items};
ghost use Rattle.cc_line.specs.Step.{run_act};
ghost use Rattle.cc_line.specs.Step as step;
ghost use Rattle.cc_line.specs.View.{spot_view, step_view, steps_view};
ghost use Rattle.cc_i64.specs.Operation.{binary_items, compare_items, is_extension, is_own, is_sum, op_items};
ghost use Rattle.cc_i64.specs.Operation.{unary_items};
ghost use Rattle.cc_i64.specs.Pairs as spec;

use crate::pairs::{
    Halves, agree, both_zero, difference, signed_order, signed_part, sum, unsigned_order,
};
use cc_line::{
    Act, Block, Check, Cond, Conds, Scratch, Slots, Step, bring_back, fetch, next_place, on_one,
    on_two, spot_of,
};
use mc_cmd::{Cmp, Range};
use mc_nbt::{Kind, Memory};
use std::alloc::Global;
use wm_ast::{BinaryOp, CompareOp, NumOp, Operator, UnaryOp};

/// What is emitted for an operation: the items that make its result, from a place on, of the operands that stand there one
/// behind the other.
///
/// # Errors
///
/// `Memory` where there is no room for it, or a place's number is 2^32 or more.
pub fn emit(alloc: Global, op: NumOp, place: u32) -> Result<Block, Memory>
    requires { is_own (operator_of op) ≡ true }
    ensures { IfOk result (λ b. block_items b ≡ op_items op place) }
{
    match op.operator() {
        Operator::Test(Kind::I64) => test(alloc, place),
        Operator::Unary(Kind::I64, op) => unary(alloc, op, place),
        Operator::Binary(Kind::I64, op) => binary(alloc, op, place),
        Operator::Comparison(Kind::I64, op) => compare(alloc, op, place),
        Operator::Wrap => Block::of(Vec::new(alloc)),
        Operator::ExtendS => extend_signed(alloc, place),
        Operator::ExtendU => extend_plain(alloc, place),
        _ => unreachable!(),
    }
}

fn test(alloc: Global, place: u32) -> Result<Block, Memory>
    ensures { IfOk result (λ b. block_items b ≡ steps_items (core.on_two place (suc place) place spec.both_zero)) }
{
    let s = Slots {
        a: place,
        b: next_place(place)?,
        r: place,
    };
    let mut steps = Vec::new(alloc);
    on_two(&both_zero(), s, &mut steps)?;
    Block::of_steps(alloc, steps.as_slice())
}

fn unary(alloc: Global, op: UnaryOp, place: u32) -> Result<Block, Memory>
    requires { is_extension op ≡ true }
    ensures { IfOk result (λ b. block_items b ≡ unary_items op place) }
{
    match op {
        UnaryOp::Extend8S => extend_part(alloc, &signed_part(256, 128), place),
        UnaryOp::Extend16S => extend_part(alloc, &signed_part(65536, 32768), place),
        UnaryOp::Extend32S => extend_signed(alloc, place),
        _ => unreachable!(),
    }
}

fn binary(alloc: Global, op: BinaryOp, place: u32) -> Result<Block, Memory>
    requires { is_sum op ≡ true }
    ensures { IfOk result (λ b. block_items b ≡ binary_items op place) }
{
    let p = four_places(place)?;
    let x = spots_at(p);
    match op {
        BinaryOp::Add => pair(alloc, &sum(x), p),
        BinaryOp::Sub => pair(alloc, &difference(x), p),
        _ => unreachable!(),
    }
}

fn compare(alloc: Global, op: CompareOp, place: u32) -> Result<Block, Memory>
    ensures { IfOk result (λ b. block_items b ≡ compare_items op place) }
{
    let p = four_places(place)?;
    let x = spots_at(p);
    match op {
        CompareOp::Eq => word(alloc, &agree(x, 1, 0), p),
        CompareOp::Ne => word(alloc, &agree(x, 0, 1), p),
        CompareOp::LtS => word(alloc, &signed_order(x, Cmp::Less, Cmp::Less), p),
        CompareOp::LtU => word(alloc, &unsigned_order(x, Cmp::Less, Cmp::Less), p),
        CompareOp::GtS => word(alloc, &signed_order(x, Cmp::Greater, Cmp::Greater), p),
        CompareOp::GtU => word(alloc, &unsigned_order(x, Cmp::Greater, Cmp::Greater), p),
        CompareOp::LeS => word(alloc, &signed_order(x, Cmp::Less, Cmp::LessEqual), p),
        CompareOp::LeU => word(alloc, &unsigned_order(x, Cmp::Less, Cmp::LessEqual), p),
        CompareOp::GeS => word(alloc, &signed_order(x, Cmp::Greater, Cmp::GreaterEqual), p),
        CompareOp::GeU => word(
            alloc,
            &unsigned_order(x, Cmp::Greater, Cmp::GreaterEqual),
            p,
        ),
    }
}

// ---- places

// Four places, one behind the other.
#[derive(Clone, Copy, Debug)]
struct FourPlaces {
    al: u32,
    ah: u32,
    bl: u32,
    bh: u32,
    ghost one_by_one: { (ah ≡ suc al) × (bl ≡ suc (suc al)) × (bh ≡ suc (suc (suc al))) },
}

fn four_places(place: u32) -> Result<FourPlaces, Memory>
    ensures { IfOk result (λ p. p.al ≡ place) }
{
    let ah = next_place(place)?;
    let bl = next_place(ah)?;
    let bh = next_place(bl)?;
    Ok(FourPlaces {
        al: place,
        ah,
        bl,
        bh,
    })
}

fn spots_at(p: FourPlaces) -> Halves
    ensures al { spot_view result.al ≡ core.spot_of p.al (codes "#a") }
    ensures ah { spot_view result.ah ≡ core.spot_of (suc p.al) (codes "#b") }
    ensures bl { spot_view result.bl ≡ core.spot_of (suc (suc p.al)) (codes "#c") }
    ensures bh { spot_view result.bh ≡ core.spot_of (suc (suc (suc p.al))) (codes "#d") }
{
    Halves {
        al: spot_of(p.al, Scratch::A),
        ah: spot_of(p.ah, Scratch::B),
        bl: spot_of(p.bl, Scratch::C),
        bh: spot_of(p.bh, Scratch::D),
    }
}

// ---- lines on places

// The block of lines on the spots of two numbers that leave a number of 32 bits in the first of them.
fn word(alloc: Global, core: &[Step], p: FourPlaces) -> Result<Block, Memory>
    ensures { IfOk result (λ b. block_items b
        ≡ steps_items (spec.operands p.al ++ (steps_view core.now ++ spec.word_back p.al))) }
{
    let mut steps = Vec::new(alloc);
    push_operands(p, &mut steps)?;
    push_all(core, &mut steps)?;
    bring_back(p.al, spot_of(p.al, Scratch::A), &mut steps)?;
    Block::of_steps(alloc, steps.as_slice())
}

// The block of those that leave one of 64 bits in the first two.
fn pair(alloc: Global, core: &[Step], p: FourPlaces) -> Result<Block, Memory>
    ensures { IfOk result (λ b. block_items b
        ≡ steps_items (spec.operands p.al ++ (steps_view core.now ++ spec.pair_back p.al))) }
{
    let mut steps = Vec::new(alloc);
    push_operands(p, &mut steps)?;
    push_all(core, &mut steps)?;
    bring_back(p.al, spot_of(p.al, Scratch::A), &mut steps)?;
    bring_back(p.ah, spot_of(p.ah, Scratch::B), &mut steps)?;
    Block::of_steps(alloc, steps.as_slice())
}

fn push_operands(p: FourPlaces, steps: &mut Vec<Step>) -> Result<(), Memory>
    ensures { OnOk result (steps_view steps.new.items ≡ steps_view steps.old.items ++ spec.operands p.al) }
{
    fetch(p.al, Scratch::A, steps)?;
    fetch(p.ah, Scratch::B, steps)?;
    fetch(p.bl, Scratch::C, steps)?;
    fetch(p.bh, Scratch::D, steps)
}

fn push_all(added: &[Step], steps: &mut Vec<Step>) -> Result<(), Memory>
    ensures { OnOk result (steps_view steps.new.items ≡ steps_view steps.old.items ++ steps_view added.now) }
{
    for step in added {
        steps.push(*step)?;
    }
    Ok(())
}

// ---- extensions

fn extend_plain(alloc: Global, place: u32) -> Result<Block, Memory>
    ensures { IfOk result (λ b. block_items b ≡ steps_items (spec.zero_behind place)) }
{
    let high = next_place(place)?;
    Block::of_steps(alloc, &[set_place(high, 0)])
}

fn extend_signed(alloc: Global, place: u32) -> Result<Block, Memory>
    ensures { IfOk result (λ b. block_items b ≡ steps_items (spec.sign_behind place)) }
{
    let mut steps = Vec::new(alloc);
    push_sign(place, &mut steps)?;
    Block::of_steps(alloc, steps.as_slice())
}

// First the low half by a core with one operand.
fn extend_part(alloc: Global, part: &[Step], place: u32) -> Result<Block, Memory>
    ensures { IfOk result (λ b. block_items b
        ≡ steps_items (core.on_one place place (core_on_one (steps_view part.now)) ++ spec.sign_behind place)) }
{
    let s = Slots {
        a: place,
        b: place,
        r: place,
    };
    let mut steps = Vec::new(alloc);
    on_one(part, s, &mut steps)?;
    push_sign(place, &mut steps)?;
    Block::of_steps(alloc, steps.as_slice())
}

fn push_sign(place: u32, steps: &mut Vec<Step>) -> Result<(), Memory>
    ensures { OnOk result (steps_view steps.new.items ≡ steps_view steps.old.items ++ spec.sign_behind place) }
{
    fetch(place, Scratch::A, steps)?;
    push_all(&sign_lines(place)?, steps)
}

fn sign_lines(place: u32) -> Result<[Step; 2], Memory>
    ensures { IfOk result (λ xs. steps_view xs ≡ spec.sign_lines place) }
{
    let high = next_place(place)?;
    let negative = Check::InRange(spot_of(place, Scratch::A), Range::To(-1));
    let minus_one = Act::SetPlace {
        place: high,
        value: -1,
    };
    Ok([
        set_place(high, 0),
        Step::When(Conds::One(Cond::Holds(negative)), minus_one),
    ])
}

fn set_place(place: u32, value: i32) -> Step
    ensures { step_view result ≡ run_act (step.set_place place value) }
{
    Step::Run(Act::SetPlace { place, value })
}
